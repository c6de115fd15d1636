//! The memory of a walk, allocated once for many frames. Reconstructs leaves: writes this memory and given planes.

ghost use Rattle.std.specs.Prelude.{◌≡◌, length};

use crate::buffers::WalkBuffers;
use crate::cells::CodedCells;
use crate::planes::Planes;
use crate::references::TileReferences;
use crate::tile::reconstruct_leaves;
use av1_blocks::OutOfMemory;
use av1_frame::{FrameInvariants, Pixel};
use av1_plan::{Header, Leaves};
use std::alloc::Global;
use std::marker::Model;

/// The memory of a walk: allocated once, with the cells of the largest frame. No result depends on the frame before.
#[derive(Drop)]
pub struct WalkMemory<T: Pixel> {
    cells: CodedCells,
    buffers: WalkBuffers<T>,
}

impl<T: Pixel> Model for WalkMemory<T> {
    ghost use Rattle.std.specs.Prelude.{length};
    ghost use Rattle.av1_tile.specs.Memory.{WalkRoom};

    ghost Value = { WalkRoom };

    ghost view = { λ m. record { cells = length m.cells.cells.items; edges = m.buffers.edges.prepared } };
}

impl<T: Pixel> WalkMemory<T> {
    ghost use Rattle.std.specs.Prelude.{◌≡◌, ◌≤◌, ◌*◌, ◌/◌, IfOk, nat_le};
    ghost use Rattle.av1_plan.specs.Geometry.{coded_width, coded_height};
    ghost use Rattle.av1_plan.specs.Values.{leaves_value};
    ghost use Rattle.av1_plan.specs.Plan.{PlanValue};
    ghost use Rattle.av1_tile.specs.Memory.{HasRoomFor, IsPlanOver, IsTileOver, ShowsPlan, ShowsScene};
    ghost use Rattle.av1_tile.specs.Reference.{Scene};
    ghost use Rattle.av1_tile.specs.State.{edges_of};
    ghost use Rattle.av1_tile.specs.Walk.{HasRoom, SameLayout, StoresAll};

    /// Allocates the memory for frames with the width and height of this header, and for all frames with no more cells
    /// of 4x4 luma samples. The count of prepared edges is 0. The only error is running out of memory.
    pub fn new(alloc: Global, header: &Header) -> Result<WalkMemory<T>, OutOfMemory>
        ensures room { IfOk result (λ m. HasRoomFor header.now m) }
        ensures edges { IfOk result (λ m. m.edges ≡ 0) }
    {
        let cells = CodedCells::new(alloc, header)?;
        let buffers = WalkBuffers::new(alloc)?;
        Ok(WalkMemory { cells, buffers })
    }

    /// Whether the memory is large enough for frames with the width and height of this header.
    pub fn has_room_for(&self, header: &Header) -> bool
        ensures { result ≡ nat_le (coded_height header.now / 4 * (coded_width header.now / 4)) self.now.cells }
    {
        header.coded_height() / 4 * (header.coded_width() / 4) <= self.cells.cells.len()
    }

    /// The number of edges that were prepared in the memory, up to the last value of a `u64`.
    pub fn edges(&self) -> u64
        ensures { result ≡ self.now.edges }
    {
        self.buffers.edges.prepared()
    }

    /// Reconstructs the leaves of a valid plan whose header and references are stored apart from them: `header` is the
    /// header, and the slots of `fi` hold the references. The visible samples of the planes are then those of the slow
    /// definition, whatever the planes held before.
    ///
    /// The planes store a frame with this header, padded to whole superblocks. Their layout doesn't change.
    pub fn reconstruct(
        &mut self,
        planes: &mut Planes<T>,
        fi: &FrameInvariants<T>,
        header: &Header,
        leaves: &Leaves,
    )
        requires plan { (plan : PlanValue) × IsPlanOver T.num header.now (leaves_value leaves.now) fi.now plan }
        requires depth { header.now.depth ≤ T.BITS }
        requires room { HasRoomFor header.now self.old }
        requires stores { StoresAll T.num header.now planes.old }
        requires superblocks { HasRoom header.now planes.old }
        ensures shown { (plan : PlanValue) → IsPlanOver T.num header.now (leaves_value leaves.now) fi.now plan → ShowsPlan T.num plan planes.new }
        ensures edges { (plan : PlanValue) → IsPlanOver T.num header.now (leaves_value leaves.now) fi.now plan →
            self.new.edges ≡ edges_of self.old.edges plan }
        ensures stores { StoresAll T.num header.now planes.new }
        ensures layout { SameLayout planes.old planes.new }
        ensures cells { self.new.cells ≡ self.old.cells }
    {
        self.reconstruct_tile(planes, &TileReferences::whole(fi, header), header, leaves);
    }

    /// Reconstructs the leaves of a tile as a frame of its own, with the header `header`. But it predicts them from the
    /// references of the whole frame, at the tile's position there. The visible samples of the planes are then those of
    /// the slow definition, whatever the planes held before.
    ///
    /// The planes store a frame with the tile's header, padded to whole superblocks. Their layout doesn't change.
    pub fn reconstruct_tile(
        &mut self,
        planes: &mut Planes<T>,
        from: &TileReferences<'_, T>,
        header: &Header,
        leaves: &Leaves,
    )
        requires tile { (scene : Scene) × ((plan : PlanValue) × IsTileOver T.num header.now (leaves_value leaves.now) from.now scene plan) }
        requires depth { header.now.depth ≤ T.BITS }
        requires room { HasRoomFor header.now self.old }
        requires stores { StoresAll T.num header.now planes.old }
        requires superblocks { HasRoom header.now planes.old }
        ensures shown { (scene : Scene) (plan : PlanValue) → IsTileOver T.num header.now (leaves_value leaves.now) from.now scene plan →
            ShowsScene T.num scene (leaves_value leaves.now) planes.new }
        ensures edges { (scene : Scene) (plan : PlanValue) → IsTileOver T.num header.now (leaves_value leaves.now) from.now scene plan →
            self.new.edges ≡ edges_of self.old.edges plan }
        ensures stores { StoresAll T.num header.now planes.new }
        ensures layout { SameLayout planes.old planes.new }
        ensures cells { self.new.cells ≡ self.old.cells }
    {
        self.cells.lay_out(header);
        reconstruct_leaves(
            planes,
            &mut self.cells,
            &mut self.buffers,
            from,
            header,
            leaves,
        );
    }
}
