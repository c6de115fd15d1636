//! Keeps planes, references and memory (`new` allocates them), and reconstructs plans: writes planes and memory.

ghost use Rattle.std.specs.Prelude.{◌≡◌, ◌≤◌, None};
ghost use Rattle.av1_plan.specs.Values.{plan_value};
ghost use Rattle.av1_plan.specs.Validity.{first_fault};
ghost use Rattle.av1_tile.specs.Memory.{HasRoomFor};
ghost use Rattle.av1_tile.specs.Output.{planes_of, visible};
ghost use Rattle.av1_tile.specs.State.{edges_of, IsSound, MadeFor, shown, ShowsRows, state_edges, state_header, state_references, with_settings};

use crate::fill::fill_plane;
use crate::memory::WalkMemory;
use crate::planes::Planes;
use crate::slots::frame_invariants;
use av1_blocks::OutOfMemory;
use av1_frame::{FrameInvariants, Pixel};
use av1_plan::{Header, Plan};
use std::alloc::Global;
use std::marker::Model;

/// The planes of the frame that is reconstructed, its references, and the memory of the walk.
///
/// A state serves frame after frame with the width, height, sampling, depth and reference samples of the plan that it
/// was made for. Edge filter, interpolation filter and the slots of the references are those of each plan.
#[derive(Drop)]
pub struct TileState<T: Pixel> {
    header: Header,
    fi: FrameInvariants<T>,
    planes: Planes<T>,
    memory: WalkMemory<T>,
    ghost room: { HasRoomFor header memory },
}

impl<T: Pixel> Model for TileState<T> {
    ghost use Rattle.av1_tile.specs.State.{Picture};

    ghost Value = { Picture T };

    ghost view = { λ s. record { header = s.header; references = s.fi; planes = s.planes; edges = s.memory.edges } };
}

impl<T: Pixel> TileState<T> {
    ghost use Rattle.std.specs.Prelude.{◌≡◌, ◌<◌, ◌≤◌, ◌^◌, IfOk, map, None};
    ghost use Rattle.av1_plan.specs.Values.{plan_value};
    ghost use Rattle.av1_plan.specs.Validity.{first_fault};
    ghost use Rattle.av1_tile.specs.PlaneBlocks.{shown_of};
    ghost use Rattle.av1_tile.specs.State.{
      AreAlike,
      IsFilledWith,
      IsSound,
      MadeFor,
      state_edges,
      state_header,
      state_planes,
      state_references,
      state_row,
      with_settings,
    };

    /// Allocates all the memory that the reconstruction of a plan needs. The plan is valid, and its depth fits the
    /// sample type.
    pub fn new(alloc: Global, plan: &Plan) -> Result<TileState<T>, OutOfMemory>
        requires valid { first_fault (plan_value plan.now) ≡ None }
        requires depth { (plan_value plan.now).header.depth ≤ T.BITS }
        ensures sound { IfOk result (λ s. IsSound T.num s) }
        ensures made { IfOk result (λ s. MadeFor T.num (plan_value plan.now) s) }
        ensures header { IfOk result (λ s. state_header s ≡ (plan_value plan.now).header) }
        ensures edges { IfOk result (λ s. state_edges s ≡ 0) }
    {
        let header = *plan.header();
        let fi = frame_invariants(alloc, plan)?;
        let planes = Planes::new(alloc, &header, 0)?;
        let memory = WalkMemory::new(alloc, &header)?;
        Ok(TileState {
            header,
            fi,
            planes,
            memory,
        })
    }

    /// The header of the plan that was reconstructed last, or of the plan that the state was made for.
    pub fn header(&self) -> &Header
        ensures { result.now ≡ state_header self.now }
    {
        &self.header
    }

    /// The planes of the frame. They may store samples outside the frame.
    pub fn planes(&self) -> &Planes<T>
        ensures { result.now ≡ state_planes self.now }
    {
        &self.planes
    }

    /// The number of edges that were prepared in the state, up to the last value of a `u64`. Each intra prediction of a
    /// transform block prepares one.
    pub fn edges(&self) -> u64
        ensures { result ≡ state_edges self.now }
    {
        self.memory.edges()
    }

    /// Row `y` of the visible part of plane `p` (0 for Y, 1 for U and 2 for V).
    pub fn row(&self, p: usize, y: usize) -> &[T]
        requires sound { IsSound T.num self.now }
        requires plane { p < 3 }
        requires in_plane { y < (shown_of (state_header self.now) p).height }
        ensures { map T.num result.now ≡ state_row T.num self.now p y }
    {
        self.planes.row(&self.header, p, y)
    }

    /// Sets each stored sample of the three planes to `value`, which lies within the depth. The rest is unchanged.
    pub fn fill_with(&mut self, value: T)
        requires sound { IsSound T.num self.old }
        requires within { T.num value < 2 ^ (state_header self.old).depth }
        ensures filled { IsFilledWith value self.new }
        ensures sound { IsSound T.num self.new }
        ensures header { state_header self.new ≡ state_header self.old }
        ensures references { state_references self.new ≡ state_references self.old }
        ensures edges { state_edges self.new ≡ state_edges self.old }
    {
        fill_plane(&mut self.planes.y, value);
        fill_plane(&mut self.planes.u, value);
        fill_plane(&mut self.planes.v, value);
    }

    /// Takes over a header, and copies its filters and the slots of its references to the frame settings.
    fn follow(&mut self, header: &Header)
        requires sound { IsSound T.num self.old }
        requires alike { AreAlike (state_header self.old) header.now }
        ensures sound { IsSound T.num self.new }
        ensures header { state_header self.new ≡ header.now }
        ensures references { state_references self.new ≡ with_settings header.now (state_references self.old) }
        ensures edges { state_edges self.new ≡ state_edges self.old }
    {
        self.header = *header;
        self.fi.default_filter = header.filter;
        self.fi.follow_av1(header.follows_av1());
        self.fi.enable_intra_edge_filter = header.edge_filter;
        self.fi.ref_frames = header.slots;
    }
}

/// Reconstructs a plan: predicts its leaves in coding order, and adds the residuals of their transform blocks. The
/// visible planes are then those of the slow definition, whatever the planes held before.
///
/// The plan is valid, and the state was made for it, or for a plan with the same width, height, sampling, depth and
/// reference samples. Edge filter, interpolation filter and the slots of the references are those of `plan`, whose
/// header becomes the state's header.
pub fn reconstruct_tile<T: Pixel>(state: &mut TileState<T>, plan: &Plan)
    requires valid { first_fault (plan_value plan.now) ≡ None }
    requires sound { IsSound T.num state.old }
    requires made { MadeFor T.num (plan_value plan.now) state.old }
    requires depth { (plan_value plan.now).header.depth ≤ T.BITS }
    ensures visible { visible (state_header state.new) (shown T.num state.new) ≡ planes_of (plan_value plan.now) }
    ensures rows { ShowsRows T.num (plan_value plan.now) state.new }
    ensures sound { IsSound T.num state.new }
    ensures made { MadeFor T.num (plan_value plan.now) state.new }
    ensures header { state_header state.new ≡ (plan_value plan.now).header }
    ensures references { state_references state.new ≡ with_settings (plan_value plan.now).header (state_references state.old) }
    ensures edges { state_edges state.new ≡ edges_of (state_edges state.old) (plan_value plan.now) }
{
    state.follow(plan.header());
    state.memory.reconstruct(
        &mut state.planes,
        &state.fi,
        &state.header,
        plan.leaves_with_triples(),
    );
}
