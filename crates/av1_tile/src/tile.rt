//! Walks over all leaves in coding order. Writes the planes, the cells and the buffers.

ghost use Rattle.std.specs.Prelude.{◌≡◌, ◌<◌, All, length};
ghost use Rattle.std.specs.List.{fold};
ghost use Rattle.av1_plan.specs.Values.{leaves_value};
ghost use Rattle.av1_tile.specs.Predicted.{gathered, keeping_step};
ghost use Rattle.av1_tile.specs.Reference.{Scene};
ghost use Rattle.av1_tile.specs.Walk.{at_start, cell_at, steps_by, HasCells, AreWalkedPlanes, KeepsPlanes, LeafFits, ServesScene};
ghost use Rattle.av1_tile.specs.Walk.{with_header};

use crate::buffers::WalkBuffers;
use crate::cells::CodedCells;
use crate::frame::WalkedFrame;
use crate::leaf::reconstruct_leaf;
use crate::planes::Planes;
use crate::references::TileReferences;
use av1_frame::Pixel;
use av1_plan::{Header, Leaves};

/// Reconstructs these leaves, in coding order, in a frame with this header. The modes and references of each leaf are
/// then written to `cells`.
pub fn reconstruct_leaves<'a, T: Pixel>(
    planes: &mut Planes<T>,
    cells: &mut CodedCells,
    buffers: &mut WalkBuffers<T>,
    from: &'a TileReferences<'a, T>,
    header: &Header,
    leaves: &Leaves,
)
    requires held { AreWalkedPlanes T.num T.BITS header.now planes.old }
    requires cells { HasCells header.now cells.old }
    requires fits { All (LeafFits header.now planes.old) (leaves_value leaves.now) }
    requires references { (value : Scene) × ServesScene T.num (with_header header.now value) from.now }
    ensures walked { (value : Scene) → ServesScene T.num (with_header header.now value) from.now →
        (planes.new, gathered buffers.new.kept buffers.new.edges.prepared) ≡
        fold (keeping_step T.num T.pixel (with_header header.now value)) (planes.old, gathered buffers.old.kept buffers.old.edges.prepared)
        (steps_by header.now (at_start (cell_at cells.old)) (leaves_value leaves.now)) }
    ensures kept { KeepsPlanes T.num header.now planes.old planes.new }
    ensures cells { HasCells header.now cells.new }
    ensures count { length cells.new.cells.items ≡ length cells.old.cells.items }
{
    for index in 0..leaves.leaves().len() {
        let leaf = &leaves.leaves()[index];
        let frame = WalkedFrame {
            header,
            from,
            cells: &*cells,
            earlier: &leaves.leaves()[..index],
        };
        reconstruct_leaf(
            planes,
            buffers,
            &frame,
            leaf,
            leaves.triples(index, 0),
            leaves.triples(index, 1),
            leaves.triples(index, 2),
        );
        cells.note(header, leaf);
    }
}
