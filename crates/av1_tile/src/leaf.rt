//! Reconstructs a leaf in Y, and in U and V if it carries chroma. Writes the planes and the buffers.

ghost use Rattle.std.specs.Prelude.{◌≡◌, ℕ, ◌<◌, length, []};
ghost use Rattle.std.specs.List.{fold};
ghost use Rattle.av1_frame.specs.Planes.{sample_at};
ghost use Rattle.av1_intra.specs.ChromaFromLuma.{ac_at, chroma_block, leaf_difference};
ghost use Rattle.av1_tile.specs.PlaneBlocks.{is_from_luma};
ghost use Rattle.av1_tile.specs.Predicted.{gathered, keeping_step};
ghost use Rattle.av1_tile.specs.Reference.{Scene, luma_of};
ghost use Rattle.av1_tile.specs.Walk.{known_in, leaf_steps_by, leaf_with, luma_block, LeafFits, LumaFits, Stores};
ghost use Rattle.av1_tile.specs.Walk.{IsWalked, KeepsPlanes, ServesScene, StoresAll, with_header};

use crate::buffers::WalkBuffers;
use crate::frame::WalkedFrame;
use crate::planes::Planes;
use crate::walk::reconstruct_leaf_in;
use av1_frame::{Area, Pixel, Plane};
use av1_intra::{LumaLeaf, leaf_luma_ac};
use av1_plan::{ChromaMode, Header, Leaf, LeafKind, Triple};

/// Whether a leaf's chroma is predicted from its luma.
fn is_from_luma(kind: LeafKind) -> bool
    ensures { result ≡ is_from_luma kind }
{
    matches!(
        kind,
        LeafKind::Intra {
            chroma: Some(ChromaMode::Cfl { .. }),
            ..
        }
    )
}

/// Writes to `luma`, row by row, the distance of a leaf's luma from its mean for each of its chroma samples.
fn prepare_luma<T: Pixel>(luma: &mut [i16], plane: &Plane<T>, header: &Header, leaf: &Leaf)
    requires stores { Stores T.num header.now 0 plane.now }
    requires fits { LumaFits header.now plane.now.plane_cfg (leaf_with leaf.now [] [] []) }
    requires long { length luma.old ≡ 1024 }
    ensures long { length luma.new ≡ 1024 }
    ensures value { let l = luma_of header.now (luma_block (leaf_with leaf.now [] [] [])) in
        (r c : ℕ) → r < (chroma_block l).height → c < (chroma_block l).width →
        ac_at (chroma_block l).width luma.new r c ≡ leaf_difference (sample_at T.num plane.now) l r c }
{
    let config = plane.config();
    let stored = plane.region(Area::Rect {
        x: 0,
        y: 0,
        width: config.stride - config.xorigin,
        height: config.alloc_height - config.yorigin,
    });
    leaf_luma_ac(
        luma,
        &stored,
        LumaLeaf {
            x: usize::from(leaf.x),
            y: usize::from(leaf.y),
            bsize: leaf.size,
            tx_size: leaf.tx_size,
            visible_width: header.plane_width(0),
            visible_height: header.plane_height(0),
            xdec: header.xdec(1),
            ydec: header.ydec(1),
        },
    );
}

/// Reconstructs a leaf: its block in Y, then its blocks in U and V if it carries chroma.
pub fn reconstruct_leaf<T: Pixel>(
    planes: &mut Planes<T>,
    buffers: &mut WalkBuffers<T>,
    frame: &WalkedFrame<'_, '_, T>,
    leaf: &Leaf,
    y: &[Triple],
    u: &[Triple],
    v: &[Triple],
)
    requires frame { IsWalked T.num T.BITS frame.now }
    requires stores { StoresAll T.num frame.now.header.now planes.old }
    requires fits { LeafFits frame.now.header.now planes.old (leaf_with leaf.now y.now u.now v.now) }
    ensures walked { let h = frame.now.header.now in let l = leaf_with leaf.now y.now u.now v.now in
        (value : Scene) → ServesScene T.num (with_header h value) frame.now.from.now → (planes.new, gathered buffers.new.kept buffers.new.edges.prepared) ≡
        fold (keeping_step T.num T.pixel (with_header h value)) (planes.old, gathered buffers.old.kept buffers.old.edges.prepared)
        (leaf_steps_by h (known_in frame.now) l) }
    ensures kept { KeepsPlanes T.num frame.now.header.now planes.old planes.new }
{
    let header = frame.header;
    reconstruct_leaf_in(&mut planes.y, buffers, frame, leaf, 0, y);
    if leaf.carries_chroma(header) {
        if is_from_luma(leaf.kind) {
            prepare_luma(buffers.luma.as_mut_slice(), &planes.y, header, leaf);
        }
        reconstruct_leaf_in(&mut planes.u, buffers, frame, leaf, 1, u);
        reconstruct_leaf_in(&mut planes.v, buffers, frame, leaf, 2, v);
    }
}
