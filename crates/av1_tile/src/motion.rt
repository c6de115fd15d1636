//! Describes the motion of an inter leaf, and predicts a rectangle by it. Writes the plane and a buffer.
//!
//! AV1 specification: inter prediction process.

ghost use Rattle.std.specs.Prelude.{◌≡◌, ◌^◌, ◌<◌, ◌≤◌, pos};
ghost use Rattle.av1_frame.specs.Planes.{InPlane, painted_plane};
ghost use Rattle.av1_tile.specs.Motion.{IsPlaced, motion_of, rect_of, visible_in};
ghost use Rattle.av1_tile.specs.Reference.{Scene};
ghost use Rattle.av1_tile.specs.Walk.{MotionFits, ServesScene};

use crate::references::TileReferences;
use av1_blocks::{MotionVector, PredictionMode, RefType};
use av1_frame::{Pixel, Plane, PlaneOffset, StoredArea, visible_area};
use av1_inter::{InterCompoundBuffers, predict_inter};
use av1_plan::LeafKind;

/// How a rectangle is predicted from references: from one, or from the average of two. rav1e has the same form.
#[derive(Clone, Copy)]
pub struct Motion {
    /// The inter mode. Prediction does not depend on it; only contracts mention it.
    pub mode: PredictionMode,
    /// The references. With only one reference, the second is `NONE_FRAME`.
    pub references: [RefType; 2],
    /// The motion vector in each reference.
    pub mvs: [MotionVector; 2],
}

impl Motion {
    ghost use Rattle.std.specs.Prelude.{◌≡◌};
    ghost use Rattle.av1_tile.specs.Motion.{from_one, from_two};

    /// The motion of a leaf that is predicted from one reference.
    #[inline(always)]
    pub fn from_one(mode: PredictionMode, reference: RefType, mv: MotionVector) -> Motion
        ensures { result ≡ from_one mode reference mv }
    {
        Motion {
            mode,
            references: [reference, RefType::NONE_FRAME],
            mvs: [mv, MotionVector { row: 0, col: 0 }],
        }
    }

    /// The motion of a leaf that is predicted from two references.
    #[inline(always)]
    pub fn from_two(
        mode: PredictionMode,
        references: [RefType; 2],
        mvs: [MotionVector; 2],
    ) -> Motion
        ensures { result ≡ from_two mode references mvs }
    {
        Motion {
            mode,
            references,
            mvs,
        }
    }
}

/// The motion of an inter leaf; None for an intra leaf.
#[inline(always)]
pub fn motion_of(kind: LeafKind) -> Option<Motion>
    ensures { result ≡ motion_of kind }
{
    match kind {
        LeafKind::Intra { .. } => None,
        LeafKind::Single {
            mode,
            reference,
            mv,
        } => Some(Motion::from_one(mode, reference, mv)),
        LeafKind::Compound {
            mode,
            references,
            mvs,
        } => Some(Motion::from_two(mode, references, mvs)),
    }
}

/// The position of a rectangle's first sample in its plane.
fn first_sample(area: StoredArea) -> PlaneOffset
    requires x { area.x < 2 ^ 63 }
    requires y { area.y < 2 ^ 63 }
    ensures x { result.x ≡ pos area.x }
    ensures y { result.y ≡ pos area.y }
{
    PlaneOffset {
        x: area.x as isize,
        y: area.y as isize,
    }
}

/// Predicts a rectangle of plane `p` (0 for Y, 1 for U and 2 for V) by a motion. The rectangle counts from the first
/// visible sample of the tile, and the vectors from the rectangle's position in the frame of the references.
/// `compound` is a buffer.
#[inline(never)]
pub fn predict_motion<T: Pixel>(
    plane: &mut Plane<T>,
    compound: &mut InterCompoundBuffers,
    from: &TileReferences<'_, T>,
    p: usize,
    motion: Motion,
    area: StoredArea,
)
    requires plane { p < 3 }
    requires depth { from.now.fi.now.bit_depth ≤ T.BITS }
    requires fits { InPlane (visible_in area) plane.old }
    requires placed { IsPlaced (rect_of from.now p) (visible_in area) }
    requires references { (value : Scene) × (ServesScene T.num value from.now × MotionFits value.header p (visible_in area) motion) }
    ensures { (value : Scene) → ServesScene T.num value from.now → MotionFits value.header p (visible_in area) motion
        → plane.new ≡ painted_plane plane.old (visible_in area) (λ r c _. T.pixel (value.motion p motion (visible_in area) r c)) }
{
    let mut region = plane.region_mut(visible_area(area.x, area.y, area.width, area.height));
    predict_inter(
        motion.mode,
        from.fi,
        from.rect(p),
        p,
        first_sample(area),
        &mut region,
        area.width,
        area.height,
        motion.references,
        motion.mvs,
        compound,
    );
}
