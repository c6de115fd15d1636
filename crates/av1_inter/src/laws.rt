//! Theorems about motion compensation. Each function does nothing: its contract is the theorem.

ghost use Rattle.std.specs.Prelude.{ℕ, ◌^◌, ◌<◌};
ghost use Rattle.av1_blocks.specs.declared.mc.FilterMode.{FilterMode};
ghost use Rattle.av1_blocks.specs.declared.mc.MotionVector.{MotionVector};
ghost use Rattle.av1_frame.specs.Areas.{VisibleArea};
ghost use Rattle.av1_frame.specs.declared.plane.Plane.{Plane};
ghost use Rattle.av1_frame.specs.Planes.{IsWhole, padded};
ghost use Rattle.av1_inter.specs.Laws.{ConstantsStay, PreparedFits};
ghost use Rattle.av1_inter.specs.Prediction.{single_prediction, compound_prediction};
ghost use Rattle.av1_inter.specs.Reference.{IsPadded, ReferencePlane};

use av1_frame::Pixel;

/// A constant reference within the depth is predicted as this constant, for all fractions and filters.
pub fn constant_references_stay()
    ensures { ConstantsStay }
{}

/// Every prepared value fits 16 bits.
pub fn prepared_values_fit()
    ensures { PreparedFits }
{}

/// A whole plane after `Plane::pad` is padded as references have to be: each stored sample outside the visible ones
/// equals the nearest visible sample.
pub fn padded_planes_serve<T: Pixel>()
    ensures { (plane : Plane T) → IsWhole plane → IsPadded T.num (padded plane) }
{}

/// A sample that is predicted from one reference lies within the depth if the reference's visible samples do, for every
/// vector. A sample that is predicted from two always does, since their average is clipped.
pub fn motion_lies_within()
    ensures single { (depth : ℕ) (mode : ℕ → FilterMode) (reference : ReferencePlane) (mv : MotionVector) (a : VisibleArea)
        (r c : ℕ) → 0 < reference.width → 0 < reference.height
        → ((x y : ℕ) → x < reference.width → y < reference.height → reference.sample x y < 2 ^ depth)
        → single_prediction depth mode reference mv a r c < 2 ^ depth }
    ensures compound { (depth : ℕ) (mode : ℕ → FilterMode) (first second : ReferencePlane) (first_mv second_mv : MotionVector) (a : VisibleArea) (r c : ℕ) →
        compound_prediction depth mode first second first_mv second_mv a r c < 2 ^ depth }
{}
