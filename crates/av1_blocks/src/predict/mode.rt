//! The properties of prediction modes, as pure functions: number, angle, and whether intra, compound or directional.
#![tactic(auto)]

ghost use Rattle.std.specs.Prelude.{◌≡◌, pos, if◌then◌else◌, length, slice_get, Some};
ghost use Rattle.av1_blocks.specs.Modes.{
  mode_number,
  intra_mode_to_angle,
  is_intra,
  is_cfl,
  is_directional,
  is_compound,
  has_nearmv,
  has_newmv,
  ref_mv_idx,
  tried_intra_modes,
  tried_inter_modes,
  tried_compound_modes,
};

use crate::numbers::variant_of;
use crate::predict::PredictionMode::{self, *};
use crate::predict::{
    ANGLE_STEP, PREDICTION_MODES, RAV1E_INTER_COMPOUND_MODES, RAV1E_INTER_MODES_MINIMAL,
    RAV1E_INTRA_MODES,
};

/// The angle of a directional mode in degrees, counter-clockwise from the row above: 90 is from above and 180 from the
/// left. It is 0 for every other mode.
pub fn intra_mode_to_angle(mode: PredictionMode) -> isize
    ensures { result ≡ intra_mode_to_angle mode }
{
    match mode {
        V_PRED => 90,
        H_PRED => 180,
        D45_PRED => 45,
        D135_PRED => 135,
        D113_PRED => 113,
        D157_PRED => 157,
        D203_PRED => 203,
        D67_PRED => 67,
        _ => 0,
    }
}

impl PredictionMode {
    /// The mode of this number, if there is one.
    #[inline]
    pub fn from_number(number: u8) -> Option<PredictionMode>
        ensures { result ≡ slice_get PredictionMode.ALL number }
    {
        variant_of(&PredictionMode::ALL, number)
    }

    /// The mode's number, which `from_number` takes back.
    #[inline]
    pub fn number(self) -> u8
        ensures value { result ≡ mode_number self }
        ensures named { slice_get PredictionMode.ALL (mode_number self) ≡ Some self }
        ensures all { length PredictionMode.ALL ≡ 34 }
    {
        self as u8
    }

    /// Whether the mode has two references.
    #[inline]
    pub fn is_compound(self) -> bool
        ensures { result ≡ is_compound self }
    {
        self >= NEAREST_NEARESTMV
    }

    /// Whether the mode has a vector of a near neighbour, by its place in the list of candidates.
    #[inline]
    pub fn has_nearmv(self) -> bool
        ensures { result ≡ has_nearmv self }
    {
        matches!(
            self,
            NEAR0MV
                | NEAR1MV
                | NEAR2MV
                | NEAR_NEAR0MV
                | NEAR_NEAR1MV
                | NEAR_NEAR2MV
                | NEAR_NEW0MV
                | NEAR_NEW1MV
                | NEAR_NEW2MV
                | NEW_NEAR0MV
                | NEW_NEAR1MV
                | NEW_NEAR2MV
        )
    }

    /// Whether the mode has a vector that is coded anew.
    #[inline]
    pub fn has_newmv(self) -> bool
        ensures { result ≡ has_newmv self }
    {
        matches!(
            self,
            NEWMV
                | NEAREST_NEWMV
                | NEW_NEARESTMV
                | NEAR_NEW0MV
                | NEAR_NEW1MV
                | NEAR_NEW2MV
                | NEW_NEAR0MV
                | NEW_NEAR1MV
                | NEW_NEAR2MV
                | NEW_NEWMV
        )
    }

    /// The place of the near vector in the list of candidates, and 1 for modes without one.
    #[inline]
    pub fn ref_mv_idx(self) -> usize
        ensures { result ≡ ref_mv_idx self }
    {
        match self {
            NEAR1MV | NEAR_NEAR1MV => 2,
            NEAR2MV | NEAR_NEAR2MV => 3,
            _ => 1,
        }
    }

    /// Whether the mode has no reference.
    #[inline]
    pub fn is_intra(self) -> bool
        ensures { result ≡ is_intra self }
    {
        self < NEARESTMV
    }

    /// Whether the mode is chroma from luma.
    #[inline]
    pub fn is_cfl(self) -> bool
        ensures { result ≡ is_cfl self }
    {
        self == UV_CFL_PRED
    }

    /// Whether the mode has an angle.
    #[inline]
    pub fn is_directional(self) -> bool
        ensures { result ≡ is_directional self }
    {
        self >= V_PRED && self <= D67_PRED
    }

    /// The number of angles of the mode: seven, from 3 steps below its own to 3 above, or one.
    #[inline]
    pub fn angle_delta_count(self) -> i8
        ensures { result ≡ (if is_directional self then pos 7 else pos 1) }
    {
        if self.is_directional() { 7 } else { 1 }
    }
}

/// The number of modes, the step of an angle in degrees, and the modes that rav1e tries.
pub fn mode_constants()
    ensures prediction_modes { PREDICTION_MODES ≡ 34 }
    ensures angle_step { ANGLE_STEP ≡ pos 3 }
    ensures rav1e_intra_modes { RAV1E_INTRA_MODES ≡ tried_intra_modes }
    ensures rav1e_inter_modes_minimal { RAV1E_INTER_MODES_MINIMAL ≡ tried_inter_modes }
    ensures rav1e_inter_compound_modes { RAV1E_INTER_COMPOUND_MODES ≡ tried_compound_modes }
{}
