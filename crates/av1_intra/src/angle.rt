//! The directions of prediction, as pure functions: the angle of a mode with its parameter, and the slope of an angle.

ghost use Rattle.std.specs.Prelude.{◌≡◌};
ghost use Rattle.av1_intra.specs.Angles.{derivative};
ghost use Rattle.av1_intra.specs.Predicted.{alpha_of, angle_or_alpha};

use av1_blocks::{IntraParam, PredictionMode};
use av1_edges::{angle, step_of};

/// How far a line of the angle `p_angle`, in degrees, moves along an edge for each sample away from it, in 64ths of a
/// sample. It is 0 for an angle that no directional mode has.
///
/// AV1 specification: directional intra prediction process (Dr_Intra_Derivative).
#[tactic(auto, unfolding(crate::specs::Angles::derivative))]
pub fn dr_intra_derivative(p_angle: usize) -> usize
    ensures { result ≡ derivative p_angle }
{
    match p_angle {
        3 => 1023,
        6 => 547,
        9 => 372,
        14 => 273,
        17 => 215,
        20 => 178,
        23 => 151,
        26 => 132,
        29 => 116,
        32 => 102,
        36 => 90,
        39 => 80,
        42 => 71,
        45 => 64,
        48 => 57,
        51 => 51,
        54 => 45,
        58 => 40,
        61 => 35,
        64 => 31,
        67 => 27,
        70 => 23,
        73 => 19,
        76 => 15,
        81 => 11,
        84 => 7,
        87 => 3,
        _ => 0,
    }
}

/// The weight of luma in eighths: 0 for a parameter of another kind.
#[inline]
pub fn alpha_of(intra_param: IntraParam) -> i16
    ensures { result ≡ alpha_of intra_param }
{
    match intra_param {
        IntraParam::Alpha(alpha) => alpha,
        _ => 0,
    }
}

/// The angle of a mode and its parameter in degrees; for chroma from luma, the weight in eighths.
#[inline]
pub fn angle_or_alpha(mode: PredictionMode, intra_param: IntraParam) -> isize
    ensures { result ≡ angle_or_alpha mode intra_param }
{
    match mode {
        PredictionMode::UV_CFL_PRED => isize::from(alpha_of(intra_param)),
        _ => angle(mode, step_of(intra_param)),
    }
}
