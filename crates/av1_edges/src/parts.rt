//! Decides from the mode which parts of an edge are prepared, and whether its corner is smoothed. Pure functions.
//!
//! AV1 specification: intra prediction process: general.

ghost use Rattle.std.specs.Prelude.{◌≡◌, ◌+◌, ◌<◌, ◌&&◌, true, false, pos, int_lt, nat_le};
ghost use Rattle.av1_blocks.specs.Transforms.{tx_width, tx_height};
ghost use Rattle.av1_edges.specs.Parts.{effective, step_of, angle, is_paeth, is_slanted, needs_left, parts_for, prepared_parts};

use av1_blocks::{ANGLE_STEP, IntraParam, PredictionMode, TxSize, intra_mode_to_angle};

/// The parts of the edge round a block, each `true` if it is prepared. The side above always is.
#[derive(Clone, Copy)]
pub(crate) struct Parts {
    /// The samples to the left.
    pub(crate) left: bool,
    /// The samples below those to the left.
    pub(crate) below_left: bool,
    /// The samples to the right of those above.
    pub(crate) above_right: bool,
    /// The corner; if it is not prepared, it is half of the samples' range.
    pub(crate) corner: bool,
    /// Whether the corner is smoothed.
    pub(crate) smoothed: bool,
}

/// The mode by which a block at column `x` of row `y` of its tile is predicted. At the left and upper end Paeth
/// prediction has fewer neighbours, and another mode replaces it.
pub fn effective(mode: PredictionMode, x: usize, y: usize) -> PredictionMode
    ensures { result ≡ effective mode x y }
{
    match (mode, x, y) {
        (PredictionMode::PAETH_PRED, 0, 0) => PredictionMode::DC_PRED,
        (PredictionMode::PAETH_PRED, 0, _) => PredictionMode::V_PRED,
        (PredictionMode::PAETH_PRED, _, 0) => PredictionMode::H_PRED,
        _ => mode,
    }
}

/// The angle delta of a directional mode, in steps of 3 degrees: 0 for a parameter of another kind.
pub fn step_of(param: IntraParam) -> i8
    ensures { result ≡ step_of param }
{
    match param {
        IntraParam::AngleDelta(step) => step,
        _ => 0,
    }
}

/// The angle of a directional mode with an angle delta of `step` steps, in degrees.
pub fn angle(mode: PredictionMode, step: i8) -> isize
    ensures { result ≡ angle mode step }
{
    intra_mode_to_angle(mode) + isize::from(ANGLE_STEP) * isize::from(step)
}

/// Whether a mode is Paeth prediction.
fn is_paeth(mode: PredictionMode) -> bool
    ensures { result ≡ is_paeth mode }
{
    match mode {
        PredictionMode::PAETH_PRED => true,
        _ => false,
    }
}

/// Whether the mode needs the samples to the left of a block at column `x`.
fn needs_left(mode: PredictionMode, x: usize) -> bool
    ensures value { result ≡ needs_left mode x }
    ensures inside { 0 < x → result ≡ true }
{
    match mode {
        PredictionMode::DC_PRED | PredictionMode::UV_CFL_PRED => x > 0,
        _ => true,
    }
}

impl Parts {
    /// The parts of a directional mode with this angle in degrees, for a block of `tx_size`. The corner is smoothed if
    /// the edge filter is on, the angle lies between 90 and 180 degrees, and width and height sum to 24 or more.
    fn along(filter: bool, degrees: isize, tx_size: TxSize) -> Parts
        ensures { result ≡ record {
          left = true;
          below_left = int_lt (pos 180) degrees;
          above_right = int_lt degrees (pos 90);
          corner = is_slanted degrees;
          smoothed = filter && int_lt (pos 90) degrees && int_lt degrees (pos 180) && nat_le 24 (tx_width tx_size + tx_height tx_size);
        } }
    {
        Parts {
            left: true,
            below_left: degrees > 180,
            above_right: degrees < 90,
            corner: degrees != 90 && degrees != 180,
            smoothed: filter
                && degrees > 90
                && degrees < 180
                && tx_size.width() + tx_size.height() >= 24,
        }
    }

    /// The parts of a mode without an angle, for a block at column `x`.
    fn level(mode: PredictionMode, x: usize) -> Parts
        ensures value { result ≡ record {
          left = needs_left mode x;
          below_left = false;
          above_right = false;
          corner = is_paeth mode;
          smoothed = false;
        } }
        ensures inside { 0 < x → result.left ≡ true }
    {
        Parts {
            left: needs_left(mode, x),
            below_left: false,
            above_right: false,
            corner: is_paeth(mode),
            smoothed: false,
        }
    }

    /// The parts that the mode `mode` needs if it is in effect.
    fn needed(filter: bool, mode: PredictionMode, step: i8, x: usize, tx_size: TxSize) -> Parts
        ensures value { result ≡ parts_for filter mode step x (tx_width tx_size) (tx_height tx_size) }
        ensures inside { 0 < x → result.left ≡ true }
        ensures smooth { result.smoothed ≡ true → result.left ≡ true }
    {
        if mode.is_directional() {
            Parts::along(filter, angle(mode, step), tx_size)
        } else {
            Parts::level(mode, x)
        }
    }

    /// The parts that are prepared for a block of `tx_size` at column `x` of row `y`: what its mode needs, or all
    /// without smoothing if no mode is named.
    pub(crate) fn prepared(
        filter: bool,
        opt_mode: Option<PredictionMode>,
        intra_param: IntraParam,
        x: usize,
        y: usize,
        tx_size: TxSize,
    ) -> Parts
        ensures value { result ≡ prepared_parts filter opt_mode (step_of intra_param) x y (tx_width tx_size) (tx_height tx_size) }
        ensures inside { 0 < x → result.left ≡ true }
        ensures smooth { result.smoothed ≡ true → result.left ≡ true }
    {
        match opt_mode {
            Some(mode) => Parts::needed(
                filter,
                effective(mode, x, y),
                step_of(intra_param),
                x,
                tx_size,
            ),
            None => Parts {
                left: true,
                below_left: true,
                above_right: true,
                corner: true,
                smoothed: false,
            },
        }
    }
}
