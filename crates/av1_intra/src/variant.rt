//! Which sides of a block lie in its tile: an enum, and its variant for a position. Pure.

ghost use Rattle.std.specs.Prelude.{◌≡◌};
ghost use Rattle.av1_intra.specs.Predicted.{variant_at};

/// The sides of a block that lie in its tile.
#[derive(Clone, Copy, Debug, PartialEq, Eq)]
pub enum PredictionVariant {
    /// Neither.
    NONE,
    /// Only the left one.
    LEFT,
    /// Only the one above.
    TOP,
    /// Both.
    BOTH,
}

impl PredictionVariant {
    /// The variant of a block at column `x` of row `y` of the tile.
    #[inline]
    pub fn new(x: usize, y: usize) -> PredictionVariant
        ensures { result ≡ variant_at x y }
    {
        match (x, y) {
            (0, 0) => PredictionVariant::NONE,
            (_, 0) => PredictionVariant::LEFT,
            (0, _) => PredictionVariant::TOP,
            _ => PredictionVariant::BOTH,
        }
    }
}
