//! Theorems about grids of tiles. Each function does nothing: its contract is the theorem.

ghost use Rattle.av1_tiles.specs.Joined.{PlansAreAll, TilesAreIsolated};
ghost use Rattle.av1_tiles.specs.Outcomes.{OutcomesAreOne};
ghost use Rattle.av1_tiles.specs.Texts.{FoundAtText, RefusedAtLongest};

/// A law: no tile reads another tile. Take a tile of two grids that has the same plan and the same corner in both, and
/// is predicted from the same samples. Then both frames agree at each of its samples. Up to version 2 of plans, the
/// tile's plan says what it is predicted from.
pub fn tiles_are_isolated()
    ensures isolated { TilesAreIsolated }
    ensures early { PlansAreAll }
{}

/// A law: bytes have at most one outcome. So every sample of a frame lies in a tile, every tile has one plan, and a
/// rejected grid is rejected for one reason.
pub fn outcomes_are_one()
    ensures { OutcomesAreOne }
{}

/// A law: bytes are a grid exactly if they are its text. Other bytes are rejected where the longest valid list of
/// fields at their front ends. In a valid list each field is valid after the fields before it.
pub fn grids_are_texts()
    ensures found { FoundAtText }
    ensures refused { RefusedAtLongest }
{}
