//! Theorems about the plan grammar. Each function does nothing: its contract is the theorem.

ghost use Rattle.std.specs.Prelude.{◌≡◌, ℕ, List};
ghost use Rattle.av1_plan.specs.Grammar.{plan};
ghost use Rattle.av1_plan.specs.Lengths.{HeadersAreTwenty, ReferencesAreSlots};
ghost use Rattle.av1_plan.specs.Pieces.{PiecesArePlan, PiecesAreRefused, PlanIsPieces};
ghost use Rattle.av1_plan.specs.Plan.{PlanValue};
ghost use Rattle.av1_plan.specs.Spelling.{AreText};
ghost use Rattle.av1_plan.specs.Versions.{SecondKeepsFirst, FirstHasRest, ThirdKeepsSecond, SecondHasRest, EarlierShowAll, ValidStaysValid};

/// Bytes are the text of at most one plan.
pub fn texts_are_of_one_plan()
    ensures { (bytes : List ℕ) (p q : PlanValue) → AreText plan bytes p → AreText plan bytes q → p ≡ q }
{}

/// A plan of the first version is also one of the second. If bytes with the letters `RPL1` spell a plan, then with the
/// letters `RPL2` they spell the same plan, except for its version.
pub fn the_second_version_keeps_the_first()
    ensures { SecondKeepsFirst }
{}

/// A plan of the second version is, with the letters `RPL1`, also one of the first. The condition is that no side of a
/// leaf is more than twice the other.
pub fn the_first_version_has_the_rest()
    ensures { FirstHasRest }
{}

/// A plan of the second version is also one of the third. If bytes with the letters `RPL2` spell a plan, then with the
/// letters `RPL3` they spell the same plan, except for its version.
pub fn the_third_version_keeps_the_second()
    ensures { ThirdKeepsSecond }
{}

/// A plan of the third version is also one of the second, with the letters `RPL2`, if its shown width and height are
/// multiples of 8.
pub fn the_second_version_has_the_rest()
    ensures { SecondHasRest }
{}

/// A plan of the first or the second version shows all that it codes: each plane has as many shown columns and rows as
/// coded ones.
pub fn earlier_versions_show_what_is_coded()
    ensures { EarlierShowAll }
{}

/// A leaf that is valid in the second version is valid in the third.
pub fn valid_stays_valid()
    ensures { ValidStaysValid }
{}

/// A plan may be kept in pieces: its header, its references and its leaves, which [`crate::parse_plan_behind`] reads.
/// The leaves' bytes spell a plan after this header and these references exactly if all of the bytes, one after the
/// other, spell it. If the leaves' bytes are rejected, all of the bytes are rejected, at the same field.
pub fn pieces_are_a_plan()
    ensures whole { PiecesArePlan }
    ensures apart { PlanIsPieces }
    ensures refused { PiecesAreRefused }
{}

/// A header has 20 bytes, and the references have the samples of the slots that carry planes.
pub fn fronts_have_these_lengths()
    ensures header { HeadersAreTwenty }
    ensures references { ReferencesAreSlots }
{}
