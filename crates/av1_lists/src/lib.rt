//! Lists defined by the item at each position (`by_index`), and their lemmas. Only for proofs: no code runs.
//!
//! The crate needs only the standard library. It gives the crates above `by_index` (`specs/Lists.antt`): the list of
//! f 0, f 1 and so on. It has lemmas on them (`proofs/Lists.antt`) and on runs of numbers (`proofs/Ranges.antt`), and a
//! test of all numbers below a bound (`proofs/Below.antt`). It also defines counts that stay at the last value of a
//! `u64` (`specs/Counts.antt`), and the widths and heights that transforms may have (`specs/Sides.antt`).
#![tactic(auto)]

ghost use Rattle.std.specs.Prelude.{◌≡◌, ℕ, ◌<◌, length, slice_index};
ghost use Rattle.av1_lists.specs.Lists.{by_index};

/// The laws of a list by index: it has `n` items, and item `k` is what its function gives for `k`.
pub fn by_index_laws()
    ensures len { (n : ℕ) (f : ℕ → ℕ) → length (by_index n f) ≡ n }
    ensures item { (n k : ℕ) (f : ℕ → ℕ) → k < n → slice_index (by_index n f) k ≡ f k }
{}
