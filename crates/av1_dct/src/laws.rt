//! Theorems about the cosine transform. Each function does nothing: its contract is the theorem.

ghost use Rattle.std.specs.Prelude.{◌≡◌, ℕ, suc, ◌-◌, ◌*◌, ◌^◌, ◌<◌, ◌≤◌, ℤ, pos, ◌+ℤ◌, ◌-ℤ◌, List, replicate};
ghost use Rattle.std.specs.List.{All};
ghost use Rattle.av1_dct.specs.Arithmetic.{at, clamp_value, FitsBits};
ghost use Rattle.av1_dct.specs.Operations.{Operations, AreRight32};
ghost use Rattle.av1_dct.specs.Cosine.{evens, odds, odd_half, cosine, cosine_with};

/// In a transform of n = 2^(k+2) values, output i is a clamped sum, and output n - 1 - i the difference of the same two
/// numbers: output i of the transform of the even inputs, and a value that depends only on the odd inputs.
pub fn cosine_adds_halves()
    ensures sums { (range k i : ℕ) (x : List ℤ) → i < 2 ^ suc k →
        at (cosine range (suc k) x) i ≡
        clamp_value (at (cosine range k (evens (2 ^ suc k) x)) i +ℤ at (odd_half range k (odds (2 ^ suc k) x)) (2 ^ suc k - 1 - i)) range }
    ensures differences { (range k i : ℕ) (x : List ℤ) → i < 2 ^ suc k →
        at (cosine range (suc k) x) (2 * 2 ^ suc k - 1 - i) ≡
        clamp_value (at (cosine range k (evens (2 ^ suc k) x)) i -ℤ at (odd_half range k (odds (2 ^ suc k) x)) (2 ^ suc k - 1 - i)) range }
{}

/// The transform of zeros is zeros, so a row or column without coefficients need not be run.
pub fn cosine_of_zeros()
    ensures { (range k : ℕ) → cosine range k (replicate (2 * 2 ^ k) (pos 0)) ≡ replicate (2 * 2 ^ k) (pos 0) }
{}

/// If every input is a number of 18 signed bits and the range is at most 18, no sum and no product of a transform
/// leaves 32 bits. Operations that may give any number if a result does not fit still give the same outputs. At a range
/// of 20, the range for samples of 12 bits, a butterfly rotation does wrap.
pub fn cosine_never_wraps()
    ensures { (ops : Operations) → AreRight32 ops → (range k : ℕ) (x : List ℤ) → range ≤ 18 → All (FitsBits 18) x →
        cosine_with ops range k x ≡ cosine range k x }
{}
