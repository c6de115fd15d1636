//! Theorems about pages. Each function does nothing: its contract is the theorem.
ghost use Rattle.std.specs.Prelude.{◌≡◌, ℕ, ◌<◌, List, length};
ghost use Rattle.av1_streams.specs.Streams.{AreBytes};
ghost use Rattle.av1_view.specs.Packed.{packed, unpacked};

/// A law: from the planes and the packed predictions, the page's script computes the same predictions.
pub fn packed_is_read_again()
    ensures { (row : ℕ) (planes predictions : List ℕ) → 0 < row → AreBytes predictions → length predictions ≡ length planes →
        unpacked row planes (packed row planes predictions) ≡ predictions }
{}
