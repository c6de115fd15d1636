//! Parses the arguments: a number of rounds, or the number of a plan to write. Does no I/O.
ghost use Rattle.std.specs.Prelude.{◌≡◌, ℕ, None, IfSome, map, string_bytes};
ghost use Rattle.std.specs.NonZero.{non_zero_u32_get};
ghost use Rattle.av1_bench.specs.Count.{IsCount, made_of};

use av1_recon::number_of;
use std::num::NonZeroU32;

/// The number of rounds, if the only argument is a number other than 0.
pub fn count_of(words: &[String]) -> Option<NonZeroU32>
    ensures number { IfSome result (λ count. IsCount (map string_bytes words.now) (non_zero_u32_get count)) }
    ensures none { result ≡ None → (count : ℕ) → ¬ IsCount (map string_bytes words.now) count }
{
    match words {
        [word] => NonZeroU32::new(number_of(word.as_str())?),
        _ => None,
    }
}

/// The number of the plan to write, if the arguments are `make` and a number.
pub fn made_of(words: &[String]) -> Option<u32>
    ensures { result ≡ made_of (map string_bytes words.now) }
{
    match words {
        [name, word] => {
            if name.as_str() != "make" {
                return None;
            }
            number_of(word.as_str())
        }
        _ => None,
    }
}
