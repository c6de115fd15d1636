//! Parses an argument into a number. Changes nothing.
ghost use Rattle.std.specs.Prelude.{◌≡◌};
ghost use Rattle.av1_recon.specs.Numbers.{number_of};

/// The number that an argument is: 1 to 10 decimal digits, which write at most 4,294,967,295. Leading zeros are
/// allowed.
#[tactic(auto, using(crate::proofs::WordNumbers::empty_is_none, crate::proofs::WordNumbers::long_is_none, crate::proofs::WordNumbers::plus_is_none, crate::proofs::WordNumbers::parsed))]
pub fn number_of(word: &str) -> Option<u32>
    ensures { result ≡ number_of word.now }
{
    let bytes = word.as_bytes();
    if bytes.is_empty() || bytes.len() > 10 || bytes[0] == b'+' {
        return None;
    }
    word.parse().ok()
}
