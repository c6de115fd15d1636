//! Writes bytes and numbers to the caller's slice, one after the other. Does not allocate.

ghost use Rattle.std.specs.Prelude.{◌≡◌, ◌+◌, ◌++◌, ◌≤◌, length, take, drop};
ghost use Rattle.av1_planwrite.specs.Text.{byte, pair};

/// Writes bytes into a slice from offset `at` on, and returns the offset of their end. The rest of the slice is
/// unchanged.
pub fn put(slice: &mut [u8], at: usize, bytes: &[u8]) -> usize
    requires { at + length bytes.now ≤ length slice.old }
    ensures end { result ≡ at + length bytes.now }
    ensures text { take result slice.new ≡ take at slice.old ++ bytes.now }
    ensures rest { drop result slice.new ≡ drop result slice.old }
{
    let (_, free) = slice.split_at_mut(at);
    let (next, _) = free.split_at_mut(bytes.len());
    next.copy_from_slice(bytes);
    at + bytes.len()
}

/// Writes a field of one byte.
pub fn put_byte(slice: &mut [u8], at: usize, value: u8) -> usize
    requires { at + 1 ≤ length slice.old }
    ensures end { result ≡ at + 1 }
    ensures text { take result slice.new ≡ take at slice.old ++ byte value }
    ensures rest { drop result slice.new ≡ drop result slice.old }
{
    put(slice, at, &[value])
}

/// Writes a field of two bytes, the low byte first.
pub fn put_pair(slice: &mut [u8], at: usize, value: u16) -> usize
    requires { at + 2 ≤ length slice.old }
    ensures end { result ≡ at + 2 }
    ensures text { take result slice.new ≡ take at slice.old ++ pair value }
    ensures rest { drop result slice.new ≡ drop result slice.old }
{
    put(slice, at, &value.to_le_bytes())
}
