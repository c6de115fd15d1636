//! Appends the fields of a leaf to the bytes of a plan, in the caller's buffer. Does not allocate.

ghost use Rattle.std.specs.Prelude.{◌≡◌, ◌<◌, ◌≤◌, ◌+◌, ◌*◌, ◌++◌, ◌^◌, true, length, map, take, is_some, if◌then◌else◌, IfErr, IfOk, OnErr, OnOk};
ghost use Rattle.std.specs.List.{All};
ghost use Rattle.av1_planwrite.specs.Given.{FitsTriple};
ghost use Rattle.av1_planwrite.specs.Text.{chroma_triples_text, triples_text};
ghost use Rattle.av1_c.specs.Builders.{AreAppended, room_fault};
ghost use Rattle.av1_c.specs.Leaves.{leaf_bytes, triple_of, uv_type_of};
ghost use Rattle.av1_c.specs.declared.build_fault.BuildFault.TheVariants as faults;

use crate::appending::end_of;
use crate::build_fault::BuildFault;
use crate::leaf_numbers::{Coefficient, LeafNumbers};
use av1_planwrite::{MOST_LEADING, put, put_leading, put_pair, triple_fields};

/// Writes the coefficients of a plane, first their count, into a slice from offset `at` on. Returns the offset of their
/// end.
fn put_coefficients(slice: &mut [u8], at: usize, coefficients: &[Coefficient]) -> usize
    requires few { length coefficients.now < 2 ^ 16 }
    requires room { at + (2 + 7 * length coefficients.now) ≤ length slice.old }
    ensures end { result ≡ at + (2 + 7 * length coefficients.now) }
    ensures text { take result slice.new ≡ take at slice.old ++ triples_text (map triple_of coefficients.now) }
    ensures fit { All FitsTriple (map triple_of coefficients.now) }
{
    let mut end = put_pair(slice, at, coefficients.len() as u16);
    for coefficient in coefficients {
        end = put(slice, end, &triple_fields(&coefficient.triple()));
    }
    end
}

/// Writes the coefficients of U and V if the leaf carries chroma. Returns the offset of their end.
fn put_chroma_coefficients(
    slice: &mut [u8],
    at: usize,
    carried: bool,
    u: &[Coefficient],
    v: &[Coefficient],
) -> usize
    requires few { (length u.now < 2 ^ 16) × (length v.now < 2 ^ 16) }
    requires room { at + (if carried then 4 + 7 * (length u.now + length v.now) else 0) ≤ length slice.old }
    ensures end { result ≡ at + (if carried then 4 + 7 * (length u.now + length v.now) else 0) }
    ensures text { take result slice.new ≡ take at slice.old ++ chroma_triples_text carried (map triple_of u.now) (map triple_of v.now) }
    ensures u_fit { carried ≡ true → All FitsTriple (map triple_of u.now) }
    ensures v_fit { carried ≡ true → All FitsTriple (map triple_of v.now) }
{
    if !carried {
        return at;
    }
    let at = put_coefficients(slice, at, u);
    put_coefficients(slice, at, v)
}

/// How many bytes the coefficients of a leaf have. U and V only count if the leaf carries chroma.
fn coefficients_len(carried: bool, y: &[Coefficient], u: &[Coefficient], v: &[Coefficient]) -> usize
    requires few { (length y.now < 2 ^ 16) × (length u.now < 2 ^ 16) × (length v.now < 2 ^ 16) }
    ensures { result ≡ 2 + 7 * length y.now + (if carried then 4 + 7 * (length u.now + length v.now) else 0) }
{
    let chroma = if carried {
        4 + 7 * (u.len() + v.len())
    } else {
        0
    };
    2 + 7 * y.len() + chroma
}

/// Appends the fields of a leaf with its coefficients of Y, U and V. Returns how many bytes the plan then has.
///
/// # Errors
///
/// `TooLong`, then `RoomTooSmall`.
pub fn append_leaf(
    room: &mut [u8],
    written: usize,
    leaf: &LeafNumbers,
    y: &[Coefficient],
    u: &[Coefficient],
    v: &[Coefficient],
) -> Result<usize, BuildFault>
    requires written { written ≤ length room.old }
    requires few { (length y.now < 2 ^ 16) × (length u.now < 2 ^ 16) × (length v.now < 2 ^ 16) }
    ensures appended { IfOk result (λ end. AreAppended room.old room.new (leaf_bytes leaf.now y.now u.now v.now) written end) }
    ensures fit { OnOk result (All FitsTriple (map triple_of y.now)) }
    ensures u_fit { OnOk result (is_some (uv_type_of leaf.now) ≡ true → All FitsTriple (map triple_of u.now)) }
    ensures v_fit { OnOk result (is_some (uv_type_of leaf.now) ≡ true → All FitsTriple (map triple_of v.now)) }
    ensures fault { IfErr result (λ fault. fault ≡ room_fault (written + length (leaf_bytes leaf.now y.now u.now v.now))) }
    ensures small { IfErr result (λ fault. fault ≡ faults.RoomTooSmall → length room.old < written + length (leaf_bytes leaf.now y.now u.now v.now)) }
    ensures kept { OnErr result (room.new ≡ room.old) }
{
    let mut leading = [0; MOST_LEADING];
    let uv_type = leaf.uv_type();
    let carried = uv_type.is_some();
    let front = put_leading(
        &mut leading,
        leaf.kind(),
        leaf.tx_size(),
        leaf.tx_type(),
        uv_type,
    );
    let len = front + coefficients_len(carried, y, u, v);
    let end = end_of(room, written, len)?;
    let (_, free) = room.split_at_mut(written);
    let (next, _) = free.split_at_mut(len);
    let at = put(next, 0, &leading[..front]);
    let at = put_coefficients(next, at, y);
    put_chroma_coefficients(next, at, carried, u, v);
    Ok(end)
}
