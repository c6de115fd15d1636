//! Packs predictions as differences from the planes. Allocates the packed bytes; does no I/O.
ghost use Rattle.std.specs.Prelude.{◌≡◌, ◌+◌, ◌<◌, ◌≤◌, ◌^◌, ◌++◌, All, IfOk, drop, length, take};
ghost use Rattle.av1_lists.specs.Lists.{by_index};
ghost use Rattle.av1_view.specs.Packed.{bits_of, change, group_bytes, joined, less, numbers, packed, residue, sign_last};

use av1_blocks::OutOfMemory;
use std::alloc::Global;

// How many numbers a group has.
const GROUP: usize = 8;

/// Packs the predictions of planes as differences from the planes (`specs/Packed.antt`). The result is short if the
/// planes differ little from the predictions, or by similar amounts from row to row. `row` is the length of a luma row
/// in bytes.
///
/// # Errors
///
/// `OutOfMemory` if memory runs out.
pub fn pack(
    alloc: Global,
    row: usize,
    planes: &[u8],
    predictions: &[u8],
) -> Result<Vec<u8>, OutOfMemory>
    ensures { IfOk result (λ bytes. bytes.items ≡ packed row planes.now predictions.now) }
{
    let count = planes.len().min(predictions.len());
    let mut bytes = Vec::with_capacity(alloc, count)?;
    'groups: for k in 0..(count + (GROUP - 1)) / GROUP {
        push_part(row, planes, predictions, GROUP * k, &mut bytes)?;
    }
    Ok(bytes)
}

// Appends the group of the bytes from `at` on.
fn push_part(
    row: usize,
    planes: &[u8],
    predictions: &[u8],
    at: usize,
    bytes: &mut Vec<u8>,
) -> Result<(), OutOfMemory>
    requires plane { at < length planes.now }
    requires prediction { at < length predictions.now }
    ensures { IfOk result (λ done. bytes.new.items ≡
        bytes.old.items ++ group_bytes (take 8 (drop at (numbers row planes.now predictions.now)))) }
{
    let len = (planes.len().min(predictions.len()) - at).min(GROUP);
    if row <= at && len == GROUP {
        let before = at - row;
        let group = later_group(
            &planes[at..],
            &predictions[at..],
            &planes[before..],
            &predictions[before..],
        );
        return push_group(&group, bytes);
    }
    push_any(row, planes, predictions, at, len, bytes)
}

// Appends the group of `len` bytes from `at` on. Nearly all groups take the faster path above.
#[inline(never)]
fn push_any(
    row: usize,
    planes: &[u8],
    predictions: &[u8],
    at: usize,
    len: usize,
    bytes: &mut Vec<u8>,
) -> Result<(), OutOfMemory>
    requires short { len ≤ 8 }
    requires plane { at + len ≤ length planes.now }
    requires prediction { at + len ≤ length predictions.now }
    ensures { IfOk result (λ done. bytes.new.items ≡
        bytes.old.items ++ group_bytes (by_index len (λ i. sign_last (change row planes.now predictions.now (at + i))))) }
{
    let group = any_group(row, planes, predictions, at, len);
    push_group(&group[..len], bytes)
}

// The numbers of the first 8 of some bytes. All are after the first row, and the bytes one row before are also given.
fn later_group(
    planes: &[u8],
    predictions: &[u8],
    planes_before: &[u8],
    predictions_before: &[u8],
) -> [u8; GROUP]
    requires planes { 8 ≤ length planes.now }
    requires predictions { 8 ≤ length predictions.now }
    requires planes_before { 8 ≤ length planes_before.now }
    requires predictions_before { 8 ≤ length predictions_before.now }
    ensures { result ≡ by_index 8 (λ i. sign_last (less (residue planes.now predictions.now i)
        (residue planes_before.now predictions_before.now i))) }
{
    let mut group = [0; GROUP];
    for i in 0..GROUP {
        let before = residue(planes_before, predictions_before, i);
        group[i] = sign_last(residue(planes, predictions, i).wrapping_sub(before));
    }
    group
}

// The numbers of `len` bytes from `at` on, at the front of a group.
fn any_group(row: usize, planes: &[u8], predictions: &[u8], at: usize, len: usize) -> [u8; GROUP]
    requires short { len ≤ 8 }
    requires plane { at + len ≤ length planes.now }
    requires prediction { at + len ≤ length predictions.now }
    ensures { take len result ≡ by_index len (λ i. sign_last (change row planes.now predictions.now (at + i))) }
{
    let mut group = [0; GROUP];
    for i in 0..len {
        group[i] = sign_last(change(row, planes, predictions, at + i));
    }
    group
}

// How much byte `i` of the planes is greater than its prediction, modulo 256.
fn residue(planes: &[u8], predictions: &[u8], i: usize) -> u8
    requires plane { i < length planes.now }
    requires prediction { i < length predictions.now }
    ensures { result ≡ residue planes.now predictions.now i }
{
    planes[i].wrapping_sub(predictions[i])
}

// How much this difference is greater than the difference one row before, if there is such a row.
fn change(row: usize, planes: &[u8], predictions: &[u8], i: usize) -> u8
    requires plane { i < length planes.now }
    requires prediction { i < length predictions.now }
    ensures { result ≡ change row planes.now predictions.now i }
{
    let here = residue(planes, predictions, i);
    if i < row {
        return here;
    }
    here.wrapping_sub(residue(planes, predictions, i - row))
}

// A change as a number that is small if the change is small.
fn sign_last(difference: u8) -> u8
    ensures { result ≡ sign_last difference }
{
    if difference < 128 {
        2 * difference
    } else {
        255 - 2 * (difference - 128)
    }
}

// Appends a group: the number of bits of each of its numbers, and then the numbers.
#[inline(always)]
fn push_group(group: &[u8], bytes: &mut Vec<u8>) -> Result<(), OutOfMemory>
    requires { length group.now ≤ 8 }
    ensures { IfOk result (λ done. bytes.new.items ≡ bytes.old.items ++ group_bytes group.now) }
{
    let bits = bits_of(group);
    bytes.push(bits)?;
    if bits == 0 {
        return Ok(());
    }
    let word = joined(bits, group).to_le_bytes();
    bytes.extend_from_slice(&word[..usize::from(bits)])?;
    Ok(())
}

// How many bits the greatest of some numbers has.
#[inline(always)]
fn bits_of(group: &[u8]) -> u8
    ensures value { result ≡ bits_of group.now }
    ensures few { result ≤ 8 }
    ensures each { All (λ n. n < 2 ^ result) group.now }
{
    let mut greatest = 0u8;
    for n in group {
        greatest = greatest.max(*n);
    }
    8 - greatest.leading_zeros() as u8
}

// At most 8 numbers of `bits` bits each as one number, the first lowest.
#[inline(always)]
fn joined(bits: u8, group: &[u8]) -> u64
    requires few { bits ≤ 8 }
    requires short { length group.now ≤ 8 }
    requires each { All (λ n. n < 2 ^ bits) group.now }
    ensures { result ≡ joined bits group.now }
{
    let mut word = 0u64;
    for i in 0..group.len() {
        word = (word << bits) + u64::from(group[group.len() - 1 - i]);
    }
    word
}
