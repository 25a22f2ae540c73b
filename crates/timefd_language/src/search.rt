//! Searches a text for the first of a few bytes, many bytes at a time.

ghost use Rattle.std.specs.Prelude.{◌≡◌, ◌≤◌, ◌+◌, ℕ, Bool, length, min};
ghost use Rattle.std.specs.List.{prefix_len};
ghost use Rattle.timefd_language.specs.Cut.{is_high, is_none_of};

use std::simd::prelude::*;

/// How many bytes come before the first of these three, or all if there is none.
#[inline(never)]
pub fn len_before(bytes: &[u8], first: u8, second: u8, third: u8) -> usize
    ensures { result ≡ prefix_len (is_none_of first second third) bytes.now }
{
    let len = bytes.len();
    if len < 16 {
        return len_of_few(bytes, first, second, third);
    }
    let far = skipped::<64>(bytes, 0, first, second, third);
    let near = skipped::<16>(bytes, far, first, second, third);
    let last = near.min(len - 16);
    last + len_in::<16>(bytes, last, first, second, third)
}

/// Advances by `N` bytes while none of the next `N` is one of the three and more than `N` are left.
/// Returns the index where it stops.
#[inline(always)]
fn skipped<const N: usize>(bytes: &[u8], from: usize, first: u8, second: u8, third: u8) -> usize
    requires lanes { N ≤ 64 }
    requires some { 1 ≤ N }
    requires from { from ≤ prefix_len (is_none_of first second third) bytes.now }
    ensures below { result ≤ prefix_len (is_none_of first second third) bytes.now }
    ensures near { prefix_len (is_none_of first second third) bytes.now ≤ result + N }
{
    let mut at = from;
    'vectors: while bytes.len() - at > N {
        if len_in::<N>(bytes, at, first, second, third) < N {
            return at;
        }
        at += N;
    }
    at
}

/// How many of the `N` bytes from `at` on come before the first of the three.
#[inline(always)]
fn len_in<const N: usize>(bytes: &[u8], at: usize, first: u8, second: u8, third: u8) -> usize
    requires lanes { N ≤ 64 }
    requires within { at + N ≤ length bytes.now }
    requires from { at ≤ prefix_len (is_none_of first second third) bytes.now }
    ensures { at + result ≡ min (at + N) (prefix_len (is_none_of first second third) bytes.now) }
{
    let next = Simd::<u8, N>::from_slice(&bytes[at..]);
    let ends = next.simd_eq(Simd::splat(first))
        | next.simd_eq(Simd::splat(second))
        | next.simd_eq(Simd::splat(third));
    let marks = ends.to_bitmask();
    if marks == 0 {
        N
    } else {
        marks.trailing_zeros() as usize
    }
}

/// Does what [`len_before`] does, for too few bytes to fill a vector.
fn len_of_few(bytes: &[u8], first: u8, second: u8, third: u8) -> usize
    ensures { result ≡ prefix_len (is_none_of first second third) bytes.now }
{
    for (at, byte) in bytes.iter().enumerate() {
        if [first, second, third].contains(byte) {
            return at;
        }
    }
    bytes.len()
}

/// How many of the first sixteen bytes come before one that is `]` or less. 0 if there are fewer
/// than sixteen.
#[inline(always)]
pub fn high_len(bytes: &[u8]) -> usize
    ensures front { result ≤ prefix_len is_high bytes.now }
    ensures within { result ≤ length bytes.now }
{
    if bytes.len() < 16 {
        return 0;
    }
    let low = Simd::<u8, 16>::from_slice(bytes).simd_le(Simd::splat(b']'));
    let marks = low.to_bitmask();
    if marks == 0 {
        16
    } else {
        marks.trailing_zeros() as usize
    }
}
