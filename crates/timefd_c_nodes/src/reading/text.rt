//! Bytes as text.

ghost use Rattle.std.specs.Prelude.{◌≡◌, ◌≤◌, ◌<◌, ◌+◌, ℕ, IsTrue, MatchResult, length, slice_index};
ghost use Rattle.std.specs.Str.{IsAscii, IsUtf8};

use simdutf8::is_utf8_baseline;
use std::simd::prelude::*;
use std::str::Utf8Error;

/// The bytes as text, or an error if they aren't UTF-8. The result is that of `str::from_utf8`, but
/// ASCII, which most formats are, and long texts take less time.
#[inline(always)]
pub fn text_of(bytes: &[u8]) -> Result<&str, Utf8Error>
    ensures cases { MatchResult result (λ text. (text.now ≡ bytes.now) × IsUtf8 bytes.now)
        (λ _. ¬ (IsUtf8 bytes.now)) }
{
    if is_text_at_once(bytes) {
        // SAFETY: the bytes are UTF-8.
        return Ok(unsafe { str::from_utf8_unchecked(bytes) });
    }
    str::from_utf8(bytes)
}

// From so many bytes on UTF-8 is checked in blocks, each of so many bytes.
const BLOCK: usize = 64;

// Whether bytes are UTF-8, if many bytes at once say so.
#[inline(always)]
fn is_text_at_once(bytes: &[u8]) -> bool
    ensures { IsTrue result → IsUtf8 bytes.now }
{
    is_ascii(bytes) || is_long_text(bytes)
}

// Whether bytes are UTF-8, if they fill a block.
#[inline(never)]
fn is_long_text(bytes: &[u8]) -> bool
    ensures { IsTrue result → IsUtf8 bytes.now }
{
    BLOCK <= bytes.len() && is_utf8_baseline(bytes)
}

#[inline(always)]
fn is_ascii(bytes: &[u8]) -> bool
    ensures { IsTrue result → IsAscii bytes.now }
{
    let len = bytes.len();
    if len < 8 {
        return few_are_ascii(bytes);
    }
    if len < 16 {
        return are_ascii::<8>(bytes, 0) && are_ascii::<8>(bytes, len - 8);
    }
    let far = front_of_ascii::<64>(bytes, 0);
    let near = front_of_ascii::<16>(bytes, far);
    len - near <= 16 && are_ascii::<16>(bytes, len - 16)
}

// The end of a front of ASCII bytes. If all bytes are ASCII, it is near the end.
#[inline(always)]
fn front_of_ascii<const N: usize>(bytes: &[u8], from: usize) -> usize
    requires lanes { N ≤ 64 }
    requires some { 1 ≤ N }
    requires within { from ≤ length bytes.now }
    requires front { (i : ℕ) → i < from → slice_index bytes.now i < 128 }
    ensures within { result ≤ length bytes.now }
    ensures front { (i : ℕ) → i < result → slice_index bytes.now i < 128 }
{
    let mut at = from;
    'vectors: while bytes.len() - at > N {
        if !are_ascii::<N>(bytes, at) {
            return at;
        }
        at += N;
    }
    at
}

// Whether the `N` bytes from an index on are ASCII.
#[inline(always)]
fn are_ascii<const N: usize>(bytes: &[u8], at: usize) -> bool
    requires lanes { N ≤ 64 }
    requires within { at + N ≤ length bytes.now }
    ensures { IsTrue result → (i : ℕ) → i < N → slice_index bytes.now (at + i) < 128 }
{
    let next = Simd::<u8, N>::from_slice(&bytes[at..]);
    !next.simd_ge(Simd::splat(128)).any()
}

// Whether all bytes are ASCII, if they are too few for a vector.
fn few_are_ascii(bytes: &[u8]) -> bool
    ensures { IsTrue result → IsAscii bytes.now }
{
    for byte in bytes {
        if *byte >= 128 {
            return false;
        }
    }
    true
}
