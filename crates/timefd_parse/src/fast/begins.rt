//! Whether bytes begin with a word, with four or eight of them compared at once.

ghost use Rattle.std.specs.Prelude.{◌≡◌, ◌≤◌, ◌+◌, IsTrue, length, take};
ghost use Rattle.std.specs.Simd.Lanes.{chunk};

use std::simd::prelude::*;
use timefd_language::same::equal;

/// Whether the bytes begin with the word; `false` for every word of more than 16 bytes. If the word is
/// a constant, its front and its end are compared without a loop or a call.
#[inline(always)]
pub fn begins(word: &[u8], bytes: &[u8]) -> bool
    requires { length word.now ≤ length bytes.now }
    ensures { IsTrue result → word.now ≡ take (length word.now) bytes.now }
{
    let len = word.len();
    if len > 16 {
        return false;
    }
    if len >= 8 {
        return begins_by::<8>(word, bytes);
    }
    if len >= 4 {
        return begins_by::<4>(word, bytes);
    }
    equal(word, &bytes[..len])
}

/// Whether the bytes begin with a word of `N` to 2 * `N` bytes, by its first and its last `N` bytes.
#[inline(always)]
pub fn begins_by<const N: usize>(word: &[u8], bytes: &[u8]) -> bool
    requires lanes { N ≤ 64 }
    requires front { N ≤ length word.now }
    requires end { length word.now ≤ N + N }
    requires within { length word.now ≤ length bytes.now }
    ensures { IsTrue result → word.now ≡ take (length word.now) bytes.now }
{
    same_at::<N>(word, bytes, 0) && same_at::<N>(word, bytes, word.len() - N)
}

/// Whether the `N` bytes from index `at` on are the same in both.
#[inline(always)]
fn same_at<const N: usize>(word: &[u8], bytes: &[u8], at: usize) -> bool
    requires lanes { N ≤ 64 }
    requires word { at + N ≤ length word.now }
    requires bytes { at + N ≤ length bytes.now }
    ensures { IsTrue result → chunk at N word.now ≡ chunk at N bytes.now }
{
    let word = Simd::<u8, N>::from_slice(&word[at..]);
    let bytes = Simd::<u8, N>::from_slice(&bytes[at..]);
    !word.simd_ne(bytes).any()
}
