//! Where strings end.

ghost use Rattle.std.specs.Prelude.{◌≡◌, ◌≤◌, length, MatchOption, ⊤};
ghost use Rattle.timefd_lint_scan.specs.Bytes.{seen};
ghost use Rattle.timefd_lint_scan.specs.After as spec;

use crate::class::{ByteSet, after_run};

/// What follows a string. The text begins after its opening quote. `None` if no quote closes it.
pub fn after_string(text: &[u8]) -> Option<&[u8]>
    ensures rest { seen result ≡ spec.after_string text.now }
    ensures within { MatchOption result ⊤ (λ rest. length rest.now ≤ length text.now) }
{
    let mut is_escaped = false;
    let mut rest = text;
    'bytes: while let [byte, after @ ..] = rest {
        if is_escaped {
            is_escaped = false;
        } else if *byte == b'\\' {
            is_escaped = true;
        } else if *byte == b'"' {
            return Some(after);
        }
        rest = after;
    }
    None
}

/// The number of `#` that a text begins with.
pub fn hashes(text: &[u8]) -> usize
    ensures count { result ≡ spec.hashes text.now }
    ensures within { result ≤ length text.now }
{
    text.len() - after_run(ByteSet::Hash, text).len()
}

/// What follows a raw string. The text begins after its opening quote. `None` if no quote with this
/// many `#` closes it.
pub fn after_raw(hash_count: usize, text: &[u8]) -> Option<&[u8]>
    ensures rest { seen result ≡ spec.after_raw hash_count text.now }
    ensures within { MatchOption result ⊤ (λ rest. length rest.now ≤ length text.now) }
{
    let mut rest = text;
    'bytes: while let [byte, after @ ..] = rest {
        if *byte == b'"' && hash_count <= hashes(after) {
            return Some(after.split_at(hash_count).1);
        }
        rest = after;
    }
    None
}
