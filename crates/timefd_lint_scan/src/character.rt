//! Where character literals end.

ghost use Rattle.std.specs.Prelude.{◌≡◌, ◌≤◌, length, MatchOption, ⊤};
ghost use Rattle.timefd_lint_scan.specs.Bytes.{seen};
ghost use Rattle.timefd_lint_scan.specs.After as spec;

use crate::class::{ByteSet, after_run};

fn after_apostrophe(text: &[u8]) -> Option<&[u8]>
    ensures rest { seen result ≡ spec.after_apostrophe text.now }
    ensures within { MatchOption result ⊤ (λ rest. length rest.now ≤ length text.now) }
{
    match text {
        [b'\'', after @ ..] => Some(after),
        _ => None,
    }
}

fn after_quoted_escape(text: &[u8]) -> Option<&[u8]>
    ensures rest { seen result ≡ spec.after_quoted_escape text.now }
    ensures within { MatchOption result ⊤ (λ rest. length rest.now ≤ length text.now) }
{
    match text {
        [] => None,
        [_, after @ ..] => after_apostrophe(after_run(ByteSet::Quoted, after)),
    }
}

/// What follows a character literal. The text begins after its opening apostrophe. `None` if it
/// isn't such a literal but, for example, a lifetime.
pub fn after_character(text: &[u8]) -> Option<&[u8]>
    ensures rest { seen result ≡ spec.after_character text.now }
    ensures within { MatchOption result ⊤ (λ rest. length rest.now ≤ length text.now) }
{
    match text {
        [] => None,
        [b'\\', after @ ..] => after_quoted_escape(after),
        [b'\'', ..] => None,
        [_, after @ ..] => after_apostrophe(after_run(ByteSet::Continuation, after)),
    }
}
