//! Fences, which open and close blocks of code in Markdown.

ghost use Rattle.std.specs.Prelude.{◌≡◌, ◌≤◌, length};
ghost use Rattle.timefd_lint_scan.specs.After.{after_run as after_spec};
ghost use Rattle.timefd_lint_scan.specs.Bytes.{is_white};
ghost use Rattle.timefd_lint_scan.specs.DocTests as spec;

use crate::class::{ByteSet, after_run};
use crate::line::from;

/// At least this many signs are a fence.
const FEWEST_SIGNS: usize = 3;

/// A fence: so many backticks or tildes.
#[derive(Clone, Copy)]
pub struct Fence {
    pub sign: u8,
    pub count: usize,
}

/// How many of these bytes a text begins with.
fn count_of(text: &[u8], sign: u8) -> usize
    ensures count { result ≡ spec.count_of sign text.now }
    ensures within { result ≤ length text.now }
{
    let mut count: usize = 0;
    let mut rest = text;
    'bytes: while let [byte, after @ ..] = rest {
        if *byte != sign {
            return count;
        }
        count += 1;
        rest = after;
    }
    count
}

// Whether a text has none of these bytes.
fn has_none(text: &[u8], sign: u8) -> bool
    ensures { result ≡ spec.has_none sign text.now }
{
    let mut rest = text;
    'bytes: while let [byte, after @ ..] = rest {
        if *byte == sign {
            return false;
        }
        rest = after;
    }
    true
}

/// The fence of these signs that a text begins with, if it opens a block: after backticks there are no others in the line.
pub fn opening_by(sign: u8, text: &[u8]) -> Option<Fence>
    ensures { result ≡ spec.opening_by sign text.now }
{
    let count = count_of(text, sign);
    if count < FEWEST_SIGNS {
        return None;
    }
    if sign == b'~' || has_none(from(text, count), sign) {
        return Some(Fence { sign, count });
    }
    None
}

/// Whether a line closes the block that a fence has opened: it has only that fence, or a longer one.
pub fn closes(fence: Fence, line: &[u8]) -> bool
    ensures { result ≡ spec.is_closing_by fence (after_spec is_white line.now) }
{
    let text = after_run(ByteSet::White, line);
    let count = count_of(text, fence.sign);
    fence.count <= count && after_run(ByteSet::White, from(text, count)).is_empty()
}
