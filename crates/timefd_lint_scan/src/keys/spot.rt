//! Where a file with keys is looked at.

ghost use Rattle.std.specs.Prelude.{◌≡◌, ◌<◌, ◌≤◌, length};
ghost use Rattle.timefd_lint_scan.specs.Keys.Visits as spec;

use crate::FormatLanguage;

/// A list that is the value of a key, so that its strings are too.
#[derive(Clone, Copy)]
pub struct Elements {
    /// The language of the key; `None` if it has none.
    pub other: Option<FormatLanguage>,
}

/// A position, and what is open there.
#[derive(Clone, Copy)]
pub struct KeySpot {
    /// The position, as a byte index.
    pub at: usize,
    /// How many brackets are open.
    pub depth: usize,
    /// The list whose next element begins here.
    pub list: Option<Elements>,
}

impl KeySpot {
    /// The start of a file.
    pub fn first() -> KeySpot
        ensures { result ≡ spec.first_spot }
    {
        KeySpot {
            at: 0,
            depth: 0,
            list: None,
        }
    }

    /// The spot `next`, moved so that it is after the position `at` and not after the end of the source.
    pub fn after(source: &str, at: usize, next: KeySpot) -> KeySpot
        requires { at < length source.now }
        ensures moved { result ≡ spec.moved source.now at next }
        ensures later { at < result.at }
        ensures within { result.at ≤ length source.now }
    {
        KeySpot {
            at: next.at.max(at + 1).min(source.len()),
            depth: next.depth,
            list: next.list,
        }
    }
}
