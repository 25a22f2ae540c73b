//! How far a text was read and written.

ghost use Rattle.std.specs.Prelude.{◌≡◌, ◌<◌};
ghost use Rattle.timefd_c_nodes.specs.Reading.Progress as spec;

use crate::{START, WritePosition, Written};

/// What was read and written so far.
#[derive(Clone, Copy)]
pub struct ReadProgress {
    /// How many items were read.
    pub count: usize,
    /// The bytes that the items reserve together, at most `usize::MAX`.
    pub bytes: usize,
    /// The position after what was written, even if there was no room for it.
    pub end: WritePosition,
}

/// Nothing was read.
pub const NOTHING: ReadProgress = ReadProgress {
    count: 0,
    bytes: 0,
    end: START,
};

/// The progress after one more item, which has a node of its own.
#[inline(always)]
pub fn one_more(before: ReadProgress, item: Written) -> ReadProgress
    requires { before.count < item.end.nodes }
    ensures { result ≡ spec.one_more before item }
{
    ReadProgress {
        count: before.count + 1,
        bytes: before.bytes.saturating_add(item.bytes),
        end: item.end,
    }
}
