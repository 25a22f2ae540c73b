//! How far a buffer is written, counted from its end.

ghost use Rattle.timefd_date_format.specs.Writes.{IsIn, PutsOn};
ghost use Rattle.std.specs.Prelude.{length};

use crate::field::Unshown;
use crate::put::put;

/// How far a buffer is written, counted from its end.
#[derive(Clone, Copy)]
pub enum WriteCursor {
    /// The written text begins here.
    At(usize),
    /// The buffer has no room for the text.
    NoRoom,
    /// The first component of the text that shows nothing of the moment.
    Unshown(Unshown),
}

/// Puts a text directly in front of what is written.
pub(crate) fn put_on(buffer: &mut [u8], cursor: WriteCursor, text: &[u8]) -> WriteCursor
    requires { IsIn (length buffer.old) cursor }
    ensures { PutsOn text.now buffer.old cursor buffer.new result }
{
    match cursor {
        WriteCursor::At(end) => match put(buffer, end, text) {
            Some(at) => WriteCursor::At(at),
            None => WriteCursor::NoRoom,
        },
        WriteCursor::NoRoom | WriteCursor::Unshown(_) => cursor,
    }
}
