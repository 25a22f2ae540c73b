//! Writes by components and literals, one after another: walks over a slice from its end.

ghost use Rattle.std.specs.Prelude.{length, map};
ghost use Rattle.timefd_lang_component.specs.Tree.{trees};
ghost use Rattle.timefd_date_format.specs.Outcomes.{IsOutcome};
ghost use Rattle.timefd_date_format.specs.Writes.{IsIn, Writes};
ghost use Rattle.timefd_date_format.specs.Written.{written_all};
ghost use Rattle.timefd_lang_node_list.specs.LeafMeaning.{leaf_tree};

use crate::cursor::{WriteCursor, put_on};
use crate::view::write_leaf;
use crate::write::FormatError;
use timefd_date_moment::Moment;
use timefd_lang_node_list::Leaf;

/// Writes the moment by components and literals, one after another, at the end of the buffer, and returns the
/// position where the text begins.
pub fn write_leaves(
    moment: Moment,
    leaves: &[Leaf<'_>],
    buffer: &mut [u8],
) -> Result<usize, FormatError>
    ensures { IsOutcome (written_all moment (trees (map leaf_tree leaves.now))) buffer.old
        buffer.new result }
{
    let end = WriteCursor::At(buffer.len());
    match write_all(moment, leaves, buffer, end) {
        WriteCursor::At(at) => Ok(at),
        WriteCursor::NoRoom => Err(FormatError::Room),
        WriteCursor::Unshown(unshown) => Err(FormatError::Unshown(unshown)),
    }
}

/// Writes what components and literals show one after another, the last one first.
fn write_all(
    moment: Moment,
    leaves: &[Leaf<'_>],
    buffer: &mut [u8],
    cursor: WriteCursor,
) -> WriteCursor
    requires { IsIn (length buffer.old) cursor }
    ensures { Writes (written_all moment (trees (map leaf_tree leaves.now))) buffer.old cursor
        buffer.new result }
{
    let mut at = put_on(buffer, cursor, &[]);
    let mut left = leaves.len();
    'leaves: while left > 0 {
        left -= 1;
        at = write_leaf(moment, leaves[left], buffer, at);
    }
    at
}
