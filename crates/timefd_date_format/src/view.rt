//! Writes by a description of version 3: its leaves, the last one first.

ghost use Rattle.std.specs.Prelude.{IfOk, IsUtf8, length};
ghost use Rattle.timefd_date_format.specs.Writes.{IsIn, PutsOn, Writes};
ghost use Rattle.timefd_date_format.specs.Written.{written};
ghost use Rattle.timefd_lang_node_list.specs.LeafMeaning.{leaf_tree};
ghost use Rattle.timefd_lang_node_list.specs.Views.{view_tree};

use crate::component::write_component;
use crate::cursor::{WriteCursor, put_on};
use timefd_date_moment::Moment;
use timefd_lang_node_list::{Leaf, View};

/// Writes what a description shows of the moment at the end of the buffer. Allocates no memory, and needs no
/// stack for nested parts.
pub(crate) fn write_view(moment: Moment, view: View<'_, '_>, buffer: &mut [u8]) -> WriteCursor
    ensures writes { Writes (written moment (view_tree view.entry)) buffer.old
        (WriteCursor.At (length buffer.old)) buffer.new result }
    ensures utf8 { IfOk (written moment (view_tree view.entry)) IsUtf8 }
{
    let mut at = WriteCursor::At(buffer.len());
    let mut leaves = view.leaves();
    'leaves: while let Some((front, leaf)) = leaves.split_last() {
        at = write_leaf(moment, leaf, buffer, at);
        leaves = front;
    }
    at
}

/// Writes what a component or literal shows of the moment in front of what is already written.
#[tactic(auto, using(crate::proofs::Utf8Lemmas::shown_utf8))]
#[inline(always)]
pub(crate) fn write_leaf(
    moment: Moment,
    leaf: Leaf<'_>,
    buffer: &mut [u8],
    cursor: WriteCursor,
) -> WriteCursor
    requires { IsIn (length buffer.old) cursor }
    ensures writes { Writes (written moment (leaf_tree leaf.entry)) buffer.old cursor buffer.new
        result }
    ensures utf8 { IfOk (written moment (leaf_tree leaf.entry)) IsUtf8 }
{
    match leaf {
        Leaf::Component(component) => write_component(moment, component, buffer, cursor),
        Leaf::Literal(text) => put_text(buffer, cursor, text),
    }
}

fn put_text(buffer: &mut [u8], cursor: WriteCursor, text: &str) -> WriteCursor
    requires { IsIn (length buffer.old) cursor }
    ensures puts { PutsOn text.now buffer.old cursor buffer.new result }
    ensures utf8 { IsUtf8 text.now }
{
    put_on(buffer, cursor, text.as_bytes())
}
