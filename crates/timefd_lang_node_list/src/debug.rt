//! How a list of nodes prints under `{:?}`: a borrowed and an owned text with the same content
//! alike.

ghost use Rattle.std.specs.Prelude.{◌≤◌, [], length, map};
ghost use Rattle.timefd_lang_node_list.specs.Nodes.{Fit, grown_by, part};

use crate::node::Node;
use crate::tally::{split_last, without_ending};
use std::fmt;
use timefd_lang_component::debug::ModifiersOf;

/// Writes the last tree of these nodes.
#[cycle(debug_nodes)]
pub(crate) fn write_last<W: fmt::Write>(
    nodes: &[Node<'_>],
    f: &mut fmt::Formatter<W>,
) -> fmt::Result
    requires fit { Fit [] (map part nodes.now) }
    requires there { 1 ≤ length nodes.now }
{
    let (inner, last) = split_last(nodes);
    match last {
        &Node::Literal(text) => write!(f, "Literal({text:?})"),
        Node::OwnedLiteral(text) => write!(f, "Literal({text:?})"),
        Node::Component(component, _) => {
            let leaf = ModifiersOf(component.modern());
            write!(f, "{leaf:?}")
        }
        Node::Compound(members) => {
            f.write_str("Compound([")?;
            write_ending(inner, members.count, f)?;
            f.write_str("])")
        }
        Node::Optional { format, .. } => {
            write!(f, "Optional {{ should_format: {format:?}, item: ")?;
            write_last(inner, f)?;
            f.write_str(" }")
        }
        Node::First(members) => {
            f.write_str("First([")?;
            write_ending(inner, members.count, f)?;
            f.write_str("])")
        }
    }
}

/// Writes the last `count` trees of these nodes. Trees are found from the end and written from the
/// front, so half of them are skipped at a time. Otherwise the later trees would be walked again
/// for each tree before them.
#[cycle(debug_nodes)]
fn write_ending<W: fmt::Write>(
    nodes: &[Node<'_>],
    count: usize,
    f: &mut fmt::Formatter<W>,
) -> fmt::Result
    requires fit { Fit [] (map part nodes.now) }
    requires there { count ≤ length (grown_by [] (map part nodes.now)) }
{
    if count == 0 {
        return Ok(());
    }
    if count == 1 {
        return write_last(nodes, f);
    }
    let after = count / 2;
    write_ending(without_ending(nodes, after), count - after, f)?;
    f.write_str(", ")?;
    write_ending(nodes, after, f)
}
