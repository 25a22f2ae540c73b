//! The nodes of composite letters of strftime.

ghost use Rattle.std.specs.Prelude.{◌≡◌, ◌+◌, ◌≤◌, ◌^◌, None, IfSome};
ghost use Rattle.timefd_lang_component.specs.Reserved.{reserve};
ghost use Rattle.timefd_c_nodes.specs.Writing.{Puts};
ghost use Rattle.timefd_c_nodes.specs.Reading.Composites as spec;
ghost use Rattle.timefd_c_nodes.specs.Reading.Composites.{composite_tree};

use crate::{RawNode, WritePosition, Written, put};
use timefd_language::strftime::Composite;

/// The text whose nodes and literals are the lists of all composite letters, one after another.
pub const COMPOSITES: &str = "%c%D%F%r%R%T%z";

/// Where the list of a composite letter is among the nodes of `COMPOSITES`.
#[derive(Clone, Copy)]
pub struct CompositeList {
    /// The index of the list's first node.
    pub start: usize,
    /// How many members the list has.
    pub len: usize,
    /// How many bytes the list reserves.
    pub bytes: usize,
}

/// Where the list of this letter is.
#[inline(always)]
fn list_of(composite: Composite) -> CompositeList
    ensures { result ≡ spec.list_of composite }
{
    let (start, len, bytes) = match composite {
        Composite::DateAndTime => (0, 13, 27),
        Composite::ShortDate => (14, 5, 8),
        Composite::IsoDate => (20, 5, 13),
        Composite::TimeOf12 => (26, 7, 11),
        Composite::HourAndMinute => (34, 3, 5),
        Composite::TimeOf24 => (38, 5, 8),
        Composite::Offset => (44, 2, 5),
    };
    CompositeList { start, len, bytes }
}

/// Writes the one node of a composite letter at a position, if there is room for it. `None` says
/// that a `usize` can't count the nodes.
#[inline(always)]
pub fn put_composite(
    composite: Composite,
    at: WritePosition,
    nodes: &mut [RawNode],
) -> Option<Written>
    ensures some { IfSome result (Puts (spec.node_of composite)
        (reserve (composite_tree composite)) at nodes.old nodes.new) }
    ensures none { result ≡ None → 2 ^ 64 ≤ at.nodes + 1 }
{
    let list = list_of(composite);
    let node = RawNode::composite(list.start, list.len, list.bytes);
    put(node, list.bytes, at, nodes)
}
