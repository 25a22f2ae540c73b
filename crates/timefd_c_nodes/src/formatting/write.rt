//! The text of nodes at the end of a buffer: one walk from the last node to the first.

ghost use Rattle.std.specs.Prelude.{◌≡◌, ◌≤◌, IfSome, None, length};
ghost use Rattle.timefd_c_nodes.specs.Formatting.Nodes as spec;
ghost use Rattle.timefd_c_nodes.specs.Formatting.Nodes.{node_trees};
ghost use Rattle.timefd_c_nodes.specs.Formatting.Parts.{role};
ghost use Rattle.timefd_c_nodes.specs.Formatting.Cursors.{TriesToWrite};
ghost use Rattle.timefd_c_nodes.specs.Formatting.Walk.{leaves_here};
ghost use Rattle.timefd_lang_component.specs.Tree.{trees};
ghost use Rattle.timefd_date_format.specs.Written.{written_all};

use crate::RawNode;
use crate::formatting::part::{WritingPart, part_of};
use crate::formatting::put::{put_component, put_literal};
use crate::formatting::walk::{needed, skipped};
use timefd_date_moment::Moment;

/// Writes what nodes show of the moment to the end of the buffer, and returns the index where it
/// begins. `None` says that the nodes aren't a description, that a component shows nothing, or that
/// there is no room.
pub(crate) fn write_nodes(
    moment: Moment,
    nodes: &[RawNode],
    literals: &[u8],
    buffer: &mut [u8],
) -> Option<usize>
    ensures sound { IfSome result (λ _. spec.node_fault literals.now nodes.now ≡ None) }
    ensures writes { spec.node_fault literals.now nodes.now ≡ None → TriesToWrite
        (written_all moment (trees (node_trees literals.now nodes.now))) buffer.old
        (length buffer.old) buffer.new result }
{
    let mut at = buffer.len();
    let mut left = nodes.len();
    // `need` of the last trees in front are members of later nodes, and `skip` of them aren't
    // written.
    let mut need = 0;
    let mut skip = 0;
    'nodes: while left > 0 {
        left -= 1;
        let part = part_of(&nodes[left], literals)?;
        at = put_part(moment, part, skip, buffer, at)?;
        need = needed(part, need, left)?;
        skip = skipped(part, skip, need);
    }
    Some(at)
}

/// Puts what a part shows by itself in front of the written text, unless the part is skipped.
#[inline(always)]
fn put_part(
    moment: Moment,
    part: WritingPart<'_>,
    skip: usize,
    buffer: &mut [u8],
    end: usize,
) -> Option<usize>
    requires { end ≤ length buffer.old }
    ensures { TriesToWrite (written_all moment (trees (leaves_here skip (role part.entry))))
        buffer.old end buffer.new result }
{
    if skip > 0 {
        return Some(end);
    }
    match part {
        WritingPart::Component(component) => put_component(moment, component, buffer, end),
        WritingPart::Literal(bytes) => put_literal(bytes, buffer, end),
        WritingPart::Compound(_) | WritingPart::Optional(_) | WritingPart::First(_) => Some(end),
    }
}
