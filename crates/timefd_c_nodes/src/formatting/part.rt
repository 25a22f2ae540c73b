//! What a node is.

ghost use Rattle.std.specs.Prelude.{◌≡◌};
ghost use Rattle.timefd_c_nodes.specs.Formatting.Parts as spec;
ghost use Rattle.timefd_c_nodes.specs.Decoding as decoded;
ghost use Rattle.timefd_lang_node_list.specs.Leaves.{unwritten};
ghost use Rattle.timefd_lang_node_list.specs.Nodes.{arity};

use crate::RawNode;
use crate::formatting::component::component_of;
use crate::formatting::modifier::flag_of;
use timefd_lang_component::Component;

/// Which of the five kinds a node is.
#[derive(Clone, Copy)]
enum RawNodeKind {
    Literal,
    Component,
    Compound,
    Optional,
    First,
}

/// What a node is as part of a description.
#[derive(Clone, Copy)]
pub enum WritingPart<'l> {
    /// Bytes, written as they are.
    Literal(&'l [u8]),
    Component(Component),
    /// This many members, one after another.
    Compound(usize),
    /// One member, and whether a formatter writes it.
    Optional(bool),
    /// This many alternatives.
    First(usize),
}

/// What a node is. `None` says that a number of it means nothing, or that its bytes aren't all
/// among the literals.
#[inline(always)]
pub(crate) fn part_of<'l>(node: &RawNode, literals: &'l [u8]) -> Option<WritingPart<'l>>
    ensures { spec.part_role result ≡ spec.role_in literals.now node.now }
{
    match kind_of(node.what)? {
        RawNodeKind::Literal => literal_of(node.start, node.count, literals),
        RawNodeKind::Component => shown_of(node),
        RawNodeKind::Compound => Some(WritingPart::Compound(node.count)),
        RawNodeKind::Optional => optional_of(node),
        RawNodeKind::First => Some(WritingPart::First(node.count)),
    }
}

#[inline(always)]
fn kind_of(number: u8) -> Option<RawNodeKind>
    ensures { result ≡ spec.kind_of number }
{
    match number {
        1 => Some(RawNodeKind::Literal),
        2 => Some(RawNodeKind::Component),
        3 => Some(RawNodeKind::Compound),
        4 => Some(RawNodeKind::Optional),
        5 => Some(RawNodeKind::First),
        _ => None,
    }
}

#[inline(always)]
fn literal_of<'l>(start: usize, count: usize, literals: &'l [u8]) -> Option<WritingPart<'l>>
    ensures { spec.part_role result ≡ spec.literal_role start count literals.now }
{
    if start > literals.len() || count > literals.len() - start {
        return None;
    }
    Some(WritingPart::Literal(&literals[start..start + count]))
}

#[inline(always)]
fn optional_of<'l>(node: &RawNode) -> Option<WritingPart<'l>>
    ensures { spec.part_role result ≡ spec.perhaps_role (decoded.format_of node.now) }
{
    if node.count != 1 {
        return None;
    }
    Some(WritingPart::Optional(flag_of(node.format)?))
}

#[inline(always)]
fn shown_of<'l>(node: &RawNode) -> Option<WritingPart<'l>>
    ensures { spec.part_role result ≡ spec.component_role node.now }
{
    Some(WritingPart::Component(component_of(node)?))
}

/// How many members a part takes.
#[inline(always)]
pub(crate) fn members(part: WritingPart<'_>) -> usize
    ensures { result ≡ arity (spec.role part.entry) }
{
    match part {
        WritingPart::Literal(_) | WritingPart::Component(_) => 0,
        WritingPart::Compound(count) => count,
        WritingPart::Optional(_) => 1,
        WritingPart::First(count) => count,
    }
}

/// How many members of a part no formatter writes. They are the last ones.
#[inline(always)]
pub(crate) fn unwritten_members(part: WritingPart<'_>) -> usize
    ensures { result ≡ unwritten (spec.role part.entry) }
{
    match part {
        WritingPart::Literal(_) | WritingPart::Component(_) | WritingPart::Compound(_) => 0,
        WritingPart::Optional(format) => if format { 0 } else { 1 },
        WritingPart::First(count) => count.saturating_sub(1),
    }
}
