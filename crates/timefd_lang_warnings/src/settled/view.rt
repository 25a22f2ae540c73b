//! Descriptions of version 3, from the last part to the first.

ghost use Rattle.std.specs.Prelude.{◌≡◌};
ghost use Rattle.timefd_lang_component.specs.Tree.{first, optional, trees};
ghost use Rattle.timefd_lang_node_list.specs.Views.{member_trees, view_tree};
ghost use Rattle.timefd_lang_warnings.specs.Settling.Reached.{reached, reached_all};
ghost use Rattle.timefd_lang_warnings.specs.Settling.Settled as spec;

use crate::settled::bound::Bound;
use crate::settled::components::before_component;
use timefd_lang_node_list::{Members, Shape, View};

/// Whether the description reads back everything that it writes: the text of each part ends where that
/// of the next one begins. That isn't so for a number without padding before a digit, for parts that no
/// formatter writes, and for ignored bytes. It takes no memory.
pub fn is_settled(view: View<'_, '_>) -> bool
    ensures { result ≡ spec.is_settled (view_tree view.entry) }
{
    before(view, Bound::End).is_some()
}

/// What is known about the text of the description and the text that follows it, given what is known
/// about the latter. `None` if the description isn't settled there.
#[cycle(view)]
fn before(view: View<'_, '_>, known: Bound) -> Option<Bound>
    ensures { result ≡ reached (view_tree view.entry) known }
{
    match view.shape() {
        Shape::Component(component) => before_component(component, known),
        Shape::Literal(text) => Some(Bound::before_literal(text.as_bytes(), known)),
        Shape::Compound(members) => before_all(members, known),
        Shape::Optional { format, member } => before_optional(format, member, known),
        Shape::First(alternatives) => before_first(alternatives, known),
    }
}

/// What is known about the text of members in turn and the text that follows them, given what is known
/// about the latter. `None` if one of them isn't settled. The last member is looked at first.
#[cycle(view)]
fn before_all(members: Members<'_, '_>, known: Bound) -> Option<Bound>
    ensures { result ≡ reached_all (trees (member_trees members.entry)) known }
{
    let mut left = members;
    let mut reached = known;
    'members: while let Some((front, last)) = left.split_last() {
        reached = before(last, reached)?;
        left = front;
    }
    Some(reached)
}

/// What is known about the text of an optional member and the text that follows it, given what is known
/// about the latter. `None` if formatting leaves the member out: a reader might find it all the same.
#[cycle(view)]
fn before_optional(format: bool, member: View<'_, '_>, known: Bound) -> Option<Bound>
    ensures { result ≡ reached (optional format (view_tree member.entry)) known }
{
    if format { before(member, known) } else { None }
}

/// What is known about the text of alternatives and the text that follows it, given what is known about
/// the latter. The first alternative is written and read, so it decides.
#[cycle(view)]
fn before_first(alternatives: Members<'_, '_>, known: Bound) -> Option<Bound>
    ensures { result ≡ reached (first (trees (member_trees alternatives.entry))) known }
{
    match alternatives.in_turn().next() {
        Some(alternative) => before(alternative, known),
        None => Some(known),
    }
}
