//! Why no text of version 3 spells a description: the first reason, from the left.

ghost use Rattle.std.specs.Prelude.{◌≡◌, ◌-◌, false};
ghost use Rattle.timefd_lang_component.specs.Tree.{compound, first, trees};
ghost use Rattle.timefd_lang_node_list.specs.Views.{member_trees, view_tree};
ghost use Rattle.timefd_lang_convert.specs.Printing.Reasons as spec;

use crate::printing::error::Unspelled;
use crate::printing::literal::{is_escape, literal_reason};
use timefd_lang_component::Component;
use timefd_lang_node_list::{Members, Shape, View};

/// Why no text spells the description, if there is a reason. Descriptions may be nested in it at
/// most `left` deep.
#[cycle(reason)]
pub fn reason(view: View<'_, '_>, left: u8) -> Option<Unspelled>
    ensures { result ≡ spec.reason left (view_tree view.entry) }
{
    match view.shape() {
        Shape::Component(component) => component_reason(component),
        Shape::Literal(literal) => literal_reason(false, literal),
        Shape::Compound(members) => compound_reason(members, left),
        Shape::Optional { member, .. } => deeper_reason(member, left),
        Shape::First(alternatives) => first_reason(alternatives, left),
    }
}

#[cycle(reason)]
fn compound_reason(members: Members<'_, '_>, left: u8) -> Option<Unspelled>
    ensures { result ≡ spec.reason left (compound (trees (member_trees members.entry))) }
{
    if members.len() == 1 {
        Some(Unspelled::LoneMember)
    } else {
        members_reason(members, left)
    }
}

/// The first reason against members, from the left.
#[cycle(reason)]
fn members_reason(members: Members<'_, '_>, left: u8) -> Option<Unspelled>
    ensures { result ≡ spec.members_reason left false (trees (member_trees members.entry)) }
{
    let mut after_run = false;
    'members: for member in members.in_turn() {
        if let Some(reason) = member_reason(member, after_run, left) {
            return Some(reason);
        }
        after_run = is_run(member);
    }
    None
}

/// The reason against a member. `after_run` says whether a run of bytes precedes it.
#[cycle(reason)]
fn member_reason(member: View<'_, '_>, after_run: bool, left: u8) -> Option<Unspelled>
    ensures { result ≡ spec.member_reason left after_run (view_tree member.entry) }
{
    match member.shape() {
        Shape::Component(component) => component_reason(component),
        Shape::Literal(literal) => literal_reason(after_run, literal),
        Shape::Compound(_) => Some(Unspelled::InnerCompound),
        Shape::Optional { member, .. } => deeper_reason(member, left),
        Shape::First(alternatives) => first_reason(alternatives, left),
    }
}

/// Whether this is a run: a literal that another run may not follow.
fn is_run(view: View<'_, '_>) -> bool
    ensures { result ≡ spec.is_run (view_tree view.entry) }
{
    match view.shape() {
        Shape::Literal(literal) => !is_escape(literal),
        Shape::Component(_) => false,
        Shape::Compound(_) => false,
        Shape::Optional { .. } => false,
        Shape::First(_) => false,
    }
}

/// The reason against a first with these alternatives.
#[cycle(reason)]
fn first_reason(alternatives: Members<'_, '_>, left: u8) -> Option<Unspelled>
    ensures { result ≡ spec.reason left (first (trees (member_trees alternatives.entry))) }
{
    if alternatives.is_empty() {
        Some(Unspelled::NoAlternative)
    } else {
        alternatives_reason(alternatives, left)
    }
}

/// The first reason against alternatives, from the left.
#[cycle(reason)]
fn alternatives_reason(alternatives: Members<'_, '_>, left: u8) -> Option<Unspelled>
    ensures { result ≡ spec.nested_reason left (trees (member_trees alternatives.entry)) }
{
    'alternatives: for alternative in alternatives.in_turn() {
        if let Some(reason) = deeper_reason(alternative, left) {
            return Some(reason);
        }
    }
    None
}

/// The reason against a nested description.
#[cycle(reason)]
fn deeper_reason(view: View<'_, '_>, left: u8) -> Option<Unspelled>
    ensures { result ≡ spec.deeper left (spec.reason (left - 1) (view_tree view.entry)) }
{
    if left == 0 {
        Some(Unspelled::TooDeep)
    } else {
        reason(view, left - 1)
    }
}

fn component_reason(component: Component) -> Option<Unspelled>
    ensures { result ≡ spec.component_reason component }
{
    if component.modern() == component {
        None
    } else {
        Some(Unspelled::DeprecatedComponent)
    }
}
