//! Appends the normal form of a description.

ghost use Rattle.std.specs.Prelude.{◌≡◌, ◌++◌, OnOk, string_bytes};
ghost use Rattle.timefd_lang_component.specs.Tree.{first, optional, trees};
ghost use Rattle.timefd_lang_node_list.specs.Views.{member_trees, view_tree};
ghost use Rattle.timefd_lang_convert.specs.Printing.Printed as spec;

use crate::printing::literal::push_literal;
use std::alloc::{AllocError, Global};
use timefd_lang_node_list::{Members, Shape, View};
use timefd_lift::push_component;

/// Appends the text of a description.
#[cycle(push)]
#[inline(never)]
pub fn push(alloc: Global, text: &mut String, view: View<'_, '_>) -> Result<(), AllocError>
    ensures { OnOk result (string_bytes text.new ≡ string_bytes text.old ++ spec.printed
        (view_tree view.entry)) }
{
    match view.shape() {
        Shape::Component(component) => push_component(alloc, text, component),
        Shape::Literal(literal) => push_literal(text, literal),
        Shape::Compound(members) => push_all(alloc, text, members),
        Shape::Optional { format, member } => push_optional(alloc, text, format, member),
        Shape::First(alternatives) => push_first(alloc, text, alternatives),
    }
}

/// Appends the texts of members, one after another.
#[cycle(push)]
#[inline(never)]
fn push_all(alloc: Global, text: &mut String, members: Members<'_, '_>) -> Result<(), AllocError>
    ensures { OnOk result (string_bytes text.new ≡ string_bytes text.old ++ spec.printed_all
        (trees (member_trees members.entry))) }
{
    'members: for member in members.in_turn() {
        push(alloc, text, member)?;
    }
    Ok(())
}

#[cycle(push)]
#[inline(never)]
fn push_optional(
    alloc: Global,
    text: &mut String,
    format: bool,
    member: View<'_, '_>,
) -> Result<(), AllocError>
    ensures { OnOk result (string_bytes text.new ≡ string_bytes text.old ++ spec.printed
        (optional format (view_tree member.entry))) }
{
    text.push_str(optional_front(format))?;
    push_nested(alloc, text, member)?;
    text.push_str("]")
}

/// The text of an optional description up to its nested one.
fn optional_front(format: bool) -> &'static str
    ensures { result.now ≡ spec.optional_front format }
{
    if format {
        "[optional"
    } else {
        "[optional format:false"
    }
}

#[cycle(push)]
#[inline(never)]
fn push_first(
    alloc: Global,
    text: &mut String,
    alternatives: Members<'_, '_>,
) -> Result<(), AllocError>
    ensures { OnOk result (string_bytes text.new ≡ string_bytes text.old ++ spec.printed
        (first (trees (member_trees alternatives.entry)))) }
{
    text.push_str("[first")?;
    push_alternatives(alloc, text, alternatives)?;
    text.push_str("]")
}

/// Appends each alternative after a space. Every function that walks members is a call of its own, so the
/// walk is on the stack once for each level.
#[cycle(push)]
#[inline(never)]
fn push_alternatives(
    alloc: Global,
    text: &mut String,
    alternatives: Members<'_, '_>,
) -> Result<(), AllocError>
    ensures { OnOk result (string_bytes text.new ≡ string_bytes text.old ++ spec.nested_all
        (trees (member_trees alternatives.entry))) }
{
    'alternatives: for alternative in alternatives.in_turn() {
        push_nested(alloc, text, alternative)?;
    }
    Ok(())
}

/// Appends a nested description after a space.
#[cycle(push)]
#[inline(always)]
fn push_nested(alloc: Global, text: &mut String, view: View<'_, '_>) -> Result<(), AllocError>
    ensures { OnOk result (string_bytes text.new ≡ string_bytes text.old ++ spec.nested
        (spec.printed (view_tree view.entry))) }
{
    text.push_str(" [")?;
    push(alloc, text, view)?;
    text.push_str("]")
}
