//! Reads by a description of version 3, part by part.

ghost use Rattle.std.specs.Prelude.{◌≡◌, None};
ghost use Rattle.timefd_lang_component.specs.Tree.{trees};
ghost use Rattle.timefd_lang_node_list.specs.Views.{member_trees, view_tree};
ghost use Rattle.timefd_date_moment.specs.Fields.Reads as spec;
ghost use Rattle.timefd_date_moment.specs.Fields.Reads.{Gives, at};

use crate::fields::fault::FieldFault;
use crate::fields::fields::Fields;
use crate::fields::part::{read_component, read_literal};
use timefd_lang_node_list::{Members, Shape, View};

/// Reads a description at the start of `rest`, and returns what follows it. After an `Err`, fields of the
/// members in front of the fault may have been read.
#[cycle(view)]
#[inline(always)]
pub(crate) fn read<'t>(
    view: View<'_, '_>,
    rest: &'t [u8],
    fields: &mut Fields,
) -> Result<&'t [u8], FieldFault>
    ensures { Gives (spec.read (view_tree view.entry) (at rest.now fields.old)) fields.new result }
{
    match view.shape() {
        Shape::Component(component) => read_component(component, rest, fields),
        Shape::Literal(text) => read_literal(text.as_bytes(), rest, fields),
        Shape::Compound(members) => read_all(members, rest, fields),
        Shape::Optional { member, .. } => read_optional(member, rest, fields),
        Shape::First(alternatives) => read_first(alternatives, rest, fields),
    }
}

/// Reads a member that may be missing. If it can't be read, the fields are as they were.
#[cycle(view)]
#[inline(never)]
fn read_optional<'t>(
    member: View<'_, '_>,
    rest: &'t [u8],
    fields: &mut Fields,
) -> Result<&'t [u8], FieldFault>
    ensures { Gives (spec.perhaps (at rest.now fields.old) (spec.read (view_tree member.entry)
        (at rest.now fields.old))) fields.new result }
{
    let without = *fields;
    match read(member, rest, fields) {
        Ok(left) => Ok(left),
        Err(_) => {
            *fields = without;
            Ok(rest)
        }
    }
}

/// Reads members, one after another.
#[cycle(view)]
#[inline(never)]
fn read_all<'t>(
    members: Members<'_, '_>,
    rest: &'t [u8],
    fields: &mut Fields,
) -> Result<&'t [u8], FieldFault>
    ensures { Gives (spec.read_all (trees (member_trees members.entry)) (at rest.now fields.old))
        fields.new result }
{
    let mut left = rest;
    'members: for member in members.in_turn() {
        match read(member, left, fields) {
            Ok(after) => left = after,
            Err(fault) => return Err(fault),
        }
    }
    Ok(left)
}

/// Reads the first alternative that can be read. If none can, the fault is the one of the first alternative.
#[cycle(view)]
#[inline(never)]
fn read_first<'t>(
    alternatives: Members<'_, '_>,
    rest: &'t [u8],
    fields: &mut Fields,
) -> Result<&'t [u8], FieldFault>
    ensures { Gives (spec.read_first None (trees (member_trees alternatives.entry))
        (at rest.now fields.old)) fields.new result }
{
    let before = *fields;
    let mut first_fault = None;
    'alternatives: for alternative in alternatives.in_turn() {
        match read(alternative, rest, fields) {
            Ok(left) => return Ok(left),
            Err(fault) => {
                first_fault = earlier(first_fault, fault);
                *fields = before;
            }
        }
    }
    none_reads(rest, fields, first_fault)
}

/// The fault of the first alternative.
pub(crate) fn earlier(before: Option<FieldFault>, fault: FieldFault) -> Option<FieldFault>
    ensures { result ≡ spec.earlier before fault }
{
    match before {
        Some(first) => Some(first),
        None => Some(fault),
    }
}

/// The result if no alternative can be read: an empty list of alternatives reads nothing.
pub(crate) fn none_reads<'t>(
    rest: &'t [u8],
    fields: &Fields,
    fault: Option<FieldFault>,
) -> Result<&'t [u8], FieldFault>
    ensures { Gives (spec.none_reads (at rest.now fields.now) fault) fields.now result }
{
    match fault {
        Some(fault) => Err(fault),
        None => Ok(rest),
    }
}
