//! Reads one part of a description at the start of what is left of a text.

ghost use Rattle.std.specs.List.{starts_with};
ghost use Rattle.std.specs.Prelude.{◌≡◌, ◌≤◌, IfSome, eqb, length};
ghost use Rattle.timefd_lang_component.specs.Modern.{modern};
ghost use Rattle.timefd_date_moment.specs.Fields.Inputs.{as_amount, as_count, input};
ghost use Rattle.timefd_date_moment.specs.Fields.Reads as spec;
ghost use Rattle.timefd_date_moment.specs.Fields.Reads.{Gives, at};
ghost use Rattle.timefd_date_moment.specs.Fields.Rules.{IsRule};

use crate::fields::fault::{FieldFault, UnreadReason};
use crate::fields::fields::{Amount, Count, Fields, Signed};
use crate::fields::input::{input, number};
use crate::fields::numbers::signed;
use crate::fields::quick::take_quickly;
use crate::fields::reading::{take, take_amount, take_count};
use crate::fields::rule::{FieldRule, rule_of};
use timefd_lang_component::Component;

fn fault(rest: &[u8], reason: UnreadReason) -> FieldFault
    ensures { result ≡ record { reason = reason; left = length rest.now } }
{
    FieldFault {
        reason,
        left: rest.len(),
    }
}

/// Reads a component, or the modern one that replaces a deprecated one, and returns what is left. It isn't
/// inlined, so that the recursion for nested parts takes little stack.
#[inline(never)]
pub(crate) fn read_component<'t>(
    component: Component,
    rest: &'t [u8],
    fields: &mut Fields,
) -> Result<&'t [u8], FieldFault>
    ensures { Gives (spec.read_component (modern component) (at rest.now fields.old)) fields.new
        result }
{
    read_modern(component.modern(), rest, fields)
}

/// Reads a component like `read_component`, inlined. Most components are short numbers, which are taken at
/// once.
#[inline(always)]
pub(crate) fn read_front<'t>(
    component: Component,
    rest: &'t [u8],
    fields: &mut Fields,
) -> Result<&'t [u8], FieldFault>
    ensures { Gives (spec.read_component (modern component) (at rest.now fields.old)) fields.new
        result }
{
    match take_quickly(component, rest, fields) {
        Some(len) => Ok(&rest[len..]),
        None => read_component(component, rest, fields),
    }
}

/// Reads a modern component. Most are numbers, which are taken as they are found.
#[inline(always)]
#[tactic(auto, using(crate::proofs::FieldsLemmas::TakeLemmas::by_rule))]
fn read_modern<'t>(
    component: Component,
    rest: &'t [u8],
    fields: &mut Fields,
) -> Result<&'t [u8], FieldFault>
    ensures { Gives (spec.read_component component (at rest.now fields.old)) fields.new result }
{
    match rule_of(component) {
        FieldRule::Number {
            field,
            padding,
            width,
            lowest,
            highest,
        } => {
            let found = number(rest, field, padding, width, lowest, highest);
            read_count(component, field, found, rest, fields)
        }
        FieldRule::Signed {
            field,
            is_mandatory,
            form,
        } => {
            let found = signed(rest, is_mandatory, form);
            read_amount(component, field, found, rest, fields)
        }
        rule => read_other(component, rule, rest, fields),
    }
}

/// Takes the number that was found at the start.
#[tactic(auto, using(crate::proofs::FieldsLemmas::TakeLemmas::count_read, crate::proofs::FieldsLemmas::TakeLemmas::count_contradicts))]
fn read_count<'t>(
    component: Component,
    field: Count,
    found: Option<(u16, usize)>,
    rest: &'t [u8],
    fields: &mut Fields,
) -> Result<&'t [u8], FieldFault>
    requires { IfSome found (λ r. r.1 ≤ length rest.now) }
    ensures { Gives (spec.taken component (at rest.now fields.old) (as_count field found)) fields.new
        result }
{
    match found {
        Some((number, len)) => {
            if take_count(fields, field, number) {
                Ok(&rest[len..])
            } else {
                Err(fault(rest, UnreadReason::Contradiction(component)))
            }
        }
        None => Err(fault(rest, UnreadReason::Unread(component))),
    }
}

/// Takes the signed number that was found at the start.
#[tactic(auto, using(crate::proofs::FieldsLemmas::TakeLemmas::amount_read, crate::proofs::FieldsLemmas::TakeLemmas::amount_contradicts))]
fn read_amount<'t>(
    component: Component,
    field: Amount,
    found: Option<(Signed, usize)>,
    rest: &'t [u8],
    fields: &mut Fields,
) -> Result<&'t [u8], FieldFault>
    requires { IfSome found (λ r. r.1 ≤ length rest.now) }
    ensures { Gives (spec.taken component (at rest.now fields.old) (as_amount field found)) fields.new
        result }
{
    match found {
        Some((number, len)) => {
            if take_amount(fields, field, number) {
                Ok(&rest[len..])
            } else {
                Err(fault(rest, UnreadReason::Contradiction(component)))
            }
        }
        None => Err(fault(rest, UnreadReason::Unread(component))),
    }
}

/// Reads by any rule.
#[inline(never)]
#[tactic(auto, using(crate::proofs::FieldsLemmas::TakeLemmas::rule_read, crate::proofs::FieldsLemmas::TakeLemmas::rule_contradicts, crate::proofs::FieldsLemmas::TakeLemmas::rule_unread))]
fn read_other<'t>(
    component: Component,
    rule: FieldRule,
    rest: &'t [u8],
    fields: &mut Fields,
) -> Result<&'t [u8], FieldFault>
    requires { IsRule rule }
    ensures { Gives (spec.taken component (at rest.now fields.old) (input rule rest.now)) fields.new
        result }
{
    match input(rule, rest) {
        Some((reading, len)) => {
            if take(fields, reading) {
                Ok(&rest[len..])
            } else {
                Err(fault(rest, UnreadReason::Contradiction(component)))
            }
        }
        None => Err(fault(rest, UnreadReason::Unread(component))),
    }
}

/// Reads literal text. The fields stay as they are.
#[inline(always)]
pub(crate) fn read_literal<'t>(
    bytes: &[u8],
    rest: &'t [u8],
    fields: &Fields,
) -> Result<&'t [u8], FieldFault>
    ensures { Gives (spec.read_literal bytes.now (at rest.now fields.now)) fields.now result }
{
    if begins(rest, bytes) {
        Ok(&rest[bytes.len()..])
    } else {
        Err(fault(rest, UnreadReason::Literal))
    }
}

/// Whether a text begins with a literal. Most literals have one byte.
#[inline(always)]
pub(crate) fn begins(text: &[u8], literal: &[u8]) -> bool
    ensures { result ≡ starts_with eqb text.now literal.now }
{
    match (literal, text) {
        ([byte], [first, ..]) => first == byte,
        _ => text.starts_with(literal),
    }
}
