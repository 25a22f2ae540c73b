//! Takes the most frequent numbers at once: those of two digits, and years of four. All others go by their
//! rule.

ghost use Rattle.std.specs.Prelude.{false};
ghost use Rattle.timefd_lang_component.specs.Modern.{modern};
ghost use Rattle.timefd_date_moment.specs.Fields.Inputs.{as_amount, as_count, input};
ghost use Rattle.timefd_date_moment.specs.Fields.Numbers.{digits, signed, within};
ghost use Rattle.timefd_date_moment.specs.Fields.Reads.{TakesFront};
ghost use Rattle.timefd_date_moment.specs.Fields.Rules as spec;
ghost use Rattle.timefd_date_moment.specs.Fields.Rules.{IsFour};

use crate::fields::digits::{four_digits, two_digits};
use crate::fields::fields::{Amount, Count, Fields, Signed};
use crate::fields::reading::{take_amount, take_count};
use crate::fields::rule::{FieldRule, NumberForm, rule_of};
use timefd_lang_component::Component;
use timefd_modifier::Padding;

/// How many bytes a component takes at the start, if they are a number of two digits or of four that agrees
/// with the fields. `None` says nothing about the text; the fields stay as they are.
#[inline(always)]
#[tactic(auto, using(crate::proofs::FieldsLemmas::QuickLemmas::by_number, crate::proofs::FieldsLemmas::QuickLemmas::by_sign))]
pub(crate) fn take_quickly(component: Component, text: &[u8], fields: &mut Fields) -> Option<usize>
    ensures { TakesFront (input (spec.rule_of (modern component)) text.now) text.now fields.old
        fields.new result }
{
    match rule_of(component) {
        FieldRule::Number {
            field,
            padding: Padding::Zero,
            width: 2,
            lowest,
            highest,
        } => take_two(field, lowest, highest, text, fields),
        FieldRule::Signed {
            field,
            is_mandatory: false,
            form,
        } => take_year(field, form, text, fields),
        _ => None,
    }
}

/// Takes a number of two digits that is in the range.
#[inline(always)]
#[tactic(auto, using(crate::proofs::FieldsLemmas::QuickLemmas::two_taken))]
fn take_two(
    field: Count,
    lowest: u16,
    highest: u16,
    text: &[u8],
    fields: &mut Fields,
) -> Option<usize>
    ensures { TakesFront (as_count field (within lowest highest (digits 2 2 text.now))) text.now
        fields.old fields.new result }
{
    let number = two_digits(text)?;
    if lowest <= number && number <= highest && take_count(fields, field, number) {
        Some(2)
    } else {
        None
    }
}

/// Takes the four digits of a year without a sign.
#[inline(always)]
fn take_year(field: Amount, form: NumberForm, text: &[u8], fields: &mut Fields) -> Option<usize>
    ensures { TakesFront (as_amount field (signed false form text.now)) text.now fields.old fields.new
        result }
{
    if let NumberForm {
        padding: Padding::Zero,
        width: 4,
        most: 4,
        ..
    } = form
    {
        take_four(field, form, text, fields)
    } else {
        None
    }
}

#[inline(always)]
#[tactic(auto, using(crate::proofs::FieldsLemmas::QuickLemmas::four_taken))]
fn take_four(field: Amount, form: NumberForm, text: &[u8], fields: &mut Fields) -> Option<usize>
    requires { IsFour form }
    ensures { TakesFront (as_amount field (signed false form text.now)) text.now fields.old fields.new
        result }
{
    let magnitude = four_digits(text)? as u128;
    let number = Signed {
        is_negative: false,
        magnitude,
    };
    if magnitude <= form.greatest && take_amount(fields, field, number) {
        Some(4)
    } else {
        None
    }
}
