//! Takes numbers of two and four digits, and names of months, for components whose numbers are read at once. A function for
//! each field is small enough to be inlined.

ghost use Rattle.std.specs.Prelude.{◌≡◌, ◌≤◌, IfSome, Some, false, length};
ghost use Rattle.timefd_date_moment.specs.Fields.Inputs.{as_amount, as_count, name};
ghost use Rattle.timefd_date_moment.specs.Fields.Numbers.{digits, signed, within};
ghost use Rattle.timefd_date_moment.specs.Fields.Rules as rules;
ghost use Rattle.timefd_date_moment.specs.Fields.Short.{TakesNumber};

use crate::fields::digits::{four_digits, two_digits};
use crate::fields::fields::{Amount, Count};
use crate::fields::names::leading_name;
use crate::fields::rule::{NameList, NumberForm};
use crate::fields::short::Numbers;
use timefd_modifier::Padding;

/// The number of two digits, if it is in the range.
#[inline(always)]
fn number_within(lowest: u16, highest: u16, text: &[u8]) -> Option<u16>
    ensures value { IfSome result (λ number. within lowest highest (digits 2 2 text.now) ≡ Some (number, 2)) }
    ensures within { IfSome result (λ number. 2 ≤ length text.now) }
{
    let number = two_digits(text)?;
    if number < lowest || highest < number {
        return None;
    }
    Some(number)
}

/// Takes a month of two digits that is in the range.
#[inline(always)]
pub(crate) fn take_month(
    lowest: u16,
    highest: u16,
    text: &[u8],
    numbers: Numbers,
) -> Option<(usize, Numbers)>
    ensures { TakesNumber (as_count Count.Month (within lowest highest (digits 2 2 text.now))) text.now numbers
        result }
{
    let number = number_within(lowest, highest, text)?;
    let after = numbers.with_month(number)?;
    Some((2, after))
}

/// Takes a day of two digits that is in the range.
#[inline(always)]
pub(crate) fn take_day(
    lowest: u16,
    highest: u16,
    text: &[u8],
    numbers: Numbers,
) -> Option<(usize, Numbers)>
    ensures { TakesNumber (as_count Count.Day (within lowest highest (digits 2 2 text.now))) text.now numbers
        result }
{
    let number = number_within(lowest, highest, text)?;
    let after = numbers.with_day(number)?;
    Some((2, after))
}

/// Takes an hour of two digits that is in the range.
#[inline(always)]
pub(crate) fn take_hour(
    lowest: u16,
    highest: u16,
    text: &[u8],
    numbers: Numbers,
) -> Option<(usize, Numbers)>
    ensures { TakesNumber (as_count Count.Hour (within lowest highest (digits 2 2 text.now))) text.now numbers
        result }
{
    let number = number_within(lowest, highest, text)?;
    let after = numbers.with_hour(number)?;
    Some((2, after))
}

/// Takes a minute of two digits that is in the range.
#[inline(always)]
pub(crate) fn take_minute(
    lowest: u16,
    highest: u16,
    text: &[u8],
    numbers: Numbers,
) -> Option<(usize, Numbers)>
    ensures { TakesNumber (as_count Count.Minute (within lowest highest (digits 2 2 text.now))) text.now numbers
        result }
{
    let number = number_within(lowest, highest, text)?;
    let after = numbers.with_minute(number)?;
    Some((2, after))
}

/// Takes a second of two digits that is in the range.
#[inline(always)]
pub(crate) fn take_second(
    lowest: u16,
    highest: u16,
    text: &[u8],
    numbers: Numbers,
) -> Option<(usize, Numbers)>
    ensures { TakesNumber (as_count Count.Second (within lowest highest (digits 2 2 text.now))) text.now numbers
        result }
{
    let number = number_within(lowest, highest, text)?;
    let after = numbers.with_second(number)?;
    Some((2, after))
}

/// Takes the name of a month.
#[inline(always)]
pub(crate) fn take_month_name(
    names: NameList,
    is_case_sensitive: bool,
    text: &[u8],
    numbers: Numbers,
) -> Option<(usize, Numbers)>
    ensures { TakesNumber (name Count.Month names is_case_sensitive 1 text.now) text.now numbers result }
{
    let found = leading_name(text, names, is_case_sensitive)?;
    let after = numbers.with_month(1 + found.0 as u16)?;
    Some((found.1, after))
}

/// Takes the four digits of a year.
#[inline(always)]
pub(crate) fn take_year(form: NumberForm, text: &[u8], numbers: Numbers) -> Option<(usize, Numbers)>
    ensures { TakesNumber (as_amount Amount.Year (signed false form text.now)) text.now numbers result }
{
    if let NumberForm {
        padding: Padding::Zero,
        width: 4,
        most: 4,
        ..
    } = form
    {
        take_four(form, text, numbers)
    } else {
        None
    }
}

#[inline(always)]
fn take_four(form: NumberForm, text: &[u8], numbers: Numbers) -> Option<(usize, Numbers)>
    requires { rules.IsFour form }
    ensures { TakesNumber (as_amount Amount.Year (signed false form text.now)) text.now numbers result }
{
    let year = four_digits(text)?;
    if (year as u128) > form.greatest {
        return None;
    }
    let after = numbers.with_year(year)?;
    Some((4, after))
}
