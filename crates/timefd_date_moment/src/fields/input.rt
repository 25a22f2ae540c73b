//! What a component reads at the start of a text.

ghost use Rattle.std.specs.Prelude.{◌≡◌, ◌≤◌, IfSome, length};
ghost use Rattle.timefd_date_moment.specs.Fields.Inputs as spec;
ghost use Rattle.timefd_date_moment.specs.Fields.Rules.{IsForm, IsRule};

use crate::fields::digits::digits;
use crate::fields::fields::{Amount, Count, Fraction};
use crate::fields::names::leading_name;
use crate::fields::numbers::{padded, signed, within};
use crate::fields::reading::{Reading, unit};
use crate::fields::rule::{FieldRule, NameList, NumberForm};
use timefd_modifier::{Padding, SubsecondDigits, TrailingInput};

/// What is read by the rule at the start of the text, and how many bytes it takes.
pub(crate) fn input(rule: FieldRule, text: &[u8]) -> Option<(Reading, usize)>
    requires { IsRule rule }
    ensures value { result ≡ spec.input rule text.now }
    ensures within { IfSome result (λ r. r.1 ≤ length text.now) }
{
    match rule {
        FieldRule::Number {
            field,
            padding,
            width,
            lowest,
            highest,
        } => count(field, number(text, field, padding, width, lowest, highest)),
        FieldRule::Weekday {
            is_sunday_first,
            is_one_indexed,
        } => weekday(text, is_sunday_first, is_one_indexed),
        FieldRule::Name {
            field,
            names,
            is_case_sensitive,
            first,
        } => name(text, field, names, is_case_sensitive, first),
        FieldRule::Period {
            names,
            is_case_sensitive,
        } => period(text, names, is_case_sensitive),
        FieldRule::Signed {
            field,
            is_mandatory,
            form,
        } => amount(text, field, is_mandatory, form),
        FieldRule::Fraction(digits) => fraction(text, digits),
        FieldRule::Ignore(count) => ignored(text, count as usize),
        FieldRule::End(trailing_input) => end(text, trailing_input),
        FieldRule::Deprecated => None,
    }
}

/// A number in a range, and how many bytes it takes.
pub(crate) fn number(
    text: &[u8],
    field: Count,
    padding: Padding,
    width: usize,
    lowest: u16,
    highest: u16,
) -> Option<(u16, usize)>
    requires some { 1 ≤ width }
    requires few { width ≤ 23 }
    ensures value { spec.as_count field result
        ≡ spec.number field padding width lowest highest text.now }
    ensures within { IfSome result (λ r. r.1 ≤ length text.now) }
{
    let found = padded(text, padding, width, width);
    match within(found, lowest as u128, highest as u128) {
        Some((number, len)) => Some((number as u16, len)),
        None => None,
    }
}

fn count(field: Count, found: Option<(u16, usize)>) -> Option<(Reading, usize)>
    ensures { result ≡ spec.as_count field found }
{
    match found {
        Some((number, len)) => Some((Reading::Count(field, number), len)),
        None => None,
    }
}

fn weekday(text: &[u8], is_sunday_first: bool, is_one_indexed: bool) -> Option<(Reading, usize)>
    ensures value { result ≡ spec.weekday is_sunday_first is_one_indexed text.now }
    ensures within { IfSome result (λ r. r.1 ≤ length text.now) }
{
    let first = if is_one_indexed { 1 } else { 0 };
    match within(digits(text, 1, 1), first, first + 6) {
        Some((number, len)) => {
            let day = after_monday(is_sunday_first, (number - first) as u16);
            Some((Reading::Count(Count::Weekday, day), len))
        }
        None => None,
    }
}

/// The days after Monday, from the days after the first day of the week.
fn after_monday(is_sunday_first: bool, days: u16) -> u16
    requires { days ≤ 6 }
    ensures { result ≡ spec.after_monday is_sunday_first days }
{
    if is_sunday_first {
        (days + 6) % 7
    } else {
        days
    }
}

fn name(
    text: &[u8],
    field: Count,
    names: NameList,
    is_case_sensitive: bool,
    first: u16,
) -> Option<(Reading, usize)>
    requires { first ≤ 1 }
    ensures value { result ≡ spec.name field names is_case_sensitive first text.now }
    ensures within { IfSome result (λ r. r.1 ≤ length text.now) }
{
    match leading_name(text, names, is_case_sensitive) {
        Some((position, len)) => Some((Reading::Count(field, first + position as u16), len)),
        None => None,
    }
}

fn period(text: &[u8], names: NameList, is_case_sensitive: bool) -> Option<(Reading, usize)>
    ensures value { result ≡ spec.period names is_case_sensitive text.now }
    ensures within { IfSome result (λ r. r.1 ≤ length text.now) }
{
    match leading_name(text, names, is_case_sensitive) {
        Some((position, len)) => Some((Reading::Period(position == 1), len)),
        None => None,
    }
}

fn amount(
    text: &[u8],
    field: Amount,
    is_mandatory: bool,
    form: NumberForm,
) -> Option<(Reading, usize)>
    requires { IsForm form }
    ensures value { result ≡ spec.amount field is_mandatory form text.now }
    ensures within { IfSome result (λ r. r.1 ≤ length text.now) }
{
    match signed(text, is_mandatory, form) {
        Some((number, len)) => Some((Reading::Amount(field, number), len)),
        None => None,
    }
}

fn fraction(text: &[u8], shown: SubsecondDigits) -> Option<(Reading, usize)>
    ensures value { result ≡ spec.fraction shown text.now }
    ensures within { IfSome result (λ r. r.1 ≤ length text.now) }
{
    let most = most_digits(shown);
    match digits(text, least_digits(shown), most as usize) {
        Some((number, len)) => Some((
            Reading::Fraction(Fraction {
                digits: most,
                nanosecond: number * unit(len as u16),
            }),
            len,
        )),
        None => None,
    }
}

fn most_digits(shown: SubsecondDigits) -> u16
    ensures value { result ≡ spec.digits_shown shown }
    ensures few { result ≤ 9 }
{
    match shown {
        SubsecondDigits::One => 1,
        SubsecondDigits::Two => 2,
        SubsecondDigits::Three => 3,
        SubsecondDigits::Four => 4,
        SubsecondDigits::Five => 5,
        SubsecondDigits::Six => 6,
        SubsecondDigits::Seven => 7,
        SubsecondDigits::Eight => 8,
        SubsecondDigits::Nine | SubsecondDigits::OneOrMore => 9,
    }
}

fn least_digits(shown: SubsecondDigits) -> usize
    ensures { result ≡ spec.least_digits shown }
{
    match shown {
        SubsecondDigits::One | SubsecondDigits::OneOrMore => 1,
        SubsecondDigits::Two => 2,
        SubsecondDigits::Three => 3,
        SubsecondDigits::Four => 4,
        SubsecondDigits::Five => 5,
        SubsecondDigits::Six => 6,
        SubsecondDigits::Seven => 7,
        SubsecondDigits::Eight => 8,
        SubsecondDigits::Nine => 9,
    }
}

/// Reads `count` bytes of any kind.
fn ignored(text: &[u8], count: usize) -> Option<(Reading, usize)>
    ensures value { result ≡ spec.ignored count text.now }
    ensures within { IfSome result (λ r. r.1 ≤ length text.now) }
{
    if count <= text.len() {
        Some((Reading::Nothing, count))
    } else {
        None
    }
}

fn end(text: &[u8], trailing_input: TrailingInput) -> Option<(Reading, usize)>
    ensures value { result ≡ spec.end trailing_input text.now }
    ensures within { IfSome result (λ r. r.1 ≤ length text.now) }
{
    match trailing_input {
        TrailingInput::Prohibit => {
            if text.len() == 0 {
                Some((Reading::Nothing, 0))
            } else {
                None
            }
        }
        TrailingInput::Discard => Some((Reading::Nothing, text.len())),
    }
}
