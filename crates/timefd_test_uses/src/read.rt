//! Reads a date by the items of a description of version 1.

ghost use Rattle.std.specs.Prelude.{◌≡◌, ◌++◌, IfErr, IfOk, IfSome, MatchResult};
ghost use Rattle.std.specs.Str.{IsUtf8};
ghost use Rattle.timefd_parse.specs.Tree.{Text};
ghost use Rattle.timefd_test_uses.specs.Read.{IsNumberAhead};

use crate::date::Date;
use timefd_items::modifier::Padding;
use timefd_items::{BorrowedFormatItem, Component};

/// Why a text isn't read as a date.
#[derive(Debug, Clone, Copy)]
pub enum ReadError {
    /// The items have a part that isn't read here.
    NotRead,
    /// The text doesn't match the items.
    NoMatch,
    /// The items don't give a year, a month and a day, or the text gives no date.
    NoDate,
}

/// The numbers that were read so far.
#[derive(Clone, Copy)]
struct Numbers {
    year: Option<u16>,
    month: Option<u16>,
    day: Option<u16>,
}

/// The date that the text gives by these items. They have to match the text to its end.
pub fn read_date(items: &[BorrowedFormatItem<'_>], text: &str) -> Result<Date, ReadError> {
    let mut numbers = Numbers {
        year: None,
        month: None,
        day: None,
    };
    let mut rest = text;
    'items: for at in 0..items.len() {
        rest = match items[at] {
            BorrowedFormatItem::StringLiteral(literal) => after_literal(rest, literal)?,
            BorrowedFormatItem::Component(component) => after_number(
                &mut numbers,
                rest,
                component,
            )?,
            _ => return Err(ReadError::NotRead),
        };
    }
    if rest.is_empty() {
        date_of(numbers).ok_or(ReadError::NoDate)
    } else {
        Err(ReadError::NoMatch)
    }
}

/// What follows the literal. The text has to begin with it.
fn after_literal<'a>(text: &'a str, literal: &str) -> Result<&'a str, ReadError>
    ensures rest { MatchResult result (λ rest. text.now ≡ literal.now ++ rest.now)
        (λ _. (rest : Text) → ¬ (text.now ≡ literal.now ++ rest)) }
    ensures error { IfErr result (λ error. error ≡ ReadError.NoMatch) }
    ensures utf8 { IfOk result (λ rest. IsUtf8 rest.now) }
{
    match text.strip_prefix(literal) {
        Some(rest) => Ok(rest),
        None => Err(ReadError::NoMatch),
    }
}

/// What follows the number of a component. The number is kept. It is padded with zeros: two digits
/// for a day and a month, and four for a year, with no sign.
fn after_number<'a>(
    numbers: &mut Numbers,
    text: &'a str,
    component: Component,
) -> Result<&'a str, ReadError>
    ensures utf8 { IfOk result (λ rest. IsUtf8 rest.now) }
{
    match component {
        Component::Day(day) if day.padding == Padding::Zero => {
            let (value, rest) = number(text, 2).ok_or(ReadError::NoMatch)?;
            numbers.day = Some(value);
            Ok(rest)
        }
        Component::MonthNumerical(month) if month.padding == Padding::Zero => {
            let (value, rest) = number(text, 2).ok_or(ReadError::NoMatch)?;
            numbers.month = Some(value);
            Ok(rest)
        }
        Component::CalendarYearFullExtendedRange(year)
            if year.padding == Padding::Zero && !year.sign_is_mandatory => {
            let (value, rest) = number(text, 4).ok_or(ReadError::NoMatch)?;
            numbers.year = Some(value);
            Ok(rest)
        }
        _ => Err(ReadError::NotRead),
    }
}

/// The number that the first `width` bytes are in decimal, and what follows them.
fn number(text: &str, width: usize) -> Option<(u16, &str)>
    ensures value { IfSome result (λ x. IsNumberAhead width text.now x.0 x.1.now) }
    ensures utf8 { IfSome result (λ x. IsUtf8 x.1.now) }
{
    let (digits, rest) = text.split_at_checked(width)?;
    if digits.starts_with('+') {
        return None;
    }
    let value = digits.parse::<u16>().ok()?;
    Some((value, rest))
}

/// The date of the numbers that were read.
fn date_of(numbers: Numbers) -> Option<Date> {
    let month = u8::try_from(numbers.month?).ok()?;
    let day = u8::try_from(numbers.day?).ok()?;
    Date::new(numbers.year?, month, day)
}
