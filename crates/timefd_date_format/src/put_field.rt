//! The text of a field, put in front of what is already written at the end of a buffer.

ghost use Rattle.std.specs.Prelude.{◌≤◌, ◌++◌, length};
ghost use Rattle.timefd_lang_component.specs.Texts.{filled, subsecond};
ghost use Rattle.timefd_date_format.specs.Fields as spec;
ghost use Rattle.timefd_date_format.specs.Fields.{IsField};
ghost use Rattle.timefd_date_format.specs.Puts.{Puts};

use crate::field::{Number, Sign, WrittenField};
use crate::fraction::digits_shown;
use crate::names;
use crate::put::{put, put_number};
use timefd_modifier::{Padding, SubsecondDigits};

/// Puts the text of a field directly in front of `end`, and returns the position where it begins. `None` if
/// there is no room.
pub(crate) fn put_field(buffer: &mut [u8], end: usize, field: WrittenField) -> Option<usize>
    requires end { end ≤ length buffer.old }
    requires field { IsField field }
    ensures { Puts (spec.field_text field) buffer.old end buffer.new result }
{
    match field {
        WrittenField::MonthShort(month) => put(buffer, end, names::month_short(month).as_bytes()),
        WrittenField::MonthLong(month) => put(buffer, end, names::month_long(month).as_bytes()),
        WrittenField::WeekdayShort(day) => put(buffer, end, names::weekday_short(day).as_bytes()),
        WrittenField::WeekdayLong(day) => put(buffer, end, names::weekday_long(day).as_bytes()),
        WrittenField::Period {
            is_uppercase,
            is_afternoon,
        } => put(
            buffer,
            end,
            names::period(is_uppercase, is_afternoon).as_bytes(),
        ),
        WrittenField::Number(number) => put_signed(buffer, end, number),
        WrittenField::Fraction { digits, nanosecond } => put_fraction(
            buffer, end, digits, nanosecond,
        ),
        WrittenField::Nothing => put(buffer, end, &[]),
    }
}

fn put_signed(buffer: &mut [u8], end: usize, number: Number) -> Option<usize>
    requires { end ≤ length buffer.old }
    ensures { Puts (spec.field_text (WrittenField.Number number)) buffer.old end buffer.new result }
{
    let at = put_number(buffer, end, number.padding, number.width, number.value)?;
    put_sign(buffer, at, number.sign)
}

/// Puts a sign in front of a number, if there is one. Most numbers have none.
fn put_sign(buffer: &mut [u8], end: usize, sign: Sign) -> Option<usize>
    requires { end ≤ length buffer.old }
    ensures { Puts (spec.sign_text sign) buffer.old end buffer.new result }
{
    match sign {
        Sign::None => Some(end),
        Sign::Minus => put(buffer, end, b"-"),
        Sign::Plus => put(buffer, end, b"+"),
    }
}

#[tactic(auto, using(crate::proofs::FractionLemmas::nine_put))]
fn put_fraction(
    buffer: &mut [u8],
    end: usize,
    digits: SubsecondDigits,
    nanosecond: u32,
) -> Option<usize>
    requires end { end ≤ length buffer.old }
    requires fits { nanosecond ≤ 999999999 }
    ensures { Puts (subsecond digits nanosecond) buffer.old end buffer.new result }
{
    let mut nine = [0; 9];
    let _ = put_number(&mut nine, 9, Padding::Zero, 9, nanosecond as u128);
    put(buffer, end, &nine[..digits_shown(digits, &nine)])
}
