//! What a component shows, or why it shows nothing.

ghost use Rattle.std.specs.Prelude.{◌≡◌, ◌≤◌, IfOk};

use timefd_date_moment::{Date, Moment, Time, UnixTime, UtcOffset};
use timefd_lang_component::Component;
use timefd_modifier::{Padding, SubsecondDigits};

/// What is written for a component.
#[derive(Clone, Copy)]
pub enum WrittenField {
    /// The short name of a month, counted from 1.
    MonthShort(u8),
    /// The name of a month, counted from 1.
    MonthLong(u8),
    /// The short name of a weekday, counted in days after Monday.
    WeekdayShort(u8),
    /// The name of a weekday, counted in days after Monday.
    WeekdayLong(u8),
    /// AM or PM.
    Period {
        is_uppercase: bool,
        is_afternoon: bool,
    },
    Number(Number),
    /// The digits of a number of nanoseconds.
    Fraction {
        digits: SubsecondDigits,
        nanosecond: u32,
    },
    Nothing,
}

/// A number with its sign, padded on the left to `width` digits.
#[derive(Clone, Copy)]
pub struct Number {
    pub sign: Sign,
    pub padding: Padding,
    pub width: usize,
    pub value: u128,
}

#[derive(Clone, Copy)]
pub enum Sign {
    None,
    Minus,
    Plus,
}

/// Why a component shows nothing of a value.
#[derive(Debug, Clone, Copy)]
pub enum Lack {
    /// The value has no date.
    NoDate,
    /// The value has no time of day.
    NoTime,
    /// The value has no offset from UTC.
    NoOffset,
    /// The year has more digits than the component can show.
    YearTooLong,
    /// In UTC the instant is outside of the years -999,999 to 999,999.
    InstantOutOfRange,
}

/// A component, in its modern form, that shows nothing of a value, and why.
#[derive(Debug, Clone, Copy)]
pub struct Unshown {
    pub component: Component,
    pub lack: Lack,
}
