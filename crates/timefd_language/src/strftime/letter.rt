//! The letters of strftime, and what each stands for.

ghost use Rattle.std.specs.Prelude.{◌≡◌, ◌<◌, IfSome};
ghost use Rattle.timefd_lang_component.specs.Tree.{component};
ghost use Rattle.timefd_language.specs.Letters as spec;
ghost use Rattle.timefd_language.specs.Directives.LetterMeaning.{IsLetter, field_tree};

use timefd_lang_component::Component;
use timefd_modifier::{
    CalendarYearCenturyExtendedRange, CalendarYearFullExtendedRange, CalendarYearLastTwo, Day,
    Hour12, Hour24, IsoYearFullExtendedRange, IsoYearLastTwo, Minute, MonthLong, MonthNumerical,
    MonthShort, Ordinal, Padding, Period, Second, UnixTimestampSecond, WeekNumberIso,
    WeekNumberMonday, WeekNumberSunday, WeekdayLong, WeekdayMonday, WeekdayShort, WeekdaySunday,
};

/// What a letter stands for.
#[derive(Clone, Copy)]
pub enum Letter {
    /// The literal `%`.
    Percent,
    /// The literal of a line feed.
    LineFeed,
    /// The literal of a tab.
    Tab,
    /// A component that no flag changes.
    Fixed(Component),
    /// A component with the flag's padding, or with this one if there is no flag.
    Padded(Field, Padding),
    /// A list of items.
    Composite(Composite),
}

/// A component that a flag pads.
#[derive(Clone, Copy)]
pub enum Field {
    /// The century of a year of any number of digits.
    Century,
    /// The day of the month.
    Day,
    /// The hour by a clock of 12 hours.
    Hour12,
    /// The hour by a clock of 24 hours.
    Hour24,
    /// The last two digits of an ISO week's year.
    IsoYearLastTwo,
    /// The minute of the hour.
    Minute,
    /// The month's number.
    Month,
    /// The day of the year.
    Ordinal,
    /// The second of the minute.
    Second,
    /// The week of an ISO week's year.
    WeekNumberIso,
    /// The week of the year, from the first Monday on.
    WeekNumberMonday,
    /// The week of the year, from the first Sunday on.
    WeekNumberSunday,
    /// The last two digits of the year.
    YearLastTwo,
}

/// A list of items that one letter stands for.
#[derive(Clone, Copy)]
pub enum Composite {
    /// The date and the time of a day, as `%c`.
    DateAndTime,
    /// Month, day and year between slashes, as `%D`.
    ShortDate,
    /// Year, month and day between hyphens, as `%F`.
    IsoDate,
    /// The time by a clock of 12 hours, as `%r`.
    TimeOf12,
    /// Hour and minute by a clock of 24 hours, as `%R`.
    HourAndMinute,
    /// The time by a clock of 24 hours, as `%T`.
    TimeOf24,
    /// The offset from UTC in hours and minutes, as `%z`.
    Offset,
}

/// What a byte stands for as a letter. `None` if it isn't a letter that strftime reads.
#[tactic(auto, unfolding(crate::specs::Letters::item_of))]
#[inline(always)]
pub fn letter_of(byte: u8) -> Option<Letter>
    ensures letter { IsLetter byte result }
    ensures ascii { IfSome result (λ _. byte < 128) }
{
    Some(match byte {
        b'%' => Letter::Percent,
        b'n' => Letter::LineFeed,
        b't' => Letter::Tab,
        b'a' => Letter::Fixed(Component::WeekdayShort(WeekdayShort::default())),
        b'A' => Letter::Fixed(Component::WeekdayLong(WeekdayLong::default())),
        b'b' | b'h' => Letter::Fixed(Component::MonthShort(MonthShort::default())),
        b'B' => Letter::Fixed(Component::MonthLong(MonthLong::default())),
        b'C' => Letter::Padded(Field::Century, Padding::Zero),
        b'd' => Letter::Padded(Field::Day, Padding::Zero),
        b'e' => Letter::Padded(Field::Day, Padding::Space),
        b'g' => Letter::Padded(Field::IsoYearLastTwo, Padding::Zero),
        b'G' => Letter::Fixed(iso_year()),
        b'Y' => Letter::Fixed(calendar_year()),
        b'H' => Letter::Padded(Field::Hour24, Padding::Zero),
        b'k' => Letter::Padded(Field::Hour24, Padding::Space),
        b'I' => Letter::Padded(Field::Hour12, Padding::Zero),
        b'l' => Letter::Padded(Field::Hour12, Padding::Space),
        b'j' => Letter::Padded(Field::Ordinal, Padding::Zero),
        b'm' => Letter::Padded(Field::Month, Padding::Zero),
        b'M' => Letter::Padded(Field::Minute, Padding::Zero),
        b'S' => Letter::Padded(Field::Second, Padding::Zero),
        b'p' => Letter::Fixed(Component::Period(Period::default())),
        b'P' => Letter::Fixed(Component::Period(Period::default().with_is_uppercase(false))),
        b's' => Letter::Fixed(Component::UnixTimestampSecond(UnixTimestampSecond::default())),
        b'u' => Letter::Fixed(Component::WeekdayMonday(WeekdayMonday::default())),
        b'w' => Letter::Fixed(Component::WeekdaySunday(WeekdaySunday::default())),
        b'U' => Letter::Padded(Field::WeekNumberSunday, Padding::Zero),
        b'V' => Letter::Padded(Field::WeekNumberIso, Padding::Zero),
        b'W' => Letter::Padded(Field::WeekNumberMonday, Padding::Zero),
        b'y' => Letter::Padded(Field::YearLastTwo, Padding::Zero),
        b'c' => Letter::Composite(Composite::DateAndTime),
        b'D' | b'x' => Letter::Composite(Composite::ShortDate),
        b'F' => Letter::Composite(Composite::IsoDate),
        b'r' => Letter::Composite(Composite::TimeOf12),
        b'R' => Letter::Composite(Composite::HourAndMinute),
        b'T' | b'X' => Letter::Composite(Composite::TimeOf24),
        b'z' => Letter::Composite(Composite::Offset),
        _ => return None,
    })
}

/// The component of a field with this padding.
pub fn padded(field: Field, padding: Padding) -> Component
    ensures { component result ≡ field_tree field padding }
{
    match field {
        Field::Century => Component::CalendarYearCenturyExtendedRange(
            CalendarYearCenturyExtendedRange::default().with_padding(padding),
        ),
        Field::Day => Component::Day(Day { padding }),
        Field::Hour12 => Component::Hour12(Hour12 { padding }),
        Field::Hour24 => Component::Hour24(Hour24 { padding }),
        Field::IsoYearLastTwo => Component::IsoYearLastTwo(IsoYearLastTwo { padding }),
        Field::Minute => Component::Minute(Minute { padding }),
        Field::Month => Component::MonthNumerical(MonthNumerical { padding }),
        Field::Ordinal => Component::Ordinal(Ordinal { padding }),
        Field::Second => Component::Second(Second { padding }),
        Field::WeekNumberIso => Component::WeekNumberIso(WeekNumberIso { padding }),
        Field::WeekNumberMonday => Component::WeekNumberMonday(WeekNumberMonday { padding }),
        Field::WeekNumberSunday => Component::WeekNumberSunday(WeekNumberSunday { padding }),
        Field::YearLastTwo => Component::CalendarYearLastTwo(CalendarYearLastTwo { padding }),
    }
}

/// The year of an ISO week, of any number of digits.
pub fn iso_year() -> Component
    ensures { component result ≡ spec.iso_year }
{
    Component::IsoYearFullExtendedRange(IsoYearFullExtendedRange::default())
}

/// The year, of any number of digits.
pub fn calendar_year() -> Component
    ensures { component result ≡ spec.year }
{
    Component::CalendarYearFullExtendedRange(CalendarYearFullExtendedRange::default())
}
