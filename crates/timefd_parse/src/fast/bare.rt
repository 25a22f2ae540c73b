//! Brackets that hold only the name of a component, as most brackets do.

ghost use Rattle.std.specs.Prelude.{◌≡◌, ◌≤◌, ◌+◌, ◌++◌, ◌∷◌, [], IfSome, MatchOption, Ok, length, ⊤};
ghost use Rattle.timefd_lang_component.specs.Modern.{modern};
ghost use Rattle.timefd_lang_component.specs.Reserved.{reserved};
ghost use Rattle.timefd_language.specs.Bytes.{is_version_three};
ghost use Rattle.timefd_language.specs.Names.{row_for};
ghost use Rattle.timefd_language.specs.Settings.{defaults};
ghost use Rattle.timefd_lang_fault.specs.declared.name.ComponentName as names;
ghost use Rattle.timefd_parse.specs.Read.{IsBare};

use crate::fast::words::after_word_by;
use timefd_items::Component;
use timefd_lang_fault::ComponentName;
use timefd_language::description_version::DescriptionVersion;
use timefd_modifier::{
    CalendarYearFullExtendedRange, CalendarYearFullStandardRange, Day, End, Hour24, Minute,
    MonthNumerical, OffsetHour, OffsetMinute, OffsetSecond, Ordinal, Period, Second, Subsecond,
    UnixTimestampSecond, WeekNumberIso, WeekdayLong,
};

/// The component, the bytes it reserves, and what follows, if the text begins with `closed`: the name
/// and `]`. The component is that of the name without modifiers.
#[inline(always)]
fn alone<'a, const N: usize>(
    version: DescriptionVersion,
    inside: &'a str,
    name: ComponentName,
    closed: &str,
    component: Component,
    bytes: usize,
) -> Option<(Component, usize, &'a str)>
    requires lanes { N ≤ 64 }
    requires front { N ≤ length closed.now }
    requires end { length closed.now ≤ N + N }
    requires spelled { closed.now ≡ (row_for name).name ++ 93 ∷ [] }
    requires made { (row_for name).component (defaults (is_version_three version)) ≡ Ok component }
    requires bytes { bytes ≡ reserved (modern component) }
    ensures component { MatchOption result ⊤ (λ x. IsBare version inside.now x.0 x.2.now) }
    ensures bytes { IfSome result (λ x. x.1 ≡ reserved (modern x.0)) }
{
    let rest = after_word_by::<N>(inside, closed)?;
    Some((component, bytes, rest))
}

/// The component of `year` without modifiers. Its range of years depends on the version.
#[inline(always)]
fn plain_year(version: DescriptionVersion) -> Component
    ensures { (row_for names.ComponentName.Year).component (defaults (is_version_three version))
        ≡ Ok result }
{
    match version {
        DescriptionVersion::One | DescriptionVersion::Two => {
            Component::CalendarYearFullExtendedRange(CalendarYearFullExtendedRange::default())
        }
        DescriptionVersion::Three => {
            Component::CalendarYearFullStandardRange(CalendarYearFullStandardRange::default())
        }
    }
}

/// How many bytes `year` without modifiers reserves.
#[inline(always)]
fn plain_year_bytes(version: DescriptionVersion) -> usize
    ensures { (c : Component) → (row_for names.ComponentName.Year).component
        (defaults (is_version_three version)) ≡ Ok c → result ≡ reserved (modern c) }
{
    match version {
        DescriptionVersion::One | DescriptionVersion::Two => 7,
        DescriptionVersion::Three => 5,
    }
}

/// The component of a bracket that holds only a name, the bytes it reserves, and what follows the
/// bracket. `inside` is the text after the `[`. `None` if the name isn't spelled as in every version.
/// Nor if few dates have it without modifiers (`bare_of_few`): the compiler inlines no function that has, with all that
/// is inlined into it, many more instructions.
#[inline(always)]
pub fn bare<'a>(version: DescriptionVersion, inside: &'a str) -> Option<(Component, usize, &'a str)>
    ensures component { MatchOption result ⊤ (λ x. IsBare version inside.now x.0 x.2.now) }
    ensures bytes { IfSome result (λ x. x.1 ≡ reserved (modern x.0)) }
{
    match inside.as_bytes() {
        [b'd', ..] => alone::<4>(
            version,
            inside,
            ComponentName::Day,
            "day]",
            Component::Day(Day::default()),
            2,
        ),
        [b'h', ..] => alone::<4>(
            version,
            inside,
            ComponentName::Hour,
            "hour]",
            Component::Hour24(Hour24::default()),
            2,
        ),
        [b'm', b'i', ..] => alone::<4>(
            version,
            inside,
            ComponentName::Minute,
            "minute]",
            Component::Minute(Minute::default()),
            2,
        ),
        [b'm', ..] => alone::<4>(
            version,
            inside,
            ComponentName::Month,
            "month]",
            Component::MonthNumerical(MonthNumerical::default()),
            2,
        ),
        [b'o', _, _, _, _, _, _, b'm', ..] => alone::<8>(
            version,
            inside,
            ComponentName::OffsetMinute,
            "offset_minute]",
            Component::OffsetMinute(OffsetMinute::default()),
            2,
        ),
        [b's', b'e', ..] => alone::<4>(
            version,
            inside,
            ComponentName::Second,
            "second]",
            Component::Second(Second::default()),
            2,
        ),
        [b's', ..] => alone::<8>(
            version,
            inside,
            ComponentName::Subsecond,
            "subsecond]",
            Component::Subsecond(Subsecond::default()),
            9,
        ),
        [b'y', ..] => alone::<4>(
            version,
            inside,
            ComponentName::Year,
            "year]",
            plain_year(version),
            plain_year_bytes(version),
        ),
        _ => None,
    }
}

/// The result of `bare` for the other names. They are compared where brackets with modifiers are, so the loop over pieces
/// stays small.
#[inline(always)]
pub fn bare_of_few<'a>(
    version: DescriptionVersion,
    inside: &'a str,
) -> Option<(Component, usize, &'a str)>
    ensures component { MatchOption result ⊤ (λ x. IsBare version inside.now x.0 x.2.now) }
    ensures bytes { IfSome result (λ x. x.1 ≡ reserved (modern x.0)) }
{
    match inside.as_bytes() {
        [b'e', ..] => alone::<4>(
            version,
            inside,
            ComponentName::End,
            "end]",
            Component::End(End::default()),
            0,
        ),
        [b'o', b'r', ..] => alone::<4>(
            version,
            inside,
            ComponentName::Ordinal,
            "ordinal]",
            Component::Ordinal(Ordinal::default()),
            3,
        ),
        [b'o', _, _, _, _, _, _, b'h', ..] => alone::<8>(
            version,
            inside,
            ComponentName::OffsetHour,
            "offset_hour]",
            Component::OffsetHour(OffsetHour::default()),
            3,
        ),
        [b'o', ..] => alone::<8>(
            version,
            inside,
            ComponentName::OffsetSecond,
            "offset_second]",
            Component::OffsetSecond(OffsetSecond::default()),
            2,
        ),
        [b'p', ..] => alone::<4>(
            version,
            inside,
            ComponentName::Period,
            "period]",
            Component::Period(Period::default()),
            2,
        ),
        [b'u', ..] => alone::<8>(
            version,
            inside,
            ComponentName::UnixTimestamp,
            "unix_timestamp]",
            Component::UnixTimestampSecond(UnixTimestampSecond::default()),
            15,
        ),
        [b'w', b'e', b'e', b'k', b'd', ..] => alone::<4>(
            version,
            inside,
            ComponentName::Weekday,
            "weekday]",
            Component::WeekdayLong(WeekdayLong::default()),
            9,
        ),
        [b'w', ..] => alone::<8>(
            version,
            inside,
            ComponentName::WeekNumber,
            "week_number]",
            Component::WeekNumberIso(WeekNumberIso::default()),
            2,
        ),
        _ => None,
    }
}
