//! The names at the head of a bracket.

ghost use Rattle.std.specs.Prelude.{◌≡◌, option_map};
ghost use Rattle.timefd_language.specs.Bytes.{is_version_three};
ghost use Rattle.timefd_language.specs.Bytes as spec;
ghost use Rattle.timefd_language.specs.Names.{row_for, row_of};
ghost use Rattle.timefd_language.specs.Lookup.{IsNameOf};

use crate::description_version::DescriptionVersion;
use crate::same::same;
use timefd_lang_fault::{ComponentName, Name};

/// The name as it is written.
#[inline(always)]
pub fn name_spelling(name: ComponentName) -> &'static str
    ensures { result.now ≡ (row_for name).name }
{
    match name {
        ComponentName::Day => "day",
        ComponentName::End => "end",
        ComponentName::Hour => "hour",
        ComponentName::Ignore => "ignore",
        ComponentName::Minute => "minute",
        ComponentName::Month => "month",
        ComponentName::OffsetHour => "offset_hour",
        ComponentName::OffsetMinute => "offset_minute",
        ComponentName::OffsetSecond => "offset_second",
        ComponentName::Ordinal => "ordinal",
        ComponentName::Period => "period",
        ComponentName::Second => "second",
        ComponentName::Subsecond => "subsecond",
        ComponentName::UnixTimestamp => "unix_timestamp",
        ComponentName::Weekday => "weekday",
        ComponentName::WeekNumber => "week_number",
        ComponentName::Year => "year",
    }
}

/// The name that a word spells.
pub fn name_of(version: DescriptionVersion, word: &str) -> Option<Name>
    ensures { IsNameOf (is_version_three version) word.now result }
{
    if same(version, "optional", word) {
        Some(Name::Optional)
    } else if same(version, "first", word) {
        Some(Name::First)
    } else {
        Some(Name::Component(component_name_of(version, word)?))
    }
}

/// The component that a word names. It is compared only with names of its own length.
fn component_name_of(version: DescriptionVersion, word: &str) -> Option<ComponentName>
    ensures { option_map row_for result ≡ row_of (is_version_three version) word.now }
{
    match word.len() {
        3 if names(ComponentName::Day, version, word) => Some(ComponentName::Day),
        3 if names(ComponentName::End, version, word) => Some(ComponentName::End),
        4 if names(ComponentName::Hour, version, word) => Some(ComponentName::Hour),
        4 if names(ComponentName::Year, version, word) => Some(ComponentName::Year),
        5 if names(ComponentName::Month, version, word) => Some(ComponentName::Month),
        6 if names(ComponentName::Ignore, version, word) => Some(ComponentName::Ignore),
        6 if names(ComponentName::Minute, version, word) => Some(ComponentName::Minute),
        6 if names(ComponentName::Period, version, word) => Some(ComponentName::Period),
        6 if names(ComponentName::Second, version, word) => Some(ComponentName::Second),
        7 if names(ComponentName::Ordinal, version, word) => Some(ComponentName::Ordinal),
        7 if names(ComponentName::Weekday, version, word) => Some(ComponentName::Weekday),
        9 if names(ComponentName::Subsecond, version, word) => Some(ComponentName::Subsecond),
        11 if names(ComponentName::OffsetHour, version, word) => Some(ComponentName::OffsetHour),
        11 if names(ComponentName::WeekNumber, version, word) => Some(ComponentName::WeekNumber),
        13 if names(ComponentName::OffsetMinute, version, word) => Some(
            ComponentName::OffsetMinute,
        ),
        13 if names(ComponentName::OffsetSecond, version, word) => Some(
            ComponentName::OffsetSecond,
        ),
        14 if names(ComponentName::UnixTimestamp, version, word) => Some(
            ComponentName::UnixTimestamp,
        ),
        _ => None,
    }
}

/// Whether a word names this component.
#[inline]
fn names(name: ComponentName, version: DescriptionVersion, word: &str) -> bool
    ensures { result ≡ spec.same (is_version_three version) (row_for name).name word.now }
{
    same(version, name_spelling(name), word)
}
