//! The words that a bracket may hold: names, keys and values.

ghost use Rattle.std.specs.Prelude.{◌≡◌, map};
ghost use Rattle.timefd_language.specs.Bytes.{is_version_three};
ghost use Rattle.timefd_language.specs.Slots as spec;
ghost use Rattle.timefd_lint_diagnosis.specs.Words.{texts};

use timefd_lang_fault::{ComponentName, Key, Name, Slot};
use timefd_parse::DescriptionVersion;

/// The words that are allowed where this belongs.
pub fn words_at(slot: Slot, version: DescriptionVersion) -> &'static [&'static str]
    ensures { texts result.now ≡ spec.words_at (is_version_three version) slot }
{
    match slot {
        Slot::Name => names(version),
        Slot::Key(name) => keys(name),
        Slot::Value(key) => values(key),
    }
}

/// The names of brackets that version 3 accepts, or those that versions 1 and 2 accept: all but the
/// first two.
pub fn names(version: DescriptionVersion) -> &'static [&'static str]
    ensures { texts result.now ≡ spec.names (is_version_three version) }
{
    let all: &'static [&'static str] = &[
        "optional",
        "first",
        "day",
        "end",
        "hour",
        "ignore",
        "minute",
        "month",
        "offset_hour",
        "offset_minute",
        "offset_second",
        "ordinal",
        "period",
        "second",
        "subsecond",
        "unix_timestamp",
        "weekday",
        "week_number",
        "year",
    ];
    if version.is_strict() { all } else { &all[2..] }
}

/// The keys that a bracket of a name takes.
pub fn keys(name: Name) -> &'static [&'static str]
    ensures { texts result.now ≡ spec.keys name }
{
    match name {
        Name::Optional => &["format"],
        Name::First => &[],
        Name::Component(name) => component_keys(name),
    }
}

fn component_keys(name: ComponentName) -> &'static [&'static str]
    ensures { texts result.now ≡ spec.component_keys name }
{
    match name {
        ComponentName::Day
        | ComponentName::Minute
        | ComponentName::OffsetMinute
        | ComponentName::OffsetSecond
        | ComponentName::Ordinal
        | ComponentName::Second => &["padding"],
        ComponentName::End => &["trailing_input"],
        ComponentName::Hour | ComponentName::WeekNumber => &["padding", "repr"],
        ComponentName::Ignore => &["count"],
        ComponentName::Month => &["padding", "repr", "case_sensitive"],
        ComponentName::OffsetHour => &["sign", "padding"],
        ComponentName::Period => &["case", "case_sensitive"],
        ComponentName::Subsecond => &["digits"],
        ComponentName::UnixTimestamp => &["precision", "sign"],
        ComponentName::Weekday => &["repr", "one_indexed", "case_sensitive"],
        ComponentName::Year => &["padding", "repr", "range", "base", "sign"],
    }
}

/// The words that a key may be set to: none for `count`, which takes a number.
pub fn values(key: Key) -> &'static [&'static str]
    ensures { texts result.now ≡ spec.values key }
{
    match key {
        Key::Padding => &["zero", "space", "none"],
        Key::TrailingInput => &["prohibit", "discard"],
        Key::HourRepr => &["24", "12"],
        Key::Count => &[],
        Key::MonthRepr => &["numerical", "long", "short"],
        Key::CaseSensitive | Key::OneIndexed | Key::Format => &["true", "false"],
        Key::Sign => &["automatic", "mandatory"],
        Key::Case => &["upper", "lower"],
        Key::Digits => &["1+", "1", "2", "3", "4", "5", "6", "7", "8", "9"],
        Key::Precision => &["second", "millisecond", "microsecond", "nanosecond"],
        Key::WeekdayRepr => &["long", "short", "sunday", "monday"],
        Key::WeekNumberRepr => &["iso", "sunday", "monday"],
        Key::YearRepr => &["full", "century", "last_two"],
        Key::Range => &["standard", "extended"],
        Key::Base => &["calendar", "iso_week"],
    }
}
