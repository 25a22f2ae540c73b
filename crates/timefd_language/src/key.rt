//! The keys that a bracket takes.

ghost use Rattle.std.specs.Prelude.{◌≡◌, map, option_map};
ghost use Rattle.timefd_language.specs.Bytes.{is_version_three};
ghost use Rattle.timefd_language.specs.Names.{row_for};
ghost use Rattle.timefd_language.specs.Values.{key_in};
ghost use Rattle.timefd_language.specs.Lookup.{key_for, keys_for};

use crate::description_version::DescriptionVersion;
use crate::same::same;
use timefd_lang_fault::{ComponentName, Key, Name};

/// The key as it is written.
#[inline]
pub fn spelling(key: Key) -> &'static str
    ensures { result.now ≡ (key_for key).key }
{
    match key {
        Key::Padding => "padding",
        Key::TrailingInput => "trailing_input",
        Key::Count => "count",
        Key::HourRepr | Key::MonthRepr | Key::WeekdayRepr | Key::WeekNumberRepr | Key::YearRepr =>
            "repr",
        Key::CaseSensitive => "case_sensitive",
        Key::Sign => "sign",
        Key::Case => "case",
        Key::Digits => "digits",
        Key::Precision => "precision",
        Key::OneIndexed => "one_indexed",
        Key::Range => "range",
        Key::Base => "base",
        Key::Format => "format",
    }
}

/// The keys that a bracket with this name takes.
#[inline]
fn keys(name: Name) -> &'static [Key]
    ensures { map key_for result.now ≡ keys_for name }
{
    match name {
        Name::Optional => &[Key::Format],
        Name::First => &[],
        Name::Component(name) => component_keys(name),
    }
}

#[inline]
fn component_keys(name: ComponentName) -> &'static [Key]
    ensures { map key_for result.now ≡ (row_for name).keys }
{
    match name {
        ComponentName::Day
        | ComponentName::Minute
        | ComponentName::OffsetMinute
        | ComponentName::OffsetSecond
        | ComponentName::Ordinal
        | ComponentName::Second => &[Key::Padding],
        ComponentName::End => &[Key::TrailingInput],
        ComponentName::Hour => &[Key::Padding, Key::HourRepr],
        ComponentName::Ignore => &[Key::Count],
        ComponentName::Month => &[Key::Padding, Key::MonthRepr, Key::CaseSensitive],
        ComponentName::OffsetHour => &[Key::Sign, Key::Padding],
        ComponentName::Period => &[Key::Case, Key::CaseSensitive],
        ComponentName::Subsecond => &[Key::Digits],
        ComponentName::UnixTimestamp => &[Key::Precision, Key::Sign],
        ComponentName::Weekday => &[Key::WeekdayRepr, Key::OneIndexed, Key::CaseSensitive],
        ComponentName::WeekNumber => &[Key::Padding, Key::WeekNumberRepr],
        ComponentName::Year => &[
            Key::Padding,
            Key::YearRepr,
            Key::Range,
            Key::Base,
            Key::Sign,
        ],
    }
}

/// The key that a word spells in a bracket with this name.
#[inline(always)]
pub fn key_of(name: Name, version: DescriptionVersion, word: &str) -> Option<Key>
    ensures { option_map key_for result ≡ key_in (is_version_three version) word.now (keys_for
        name) }
{
    for key in keys(name) {
        if same(version, spelling(*key), word) {
            return Some(*key);
        }
    }
    None
}
