//! The words that modifiers are set to, and what they mean.

ghost use Rattle.std.specs.Prelude.{◌≡◌, Bool, option_map, map};
ghost use Rattle.timefd_language.specs.Bytes.{is_version_three, named};
ghost use Rattle.timefd_language.specs.Values as spec;
ghost use Rattle.timefd_language.specs.Values.{setting_in, sets_of, ◌sets◌};
ghost use Rattle.timefd_language.specs.Lookup.{key_for};
ghost use Rattle.timefd_language.specs.declared.setting.Setting.{Setting};

use crate::description_version::DescriptionVersion;
use crate::same::same;
use crate::setting::Setting;
use std::num::NonZero;
use timefd_lang_fault::Key;
use timefd_modifier::{
    MonthRepr, Padding, SubsecondDigits, TrailingInput, UnixTimestampPrecision, WeekNumberRepr,
    WeekdayRepr, YearRange, YearRepr,
};

/// What a word sets a key to.
#[inline(always)]
pub fn setting_of(key: Key, version: DescriptionVersion, word: &str) -> Option<Setting>
    ensures { result ≡ setting_in (is_version_three version) (key_for key).values word.now }
{
    let setting = match key {
        Key::Padding => Setting::Padding(padding_of(version, word)?),
        Key::TrailingInput => Setting::TrailingInput(trailing_input_of(version, word)?),
        Key::HourRepr => Setting::Is12HourClock(is_12_hour_clock_of(version, word)?),
        Key::Count => Setting::Count(count_of(word)?),
        Key::MonthRepr => Setting::MonthRepr(month_repr_of(version, word)?),
        Key::CaseSensitive => Setting::CaseSensitive(bool_of(version, word)?),
        Key::Sign => Setting::SignIsMandatory(sign_is_mandatory_of(version, word)?),
        Key::Case => Setting::IsUppercase(is_uppercase_of(version, word)?),
        Key::Digits => Setting::Digits(digits_of(word)?),
        Key::Precision => Setting::Precision(precision_of(version, word)?),
        Key::WeekdayRepr => Setting::WeekdayRepr(weekday_repr_of(version, word)?),
        Key::OneIndexed => Setting::OneIndexed(bool_of(version, word)?),
        Key::WeekNumberRepr => Setting::WeekNumberRepr(week_number_repr_of(version, word)?),
        Key::YearRepr => Setting::YearRepr(year_repr_of(version, word)?),
        Key::Range => Setting::Range(range_of(version, word)?),
        Key::Base => Setting::IsoWeekBased(is_iso_week_based_of(version, word)?),
        Key::Format => Setting::Format(bool_of(version, word)?),
    };
    Some(setting)
}

/// What a word means, by this list of words and meanings.
#[inline(always)]
fn value_of<T: Copy>(version: DescriptionVersion, word: &str, values: &[(&str, T)]) -> Option<T>
    ensures { (set : T → Setting) → option_map set result ≡ sets_of (named (λ v. v.word)
        (is_version_three version)
        word.now (map (λ x. x.0.now sets set x.1) values.now)) }
{
    for (name, value) in values {
        if same(version, name, word) {
            return Some(*value);
        }
    }
    None
}

fn trailing_input_of(version: DescriptionVersion, word: &str) -> Option<TrailingInput>
    ensures { option_map Setting.TrailingInput result ≡ setting_in (is_version_three version)
        spec.trailing_input.values
        word.now }
{
    value_of(
        version,
        word,
        &[
            ("prohibit", TrailingInput::Prohibit),
            ("discard", TrailingInput::Discard),
        ],
    )
}

fn is_12_hour_clock_of(version: DescriptionVersion, word: &str) -> Option<bool>
    ensures { option_map Setting.Is12HourClock result ≡ setting_in (is_version_three version)
        spec.hour_repr.values
        word.now }
{
    value_of(version, word, &[("24", false), ("12", true)])
}

fn sign_is_mandatory_of(version: DescriptionVersion, word: &str) -> Option<bool>
    ensures { option_map Setting.SignIsMandatory result ≡ setting_in (is_version_three version)
        spec.sign.values
        word.now }
{
    value_of(version, word, &[("automatic", false), ("mandatory", true)])
}

fn is_uppercase_of(version: DescriptionVersion, word: &str) -> Option<bool>
    ensures { option_map Setting.IsUppercase result ≡ setting_in (is_version_three version)
        spec.case.values word.now }
{
    value_of(version, word, &[("upper", true), ("lower", false)])
}

fn range_of(version: DescriptionVersion, word: &str) -> Option<YearRange>
    ensures { option_map Setting.Range result ≡ setting_in (is_version_three version)
        spec.range.values word.now }
{
    value_of(
        version,
        word,
        &[
            ("standard", YearRange::Standard),
            ("extended", YearRange::Extended),
        ],
    )
}

fn is_iso_week_based_of(version: DescriptionVersion, word: &str) -> Option<bool>
    ensures { option_map Setting.IsoWeekBased result ≡ setting_in (is_version_three version)
        spec.base.values word.now }
{
    value_of(version, word, &[("calendar", false), ("iso_week", true)])
}

fn bool_of(version: DescriptionVersion, word: &str) -> Option<bool>
    ensures case_sensitive { option_map Setting.CaseSensitive result ≡ setting_in
        (is_version_three version)
        spec.case_sensitive.values word.now }
    ensures one_indexed { option_map Setting.OneIndexed result ≡ setting_in
        (is_version_three version)
        spec.one_indexed.values word.now }
    ensures format { option_map Setting.Format result ≡ setting_in (is_version_three version)
        spec.format.values
        word.now }
{
    value_of(version, word, &[("true", true), ("false", false)])
}

fn padding_of(version: DescriptionVersion, word: &str) -> Option<Padding>
    ensures { option_map Setting.Padding result ≡ setting_in (is_version_three version)
        spec.padding.values word.now }
{
    value_of(
        version,
        word,
        &[
            ("zero", Padding::Zero),
            ("space", Padding::Space),
            ("none", Padding::None),
        ],
    )
}

fn month_repr_of(version: DescriptionVersion, word: &str) -> Option<MonthRepr>
    ensures { option_map Setting.MonthRepr result ≡ setting_in (is_version_three version)
        spec.month_repr.values
        word.now }
{
    value_of(
        version,
        word,
        &[
            ("numerical", MonthRepr::Numerical),
            ("long", MonthRepr::Long),
            ("short", MonthRepr::Short),
        ],
    )
}

fn week_number_repr_of(version: DescriptionVersion, word: &str) -> Option<WeekNumberRepr>
    ensures { option_map Setting.WeekNumberRepr result ≡ setting_in (is_version_three version)
        spec.week_number_repr.values word.now }
{
    value_of(
        version,
        word,
        &[
            ("iso", WeekNumberRepr::Iso),
            ("sunday", WeekNumberRepr::Sunday),
            ("monday", WeekNumberRepr::Monday),
        ],
    )
}

fn year_repr_of(version: DescriptionVersion, word: &str) -> Option<YearRepr>
    ensures { option_map Setting.YearRepr result ≡ setting_in (is_version_three version)
        spec.year_repr.values word.now }
{
    value_of(
        version,
        word,
        &[
            ("full", YearRepr::Full),
            ("century", YearRepr::Century),
            ("last_two", YearRepr::LastTwo),
        ],
    )
}

fn weekday_repr_of(version: DescriptionVersion, word: &str) -> Option<WeekdayRepr>
    ensures { option_map Setting.WeekdayRepr result ≡ setting_in (is_version_three version)
        spec.weekday_repr.values
        word.now }
{
    value_of(
        version,
        word,
        &[
            ("long", WeekdayRepr::Long),
            ("short", WeekdayRepr::Short),
            ("sunday", WeekdayRepr::Sunday),
            ("monday", WeekdayRepr::Monday),
        ],
    )
}

fn precision_of(version: DescriptionVersion, word: &str) -> Option<UnixTimestampPrecision>
    ensures { option_map Setting.Precision result ≡ setting_in (is_version_three version)
        spec.precision.values word.now }
{
    value_of(
        version,
        word,
        &[
            ("second", UnixTimestampPrecision::Second),
            ("millisecond", UnixTimestampPrecision::Millisecond),
            ("microsecond", UnixTimestampPrecision::Microsecond),
            ("nanosecond", UnixTimestampPrecision::Nanosecond),
        ],
    )
}

/// The version makes no difference here, as digits have no case.
fn digits_of(word: &str) -> Option<SubsecondDigits>
    ensures { (strict : Bool) → option_map Setting.Digits result ≡ setting_in strict
        spec.digits.values word.now }
{
    match word.as_bytes() {
        b"1+" => Some(SubsecondDigits::OneOrMore),
        b"1" => Some(SubsecondDigits::One),
        b"2" => Some(SubsecondDigits::Two),
        b"3" => Some(SubsecondDigits::Three),
        b"4" => Some(SubsecondDigits::Four),
        b"5" => Some(SubsecondDigits::Five),
        b"6" => Some(SubsecondDigits::Six),
        b"7" => Some(SubsecondDigits::Seven),
        b"8" => Some(SubsecondDigits::Eight),
        b"9" => Some(SubsecondDigits::Nine),
        _ => None,
    }
}

/// A number from 1 to 65535, written as Rust's `parse` accepts it.
fn count_of(word: &str) -> Option<NonZero<u16>>
    ensures { option_map Setting.Count result ≡ spec.count_of word.now }
{
    let count = word.parse::<u16>().ok()?;
    NonZero::<u16>::new(count)
}
