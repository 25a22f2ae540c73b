//! Values of the keys of brackets, distinguished by their first bytes and compared in place.

ghost use Rattle.std.specs.Prelude.{◌≡◌, MatchOption, Some, true, false, ⊤};
ghost use Rattle.timefd_language.specs.Bytes.{OneOrMore, is_word_byte};
ghost use Rattle.timefd_language.specs.Lookup.{key_for};
ghost use Rattle.timefd_language.specs.Values as spec;
ghost use Rattle.timefd_lang_fault.specs.declared.key.Key.TheVariants as keys;
ghost use Rattle.timefd_language.specs.declared.setting.Setting as settings;
ghost use Rattle.timefd_parse.specs.Quick.{BeginsWithValue};

use crate::fast::reprs::{hour_repr, month_repr, week_number_repr, weekday_repr, year_repr};
use crate::fast::words::valued;
use timefd_lang_fault::Key;
use timefd_language::setting::Setting;
use timefd_modifier::{Padding, SubsecondDigits, TrailingInput, UnixTimestampPrecision, YearRange};

/// What the value that a text begins with sets the key to, and what follows the value.
#[inline(always)]
pub fn value_in(key: Key, text: &str) -> Option<(Setting, &str)>
    ensures { MatchOption result ⊤ (λ x. BeginsWithValue key text.now x.0 x.1.now) }
{
    match key {
        Key::Padding => padding(text),
        Key::HourRepr => hour_repr(text),
        Key::MonthRepr => month_repr(text),
        Key::WeekdayRepr => weekday_repr(text),
        Key::WeekNumberRepr => week_number_repr(text),
        Key::YearRepr => year_repr(text),
        Key::Sign => sign(text),
        Key::Case => case(text),
        Key::CaseSensitive => case_sensitive(text),
        Key::OneIndexed => one_indexed(text),
        Key::Range => range(text),
        Key::Base => base(text),
        Key::TrailingInput => trailing_input(text),
        Key::Precision => precision(text),
        Key::Digits => digits(text),
        Key::Count | Key::Format => None,
    }
}

/// The result of `value_in` for `padding`.
#[inline(always)]
fn padding(text: &str) -> Option<(Setting, &str)>
    ensures { MatchOption result ⊤ (λ x. BeginsWithValue keys.Padding text.now x.0 x.1.now) }
{
    match text.as_bytes() {
        [b'z', ..] => valued(Key::Padding, text, "zero", Setting::Padding(Padding::Zero)),
        [b'n', ..] => valued(Key::Padding, text, "none", Setting::Padding(Padding::None)),
        _ => valued(
            Key::Padding,
            text,
            "space",
            Setting::Padding(Padding::Space),
        ),
    }
}

/// The result of `value_in` for `sign`.
#[inline(always)]
fn sign(text: &str) -> Option<(Setting, &str)>
    ensures { MatchOption result ⊤ (λ x. BeginsWithValue keys.Sign text.now x.0 x.1.now) }
{
    match text.as_bytes() {
        [b'm', ..] => valued(Key::Sign, text, "mandatory", Setting::SignIsMandatory(true)),
        _ => valued(
            Key::Sign,
            text,
            "automatic",
            Setting::SignIsMandatory(false),
        ),
    }
}

/// The result of `value_in` for `case`.
#[inline(always)]
fn case(text: &str) -> Option<(Setting, &str)>
    ensures { MatchOption result ⊤ (λ x. BeginsWithValue keys.Case text.now x.0 x.1.now) }
{
    match text.as_bytes() {
        [b'l', ..] => valued(Key::Case, text, "lower", Setting::IsUppercase(false)),
        _ => valued(Key::Case, text, "upper", Setting::IsUppercase(true)),
    }
}

/// The result of `value_in` for `case_sensitive`.
#[inline(always)]
fn case_sensitive(text: &str) -> Option<(Setting, &str)>
    ensures { MatchOption result ⊤ (λ x. BeginsWithValue keys.CaseSensitive text.now x.0 x.1.now) }
{
    match text.as_bytes() {
        [b'f', ..] => valued(
            Key::CaseSensitive,
            text,
            "false",
            Setting::CaseSensitive(false),
        ),
        _ => valued(
            Key::CaseSensitive,
            text,
            "true",
            Setting::CaseSensitive(true),
        ),
    }
}

/// The result of `value_in` for `one_indexed`.
#[inline(always)]
fn one_indexed(text: &str) -> Option<(Setting, &str)>
    ensures { MatchOption result ⊤ (λ x. BeginsWithValue keys.OneIndexed text.now x.0 x.1.now) }
{
    match text.as_bytes() {
        [b'f', ..] => valued(Key::OneIndexed, text, "false", Setting::OneIndexed(false)),
        _ => valued(Key::OneIndexed, text, "true", Setting::OneIndexed(true)),
    }
}

/// The result of `value_in` for `range`.
#[inline(always)]
fn range(text: &str) -> Option<(Setting, &str)>
    ensures { MatchOption result ⊤ (λ x. BeginsWithValue keys.Range text.now x.0 x.1.now) }
{
    match text.as_bytes() {
        [b's', ..] => valued(
            Key::Range,
            text,
            "standard",
            Setting::Range(YearRange::Standard),
        ),
        _ => valued(
            Key::Range,
            text,
            "extended",
            Setting::Range(YearRange::Extended),
        ),
    }
}

/// The result of `value_in` for `base`.
#[inline(always)]
fn base(text: &str) -> Option<(Setting, &str)>
    ensures { MatchOption result ⊤ (λ x. BeginsWithValue keys.Base text.now x.0 x.1.now) }
{
    match text.as_bytes() {
        [b'i', ..] => valued(Key::Base, text, "iso_week", Setting::IsoWeekBased(true)),
        _ => valued(Key::Base, text, "calendar", Setting::IsoWeekBased(false)),
    }
}

/// The result of `value_in` for `trailing_input`.
#[inline(always)]
fn trailing_input(text: &str) -> Option<(Setting, &str)>
    ensures { MatchOption result ⊤ (λ x. BeginsWithValue keys.TrailingInput text.now x.0 x.1.now) }
{
    match text.as_bytes() {
        [b'd', ..] => valued(
            Key::TrailingInput,
            text,
            "discard",
            Setting::TrailingInput(TrailingInput::Discard),
        ),
        _ => valued(
            Key::TrailingInput,
            text,
            "prohibit",
            Setting::TrailingInput(TrailingInput::Prohibit),
        ),
    }
}

/// The result of `value_in` for `precision`.
#[inline(always)]
fn precision(text: &str) -> Option<(Setting, &str)>
    ensures { MatchOption result ⊤ (λ x. BeginsWithValue keys.Precision text.now x.0 x.1.now) }
{
    match text.as_bytes() {
        [b's', ..] => valued(
            Key::Precision,
            text,
            "second",
            Setting::Precision(UnixTimestampPrecision::Second),
        ),
        [b'm', b'i', b'l', ..] => valued(
            Key::Precision,
            text,
            "millisecond",
            Setting::Precision(UnixTimestampPrecision::Millisecond),
        ),
        [b'm', ..] => valued(
            Key::Precision,
            text,
            "microsecond",
            Setting::Precision(UnixTimestampPrecision::Microsecond),
        ),
        _ => valued(
            Key::Precision,
            text,
            "nanosecond",
            Setting::Precision(UnixTimestampPrecision::Nanosecond),
        ),
    }
}

/// The result of `value_in` for `digits`.
#[inline(always)]
fn digits(text: &str) -> Option<(Setting, &str)>
    ensures { MatchOption result ⊤ (λ x. BeginsWithValue keys.Digits text.now x.0 x.1.now) }
{
    match text.as_bytes() {
        [b'1', b'+', ..] => digit(text, "1+", SubsecondDigits::OneOrMore),
        [b'1', ..] => digit(text, "1", SubsecondDigits::One),
        [b'2', ..] => digit(text, "2", SubsecondDigits::Two),
        [b'3', ..] => digit(text, "3", SubsecondDigits::Three),
        [b'4', ..] => digit(text, "4", SubsecondDigits::Four),
        [b'5', ..] => digit(text, "5", SubsecondDigits::Five),
        [b'6', ..] => digit(text, "6", SubsecondDigits::Six),
        [b'7', ..] => digit(text, "7", SubsecondDigits::Seven),
        [b'8', ..] => digit(text, "8", SubsecondDigits::Eight),
        [b'9', ..] => digit(text, "9", SubsecondDigits::Nine),
        _ => None,
    }
}

/// The result of `digits` for one word, which sets this many digits.
#[inline(always)]
fn digit<'a>(text: &'a str, word: &str, digits: SubsecondDigits) -> Option<(Setting, &'a str)>
    requires word { OneOrMore is_word_byte word.now }
    requires exactly { spec.setting_in true (key_for keys.Digits).values word.now ≡ Some
        (settings.Setting.Digits digits) }
    requires anyhow { spec.setting_in false (key_for keys.Digits).values word.now ≡ Some
        (settings.Setting.Digits digits) }
    ensures { MatchOption result ⊤ (λ x. BeginsWithValue keys.Digits text.now x.0 x.1.now) }
{
    valued(Key::Digits, text, word, Setting::Digits(digits))
}
