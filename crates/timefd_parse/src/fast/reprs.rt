//! Values of the keys named `repr`, distinguished by their first bytes and compared in place.

ghost use Rattle.std.specs.Prelude.{MatchOption, ⊤};
ghost use Rattle.timefd_lang_fault.specs.declared.key.Key.TheVariants as keys;
ghost use Rattle.timefd_parse.specs.Quick.{BeginsWithValue};

use crate::fast::words::valued;
use timefd_lang_fault::Key;
use timefd_language::setting::Setting;
use timefd_modifier::{MonthRepr, WeekNumberRepr, WeekdayRepr, YearRepr};

/// What the `repr` of an hour sets, if the text begins with it, and what follows.
#[inline(always)]
pub fn hour_repr(text: &str) -> Option<(Setting, &str)>
    ensures { MatchOption result ⊤ (λ x. BeginsWithValue keys.HourRepr text.now x.0 x.1.now) }
{
    match text.as_bytes() {
        [b'1', ..] => valued(Key::HourRepr, text, "12", Setting::Is12HourClock(true)),
        _ => valued(Key::HourRepr, text, "24", Setting::Is12HourClock(false)),
    }
}

/// What the `repr` of a month sets, if the text begins with it, and what follows.
#[inline(always)]
pub fn month_repr(text: &str) -> Option<(Setting, &str)>
    ensures { MatchOption result ⊤ (λ x. BeginsWithValue keys.MonthRepr text.now x.0 x.1.now) }
{
    match text.as_bytes() {
        [b's', ..] => valued(
            Key::MonthRepr,
            text,
            "short",
            Setting::MonthRepr(MonthRepr::Short),
        ),
        [b'l', ..] => valued(
            Key::MonthRepr,
            text,
            "long",
            Setting::MonthRepr(MonthRepr::Long),
        ),
        _ => valued(
            Key::MonthRepr,
            text,
            "numerical",
            Setting::MonthRepr(MonthRepr::Numerical),
        ),
    }
}

/// What the `repr` of a weekday sets, if the text begins with it, and what follows.
#[inline(always)]
pub fn weekday_repr(text: &str) -> Option<(Setting, &str)>
    ensures { MatchOption result ⊤ (λ x. BeginsWithValue keys.WeekdayRepr text.now x.0 x.1.now) }
{
    match text.as_bytes() {
        [b's', b'h', ..] => valued(
            Key::WeekdayRepr,
            text,
            "short",
            Setting::WeekdayRepr(WeekdayRepr::Short),
        ),
        [b'l', ..] => valued(
            Key::WeekdayRepr,
            text,
            "long",
            Setting::WeekdayRepr(WeekdayRepr::Long),
        ),
        [b's', ..] => valued(
            Key::WeekdayRepr,
            text,
            "sunday",
            Setting::WeekdayRepr(WeekdayRepr::Sunday),
        ),
        _ => valued(
            Key::WeekdayRepr,
            text,
            "monday",
            Setting::WeekdayRepr(WeekdayRepr::Monday),
        ),
    }
}

/// What the `repr` of a week number sets, if the text begins with it, and what follows.
#[inline(always)]
pub fn week_number_repr(text: &str) -> Option<(Setting, &str)>
    ensures { MatchOption result ⊤ (λ x. BeginsWithValue keys.WeekNumberRepr text.now x.0 x.1.now) }
{
    match text.as_bytes() {
        [b'i', ..] => valued(
            Key::WeekNumberRepr,
            text,
            "iso",
            Setting::WeekNumberRepr(WeekNumberRepr::Iso),
        ),
        [b's', ..] => valued(
            Key::WeekNumberRepr,
            text,
            "sunday",
            Setting::WeekNumberRepr(WeekNumberRepr::Sunday),
        ),
        _ => valued(
            Key::WeekNumberRepr,
            text,
            "monday",
            Setting::WeekNumberRepr(WeekNumberRepr::Monday),
        ),
    }
}

/// What the `repr` of a year sets, if the text begins with it, and what follows.
#[inline(always)]
pub fn year_repr(text: &str) -> Option<(Setting, &str)>
    ensures { MatchOption result ⊤ (λ x. BeginsWithValue keys.YearRepr text.now x.0 x.1.now) }
{
    match text.as_bytes() {
        [b'l', ..] => valued(
            Key::YearRepr,
            text,
            "last_two",
            Setting::YearRepr(YearRepr::LastTwo),
        ),
        [b'c', ..] => valued(
            Key::YearRepr,
            text,
            "century",
            Setting::YearRepr(YearRepr::Century),
        ),
        _ => valued(
            Key::YearRepr,
            text,
            "full",
            Setting::YearRepr(YearRepr::Full),
        ),
    }
}
