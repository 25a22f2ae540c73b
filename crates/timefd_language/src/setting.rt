//! What the modifiers of a component set.

ghost use Rattle.std.specs.Prelude.{◌≡◌};
ghost use Rattle.timefd_language.specs.Bytes.{is_version_three};
ghost use Rattle.timefd_language.specs.Settings as spec;

use crate::description_version::DescriptionVersion;
use std::num::NonZero;
use timefd_modifier::{
    MonthRepr, Padding, SubsecondDigits, TrailingInput, UnixTimestampPrecision, WeekNumberRepr,
    WeekdayRepr, YearRange, YearRepr,
};

/// What one modifier sets: a field of `Settings`.
#[derive(Clone, Copy)]
pub enum Setting {
    Padding(Padding),
    TrailingInput(TrailingInput),
    Is12HourClock(bool),
    Count(NonZero<u16>),
    MonthRepr(MonthRepr),
    CaseSensitive(bool),
    SignIsMandatory(bool),
    IsUppercase(bool),
    Digits(SubsecondDigits),
    Precision(UnixTimestampPrecision),
    WeekdayRepr(WeekdayRepr),
    OneIndexed(bool),
    WeekNumberRepr(WeekNumberRepr),
    YearRepr(YearRepr),
    Range(YearRange),
    IsoWeekBased(bool),
    Format(bool),
}

/// What all the modifiers of a bracket set. A component takes the fields that it has a use for.
#[derive(Clone, Copy)]
pub struct Settings {
    pub padding: Padding,
    pub trailing_input: TrailingInput,
    pub is_12_hour_clock: bool,
    /// How many bytes are ignored. There is no default.
    pub count: Option<NonZero<u16>>,
    pub month_repr: MonthRepr,
    pub case_sensitive: bool,
    pub sign_is_mandatory: bool,
    pub is_uppercase: bool,
    pub digits: SubsecondDigits,
    pub precision: UnixTimestampPrecision,
    pub weekday_repr: WeekdayRepr,
    pub one_indexed: bool,
    pub week_number_repr: WeekNumberRepr,
    pub year_repr: YearRepr,
    pub range: YearRange,
    /// Whether years are ISO week-numbering years.
    pub iso_week_based: bool,
    /// Whether an optional item is formatted.
    pub format: bool,
}

impl Settings {
    /// The settings of a bracket without modifiers. The range of years depends on the version.
    #[inline(always)]
    pub fn new(version: DescriptionVersion) -> Self
        ensures { result ≡ spec.defaults (is_version_three version) }
    {
        Settings {
            padding: Padding::Zero,
            trailing_input: TrailingInput::Prohibit,
            is_12_hour_clock: false,
            count: None,
            month_repr: MonthRepr::Numerical,
            case_sensitive: true,
            sign_is_mandatory: false,
            is_uppercase: true,
            digits: SubsecondDigits::OneOrMore,
            precision: UnixTimestampPrecision::Second,
            weekday_repr: WeekdayRepr::Long,
            one_indexed: true,
            week_number_repr: WeekNumberRepr::Iso,
            year_repr: YearRepr::Full,
            range: default_range(version),
            iso_week_based: false,
            format: true,
        }
    }

    /// Applies one more setting, which replaces an earlier one of the same field.
    #[inline(always)]
    pub fn set(&mut self, setting: Setting)
        ensures { self.new ≡ spec.with self.old setting }
    {
        match setting {
            Setting::Padding(padding) => self.padding = padding,
            Setting::TrailingInput(trailing_input) => self.trailing_input = trailing_input,
            Setting::Is12HourClock(is_12_hour) => self.is_12_hour_clock = is_12_hour,
            Setting::Count(count) => self.count = Some(count),
            Setting::MonthRepr(repr) => self.month_repr = repr,
            Setting::CaseSensitive(case_sensitive) => self.case_sensitive = case_sensitive,
            Setting::SignIsMandatory(is_mandatory) => self.sign_is_mandatory = is_mandatory,
            Setting::IsUppercase(is_uppercase) => self.is_uppercase = is_uppercase,
            Setting::Digits(digits) => self.digits = digits,
            Setting::Precision(precision) => self.precision = precision,
            Setting::WeekdayRepr(repr) => self.weekday_repr = repr,
            Setting::OneIndexed(one_indexed) => self.one_indexed = one_indexed,
            Setting::WeekNumberRepr(repr) => self.week_number_repr = repr,
            Setting::YearRepr(repr) => self.year_repr = repr,
            Setting::Range(range) => self.range = range,
            Setting::IsoWeekBased(iso_week_based) => self.iso_week_based = iso_week_based,
            Setting::Format(format) => self.format = format,
        }
    }
}

#[inline(always)]
fn default_range(version: DescriptionVersion) -> YearRange
    ensures { result ≡ spec.default_range (is_version_three version) }
{
    if version.is_strict() {
        YearRange::Standard
    } else {
        YearRange::Extended
    }
}
