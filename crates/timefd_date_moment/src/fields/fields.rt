//! The fields that were read from a text.

ghost use Rattle.std.specs.Prelude.{◌≡◌};
ghost use Rattle.timefd_date_moment.specs.Fields.Fields as spec;

/// What was read from a text. A field is `None` if no component for it was read. It corresponds to `Parsed`
/// of the crate `time`.
#[derive(Debug, Clone, Copy)]
pub struct Fields {
    pub year: Option<Signed>,
    /// The hundreds of the year.
    pub century: Option<Signed>,
    pub year_last_two: Option<u16>,
    pub iso_year: Option<Signed>,
    /// The hundreds of the ISO week-numbering year.
    pub iso_century: Option<Signed>,
    pub iso_year_last_two: Option<u16>,
    /// The month, counted from 1.
    pub month: Option<u16>,
    /// The day of the month, counted from 1.
    pub day: Option<u16>,
    /// The day of the year, counted from 1.
    pub ordinal: Option<u16>,
    /// The weekday, in days after Monday.
    pub weekday: Option<u16>,
    pub iso_week: Option<u16>,
    /// The week of the year, if weeks begin on Sunday.
    pub sunday_week: Option<u16>,
    /// The week of the year, if weeks begin on Monday.
    pub monday_week: Option<u16>,
    /// The hour of the 24-hour clock.
    pub hour: Option<u16>,
    /// The hour of the 12-hour clock, counted from 1.
    pub hour_12: Option<u16>,
    pub is_afternoon: Option<bool>,
    pub minute: Option<u16>,
    pub second: Option<u16>,
    pub subsecond: Option<Fraction>,
    /// The hours of the offset, with the sign of the whole offset.
    pub offset_hour: Option<Signed>,
    pub offset_minute: Option<u16>,
    pub offset_second: Option<u16>,
    pub unix_second: Option<Signed>,
    pub unix_millisecond: Option<Signed>,
    pub unix_microsecond: Option<Signed>,
    pub unix_nanosecond: Option<Signed>,
}

/// A number with its sign. 0 may have a sign too: half an hour west of UTC has the hours -0.
#[derive(Debug, Clone, Copy)]
pub struct Signed {
    pub is_negative: bool,
    pub magnitude: u128,
}

/// A part of a second, known to some number of digits.
#[derive(Debug, Clone, Copy)]
pub struct Fraction {
    /// How many digits are known, from 1 to 9.
    pub digits: u16,
    /// The nanoseconds, with 0 for each digit that isn't known.
    pub nanosecond: u128,
}

/// A field that holds a number without a sign.
#[derive(Clone, Copy)]
pub(crate) enum Count {
    YearLastTwo,
    IsoYearLastTwo,
    Month,
    Day,
    Ordinal,
    Weekday,
    IsoWeek,
    SundayWeek,
    MondayWeek,
    Hour,
    Hour12,
    Minute,
    Second,
    OffsetMinute,
    OffsetSecond,
}

/// A field that holds a number with its sign.
#[derive(Clone, Copy)]
pub(crate) enum Amount {
    Year,
    Century,
    IsoYear,
    IsoCentury,
    OffsetHour,
    UnixSecond,
    UnixMillisecond,
    UnixMicrosecond,
    UnixNanosecond,
}

/// Nothing was read.
pub const NO_FIELDS: Fields = Fields {
    year: None,
    century: None,
    year_last_two: None,
    iso_year: None,
    iso_century: None,
    iso_year_last_two: None,
    month: None,
    day: None,
    ordinal: None,
    weekday: None,
    iso_week: None,
    sunday_week: None,
    monday_week: None,
    hour: None,
    hour_12: None,
    is_afternoon: None,
    minute: None,
    second: None,
    subsecond: None,
    offset_hour: None,
    offset_minute: None,
    offset_second: None,
    unix_second: None,
    unix_millisecond: None,
    unix_microsecond: None,
    unix_nanosecond: None,
};

impl Fields {
    /// The value that was read for a field without a sign.
    pub(crate) fn count(&self, field: Count) -> Option<u16>
        ensures { result ≡ spec.count self.now field }
    {
        match field {
            Count::YearLastTwo => self.year_last_two,
            Count::IsoYearLastTwo => self.iso_year_last_two,
            Count::Month => self.month,
            Count::Day => self.day,
            Count::Ordinal => self.ordinal,
            Count::Weekday => self.weekday,
            Count::IsoWeek => self.iso_week,
            Count::SundayWeek => self.sunday_week,
            Count::MondayWeek => self.monday_week,
            Count::Hour => self.hour,
            Count::Hour12 => self.hour_12,
            Count::Minute => self.minute,
            Count::Second => self.second,
            Count::OffsetMinute => self.offset_minute,
            Count::OffsetSecond => self.offset_second,
        }
    }

    /// Sets a field without a sign.
    pub(crate) fn set_count(&mut self, field: Count, number: u16)
        ensures { self.new ≡ spec.with_count self.old field number }
    {
        let value = Some(number);
        match field {
            Count::YearLastTwo => self.year_last_two = value,
            Count::IsoYearLastTwo => self.iso_year_last_two = value,
            Count::Month => self.month = value,
            Count::Day => self.day = value,
            Count::Ordinal => self.ordinal = value,
            Count::Weekday => self.weekday = value,
            Count::IsoWeek => self.iso_week = value,
            Count::SundayWeek => self.sunday_week = value,
            Count::MondayWeek => self.monday_week = value,
            Count::Hour => self.hour = value,
            Count::Hour12 => self.hour_12 = value,
            Count::Minute => self.minute = value,
            Count::Second => self.second = value,
            Count::OffsetMinute => self.offset_minute = value,
            Count::OffsetSecond => self.offset_second = value,
        }
    }

    /// The value that was read for a field with a sign.
    pub(crate) fn amount(&self, field: Amount) -> Option<Signed>
        ensures { result ≡ spec.amount self.now field }
    {
        match field {
            Amount::Year => self.year,
            Amount::Century => self.century,
            Amount::IsoYear => self.iso_year,
            Amount::IsoCentury => self.iso_century,
            Amount::OffsetHour => self.offset_hour,
            Amount::UnixSecond => self.unix_second,
            Amount::UnixMillisecond => self.unix_millisecond,
            Amount::UnixMicrosecond => self.unix_microsecond,
            Amount::UnixNanosecond => self.unix_nanosecond,
        }
    }

    /// Sets a field with a sign.
    pub(crate) fn set_amount(&mut self, field: Amount, number: Signed)
        ensures { self.new ≡ spec.with_amount self.old field number }
    {
        let value = Some(number);
        match field {
            Amount::Year => self.year = value,
            Amount::Century => self.century = value,
            Amount::IsoYear => self.iso_year = value,
            Amount::IsoCentury => self.iso_century = value,
            Amount::OffsetHour => self.offset_hour = value,
            Amount::UnixSecond => self.unix_second = value,
            Amount::UnixMillisecond => self.unix_millisecond = value,
            Amount::UnixMicrosecond => self.unix_microsecond = value,
            Amount::UnixNanosecond => self.unix_nanosecond = value,
        }
    }
}
