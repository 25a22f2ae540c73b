//! English names.

ghost use Rattle.std.specs.Prelude.{◌≡◌, ◌-◌, ◌≤◌};
ghost use Rattle.timefd_lang_component.specs.Texts.{long_months, long_weekdays, short_months, short_weekdays};
ghost use Rattle.timefd_date_format.specs.Fields as spec;
ghost use Rattle.timefd_date_format.specs.Fields.{name_at};

/// The name of a month, counted from 1.
pub(crate) fn month_long(month: u8) -> &'static str
    requires first { 1 ≤ month }
    requires last { month ≤ 12 }
    ensures { result.now ≡ name_at long_months (month - 1) }
{
    match month {
        1 => "January",
        2 => "February",
        3 => "March",
        4 => "April",
        5 => "May",
        6 => "June",
        7 => "July",
        8 => "August",
        9 => "September",
        10 => "October",
        11 => "November",
        _ => "December",
    }
}

pub(crate) fn month_short(month: u8) -> &'static str
    requires first { 1 ≤ month }
    requires last { month ≤ 12 }
    ensures { result.now ≡ name_at short_months (month - 1) }
{
    match month {
        1 => "Jan",
        2 => "Feb",
        3 => "Mar",
        4 => "Apr",
        5 => "May",
        6 => "Jun",
        7 => "Jul",
        8 => "Aug",
        9 => "Sep",
        10 => "Oct",
        11 => "Nov",
        _ => "Dec",
    }
}

/// The name of a weekday, counted in days after Monday.
pub(crate) fn weekday_long(day: u8) -> &'static str
    requires { day ≤ 6 }
    ensures { result.now ≡ name_at long_weekdays day }
{
    match day {
        0 => "Monday",
        1 => "Tuesday",
        2 => "Wednesday",
        3 => "Thursday",
        4 => "Friday",
        5 => "Saturday",
        _ => "Sunday",
    }
}

pub(crate) fn weekday_short(day: u8) -> &'static str
    requires { day ≤ 6 }
    ensures { result.now ≡ name_at short_weekdays day }
{
    match day {
        0 => "Mon",
        1 => "Tue",
        2 => "Wed",
        3 => "Thu",
        4 => "Fri",
        5 => "Sat",
        _ => "Sun",
    }
}

pub(crate) fn period(is_uppercase: bool, is_afternoon: bool) -> &'static str
    ensures { result.now ≡ spec.period_text is_uppercase is_afternoon }
{
    match (is_uppercase, is_afternoon) {
        (true, false) => "AM",
        (true, true) => "PM",
        (false, false) => "am",
        (false, true) => "pm",
    }
}
