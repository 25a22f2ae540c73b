//! What `{}` writes: the forms of ISO 8601.

ghost use Rattle.std.specs.Prelude.{◌≡◌, ◌+◌, ◌<◌, [], ◌∷◌, Some};
ghost use Rattle.std.specs.Fmt.{WritesOnOk};
ghost use Rattle.timefd_date_moment.specs.Display as spec;

use crate::date::Date;
use crate::moment::Moment;
use crate::offset::UtcOffset;
use crate::time::Time;
use crate::unix_time::UnixTime;
use std::fmt;

impl fmt::Display for Date {
    ghost output = { λ d. Some (spec.date_text d) };

    fn fmt<W: fmt::Write>(&self, f: &mut fmt::Formatter<W>) -> fmt::Result {
        year(f, *self)?;
        f.write_str("-")?;
        two_digits(f, u32::from(self.month))?;
        f.write_str("-")?;
        two_digits(f, u32::from(self.day))
    }
}

impl fmt::Display for Time {
    ghost output = { λ t. Some (spec.time_text t) };

    fn fmt<W: fmt::Write>(&self, f: &mut fmt::Formatter<W>) -> fmt::Result {
        two_digits(f, u32::from(self.hour))?;
        f.write_str(":")?;
        two_digits(f, u32::from(self.minute))?;
        f.write_str(":")?;
        two_digits(f, u32::from(self.second))?;
        fraction(f, self.nanosecond)
    }
}

impl fmt::Display for UtcOffset {
    ghost output = { λ o. Some (spec.offset_text o) };

    fn fmt<W: fmt::Write>(&self, f: &mut fmt::Formatter<W>) -> fmt::Result {
        f.write_str(if self.is_negative { "-" } else { "+" })?;
        two_digits(f, self.seconds / 3_600)?;
        f.write_str(":")?;
        two_digits(f, self.seconds / 60 % 60)?;
        offset_seconds(f, self.seconds % 60)
    }
}

/// The parts that are known, one after another, with a `T` between a date and a time.
impl fmt::Display for Moment {
    ghost output = { λ m. Some (spec.moment_text m) };

    fn fmt<W: fmt::Write>(&self, f: &mut fmt::Formatter<W>) -> fmt::Result {
        known_date(f, self.date)?;
        f.write_str(between(self.date, self.time))?;
        known_time(f, self.time)?;
        known_offset(f, self.offset)
    }
}

/// The seconds after the start of 1970. Before 1970 they are negative.
impl fmt::Display for UnixTime {
    ghost output = { λ u. Some (spec.unix_text u) };

    fn fmt<W: fmt::Write>(&self, f: &mut fmt::Formatter<W>) -> fmt::Result {
        f.write_str(if self.is_negative { "-" } else { "" })?;
        write!(f, "{}", self.nanoseconds / 1_000_000_000)?;
        fraction(f, (self.nanoseconds % 1_000_000_000) as u32)
    }
}

fn known_date<W: fmt::Write>(f: &mut fmt::Formatter<W>, date: Option<Date>) -> fmt::Result
    ensures { WritesOnOk W.write_str_gives f.old result (spec.known_date date) f.new }
{
    match date {
        Some(date) => write!(f, "{date}"),
        None => Ok(()),
    }
}

fn between(date: Option<Date>, time: Option<Time>) -> &'static str
    ensures { result.now ≡ spec.between date time }
{
    match (date, time) {
        (Some(_), Some(_)) => "T",
        (None, _) | (Some(_), None) => "",
    }
}

fn known_time<W: fmt::Write>(f: &mut fmt::Formatter<W>, time: Option<Time>) -> fmt::Result
    ensures { WritesOnOk W.write_str_gives f.old result (spec.known_time time) f.new }
{
    match time {
        Some(time) => write!(f, "{time}"),
        None => Ok(()),
    }
}

fn known_offset<W: fmt::Write>(f: &mut fmt::Formatter<W>, offset: Option<UtcOffset>) -> fmt::Result
    ensures { WritesOnOk W.write_str_gives f.old result (spec.known_offset offset) f.new }
{
    match offset {
        Some(offset) => write!(f, "{offset}"),
        None => Ok(()),
    }
}

fn year<W: fmt::Write>(f: &mut fmt::Formatter<W>, date: Date) -> fmt::Result
    ensures { WritesOnOk W.write_str_gives f.old result (spec.year_text date.years) f.new }
{
    let sign = year_sign(date);
    let magnitude = date.year_magnitude();
    f.write_str(sign)?;
    two_digits(f, magnitude / 100)?;
    two_digits(f, magnitude % 100)
}

fn year_sign(date: Date) -> &'static str
    ensures { result.now ≡ spec.year_sign date.years }
{
    if date.years < 1_000_000 {
        "-"
    } else if date.year_magnitude() >= 10_000 {
        "+"
    } else {
        ""
    }
}

fn fraction<W: fmt::Write>(f: &mut fmt::Formatter<W>, nanosecond: u32) -> fmt::Result
    ensures { WritesOnOk W.write_str_gives f.old result (spec.fraction_text nanosecond) f.new }
{
    if nanosecond == 0 {
        return Ok(());
    }
    f.write_str(".")?;
    two_digits(f, nanosecond / 10_000_000)?;
    two_digits(f, nanosecond / 100_000 % 100)?;
    two_digits(f, nanosecond / 1_000 % 100)?;
    two_digits(f, nanosecond / 10 % 100)?;
    write!(f, "{}", nanosecond % 10)
}

fn offset_seconds<W: fmt::Write>(f: &mut fmt::Formatter<W>, seconds: u32) -> fmt::Result
    ensures { WritesOnOk W.write_str_gives f.old result (spec.offset_seconds_text seconds) f.new }
{
    if seconds == 0 {
        return Ok(());
    }
    f.write_str(":")?;
    two_digits(f, seconds)
}

fn two_digits<W: fmt::Write>(f: &mut fmt::Formatter<W>, n: u32) -> fmt::Result
    ensures { WritesOnOk W.write_str_gives f.old result (spec.two_digits n) f.new }
{
    if n >= 100 {
        return write!(f, "{n}");
    }
    digit(f, n / 10)?;
    digit(f, n % 10)
}

fn digit<W: fmt::Write>(f: &mut fmt::Formatter<W>, d: u32) -> fmt::Result
    requires { d < 10 }
    ensures { WritesOnOk W.write_str_gives f.old result ((48 + d) ∷ []) f.new }
{
    f.write_char(char::from(b'0' + d as u8))
}
