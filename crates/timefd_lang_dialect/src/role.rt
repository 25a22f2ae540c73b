//! What a directive says of a moment, as far as traps depend on it.

ghost use Rattle.std.specs.Prelude.{◌≡◌, ◌<◌, length};
ghost use Rattle.timefd_lang_dialect.specs.Roles as spec;
ghost use Rattle.timefd_lang_dialect.specs.Rows.{entry_of, meaning_of};

use crate::dialect::Dialect;
use crate::row::{Row, Verdict};

/// What a directive says of a moment.
#[derive(Clone, Copy)]
pub enum Role {
    /// Anything that no trap depends on.
    Other,
    Year,
    YearOfTwoDigits,
    WeekYear,
    Month,
    Day,
    DayOfYear,
    HourOf24,
    HourOf12,
    Period,
    Minute,
    Second,
    TwoLetterWeekday,
    WeekdayFromZero,
    /// What makes chrono panic.
    Panic,
}

/// What the directive of a row says.
pub fn role_of(dialect: Dialect, row: &Row) -> Role
    requires { 0 < length row.now.text.now }
    ensures { result ≡ spec.role_of dialect (entry_of row.now) }
{
    match dialect {
        Dialect::Python | Dialect::C | Dialect::Gnu | Dialect::Jiff | Dialect::Ruby => {
            strftime_role(last_byte(row.text))
        }
        Dialect::Chrono => if is_panic(row.verdict) {
            Role::Panic
        } else {
            strftime_role(last_byte(row.text))
        },
        Dialect::Java => java_role(first_byte(row.text), row.text.len()),
        Dialect::Go => go_role(row.text),
        Dialect::Moment => moment_role(first_byte(row.text), row.text.len()),
    }
}

fn first_byte(text: &str) -> u8
    requires { 0 < length text.now }
    ensures { result ≡ spec.first_of text.now }
{
    text.as_bytes()[0]
}

fn last_byte(text: &str) -> u8
    requires { 0 < length text.now }
    ensures { result ≡ spec.last_of text.now }
{
    text.as_bytes()[text.len() - 1]
}

/// Whether chrono panics when it writes this.
fn is_panic(verdict: Verdict) -> bool
    ensures { result ≡ spec.is_panic (meaning_of verdict) }
{
    match verdict {
        Verdict::Written(_, _) => false,
        Verdict::Refused(reason) => reason.is_unknown(),
    }
}

/// What a letter of strftime says.
fn strftime_role(letter: u8) -> Role
    ensures { result ≡ spec.strftime_role letter }
{
    match letter {
        b'Y' | b'C' | b'F' | b'c' => Role::Year,
        b'y' | b'D' | b'x' => Role::YearOfTwoDigits,
        b'G' => Role::WeekYear,
        b'm' | b'b' | b'B' | b'h' => Role::Month,
        b'd' | b'e' => Role::Day,
        b'j' => Role::DayOfYear,
        b'H' | b'k' => Role::HourOf24,
        b'I' | b'l' => Role::HourOf12,
        b'p' | b'P' => Role::Period,
        b'M' => Role::Minute,
        b'S' => Role::Second,
        b'w' => Role::WeekdayFromZero,
        _ => Role::Other,
    }
}

/// What this many of a letter of Java say.
fn java_role(letter: u8, count: usize) -> Role
    ensures { result ≡ spec.java_role letter count }
{
    match letter {
        b'y' | b'u' => year_role(count),
        b'Y' => Role::WeekYear,
        b'M' | b'L' => Role::Month,
        b'd' => Role::Day,
        b'D' => Role::DayOfYear,
        b'H' | b'k' => Role::HourOf24,
        b'h' | b'K' => Role::HourOf12,
        b'a' | b'B' => Role::Period,
        b'm' => Role::Minute,
        b's' => Role::Second,
        _ => Role::Other,
    }
}

/// What a token of moment says that begins with the letter and has this many bytes.
fn moment_role(letter: u8, count: usize) -> Role
    ensures { result ≡ spec.moment_role letter count }
{
    match letter {
        b'Y' => year_role(count),
        b'G' | b'g' => Role::WeekYear,
        b'M' => Role::Month,
        b'D' => if count < 3 {
            Role::Day
        } else {
            Role::DayOfYear
        },
        b'd' => if count == 2 {
            Role::TwoLetterWeekday
        } else {
            Role::Other
        },
        b'H' | b'k' => Role::HourOf24,
        b'h' => Role::HourOf12,
        b'A' | b'a' => Role::Period,
        b'm' => Role::Minute,
        b's' => Role::Second,
        _ => Role::Other,
    }
}

fn year_role(count: usize) -> Role
    ensures { result ≡ spec.year_role count }
{
    if count == 2 {
        Role::YearOfTwoDigits
    } else {
        Role::Year
    }
}

/// What a part of Go's reference time says.
fn go_role(text: &str) -> Role
    ensures { result ≡ spec.go_role text.now }
{
    match text {
        "2006" | "_2006" => Role::Year,
        "06" => Role::YearOfTwoDigits,
        "01" | "1" | "Jan" | "January" => Role::Month,
        "02" | "2" | "_2" => Role::Day,
        "002" | "__2" => Role::DayOfYear,
        "15" => Role::HourOf24,
        "03" | "3" => Role::HourOf12,
        "PM" | "pm" => Role::Period,
        "04" | "4" => Role::Minute,
        "05" | "5" => Role::Second,
        _ => Role::Other,
    }
}
