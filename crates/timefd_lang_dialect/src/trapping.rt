//! Which directives of a format are traps.

ghost use Rattle.std.specs.Prelude.{◌≡◌, ◌++◌, IfOk, OnOk};
ghost use Rattle.timefd_lang_dialect.specs.Traps as spec;

use crate::dialect::Dialect;
use crate::role::Role;
use crate::spot::{Spot, spots};
use crate::trap::Trap;
use std::alloc::{AllocError, Global};

/// A trap, and where the directive is.
#[derive(Clone, Copy)]
pub struct Found {
    /// Which trap it is.
    pub trap: Trap,
    /// The index of the directive's first byte in the format.
    pub start: usize,
    /// The index after the directive's last byte.
    pub end: usize,
}

/// What a whole format has of what traps depend on.
#[derive(Clone, Copy)]
pub struct Present {
    /// Whether there is a month.
    pub month: bool,
    /// Whether something writes AM or PM.
    pub period: bool,
    /// Whether there is a year with its century.
    pub year: bool,
}

/// What a neighbouring directive says, as far as traps depend on it.
#[derive(Clone, Copy)]
pub enum Beside {
    Day,
    Hour,
    Minute,
    Other,
}

/// The traps of a format, from the left. Parts that have no text of version 3 are looked at too.
///
/// An `Err` says that memory ran out.
pub fn traps(alloc: Global, dialect: Dialect, format: &str) -> Result<Vec<Found>, AllocError>
    // These are all traps of the format, in order.
    ensures { IfOk result (λ found. spec.AreTraps dialect format.now found.items) }
{
    let spots = spots(alloc, dialect, format)?;
    traps_in(alloc, &spots)
}

/// The traps among the directives of a format.
fn traps_in(alloc: Global, spots: &[Spot]) -> Result<Vec<Found>, AllocError>
    ensures { IfOk result (λ found. found.items ≡ spec.traps_in spots.now) }
{
    let present = present_in(spots);
    let mut found = Vec::new(alloc);
    let mut before = Beside::Other;
    let mut rest = spots;
    'spots: while let [spot, after @ ..] = rest {
        let trap = trap_of(present, before, spot.role, first_beside(after));
        push_found(&mut found, *spot, trap)?;
        before = beside_of(spot.role);
        rest = after;
    }
    Ok(found)
}

/// Appends the trap of a directive, if it is one.
fn push_found(found: &mut Vec<Found>, spot: Spot, trap: Option<Trap>) -> Result<(), AllocError>
    ensures { OnOk result (found.new.items ≡ found.old.items ++ spec.found_at spot trap) }
{
    if let Some(trap) = trap {
        found.push(Found {
            trap,
            start: spot.start,
            end: spot.end,
        })?;
    }
    Ok(())
}

/// What these directives have of what traps depend on.
fn present_in(spots: &[Spot]) -> Present
    ensures { result ≡ spec.present_in spots.now }
{
    let mut present = Present {
        month: false,
        period: false,
        year: false,
    };
    let mut rest = spots;
    'spots: while let [spot, after @ ..] = rest {
        present = present.with(spot.role);
        rest = after;
    }
    present
}

impl Present {
    /// What is there with one more directive.
    fn with(self, role: Role) -> Self
        ensures { result ≡ spec.with_role role self }
    {
        match role {
            Role::Month => Present {
                month: true,
                period: self.period,
                year: self.year,
            },
            Role::Period => Present {
                month: self.month,
                period: true,
                year: self.year,
            },
            Role::Year | Role::WeekYear => Present {
                month: self.month,
                period: self.period,
                year: true,
            },
            Role::Other
            | Role::YearOfTwoDigits
            | Role::Day
            | Role::DayOfYear
            | Role::HourOf24
            | Role::HourOf12
            | Role::Minute
            | Role::Second
            | Role::TwoLetterWeekday
            | Role::WeekdayFromZero
            | Role::Panic => self,
        }
    }
}

/// What the first of these directives says.
fn first_beside(spots: &[Spot]) -> Beside
    ensures { result ≡ spec.first_beside spots.now }
{
    match spots {
        [spot, ..] => beside_of(spot.role),
        [] => Beside::Other,
    }
}

fn beside_of(role: Role) -> Beside
    ensures { result ≡ spec.beside_of role }
{
    match role {
        Role::Day => Beside::Day,
        Role::HourOf24 | Role::HourOf12 => Beside::Hour,
        Role::Minute => Beside::Minute,
        Role::Other
        | Role::Year
        | Role::YearOfTwoDigits
        | Role::WeekYear
        | Role::Month
        | Role::DayOfYear
        | Role::Period
        | Role::Second
        | Role::TwoLetterWeekday
        | Role::WeekdayFromZero
        | Role::Panic => Beside::Other,
    }
}

/// The trap that a directive is, by its neighbours and by all directives of the format.
fn trap_of(present: Present, before: Beside, role: Role, after: Beside) -> Option<Trap>
    ensures { result ≡ spec.trap_of present before role after }
{
    match role {
        Role::Other | Role::Year | Role::Month | Role::Day | Role::HourOf24 | Role::Period => None,
        Role::YearOfTwoDigits => where_it_is(!present.year, Trap::YearWithoutCentury),
        Role::WeekYear => where_it_is(present.month, Trap::WeekYearBesideMonth),
        Role::DayOfYear => where_it_is(present.month, Trap::DayOfYearBesideMonth),
        Role::HourOf12 => where_it_is(!present.period, Trap::HourWithoutPeriod),
        Role::Minute => minute_trap(before, after),
        Role::Second => second_trap(after),
        Role::TwoLetterWeekday => Some(Trap::TwoLetterWeekday),
        Role::WeekdayFromZero => Some(Trap::WeekdayFromZero),
        Role::Panic => Some(Trap::Panic),
    }
}

fn where_it_is(is_there: bool, trap: Trap) -> Option<Trap>
    ensures { result ≡ spec.where_it_is is_there trap }
{
    if is_there { Some(trap) } else { None }
}

/// The trap that a minute is: beside a day, with no hour before it.
fn minute_trap(before: Beside, after: Beside) -> Option<Trap>
    ensures { result ≡ spec.minute_trap before after }
{
    match before {
        Beside::Day => Some(Trap::MinuteBesideDay),
        Beside::Hour => None,
        Beside::Minute | Beside::Other => match after {
            Beside::Day => Some(Trap::MinuteBesideDay),
            Beside::Hour | Beside::Minute | Beside::Other => None,
        },
    }
}

/// The trap that a second is: right before a minute.
fn second_trap(after: Beside) -> Option<Trap>
    ensures { result ≡ spec.second_trap after }
{
    match after {
        Beside::Minute => Some(Trap::SecondBeforeMinute),
        Beside::Day | Beside::Hour | Beside::Other => None,
    }
}
