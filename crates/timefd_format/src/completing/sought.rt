//! A date that agrees with what was read, sought year by year. Years are counted from the year -1,000,000.

ghost use Rattle.std.specs.Prelude.{◌≡◌, ◌≤◌};
ghost use Rattle.timefd_format.specs.Completing.Sought.{IsSought};
ghost use Rattle.timefd_format.specs.Completing.Years.{IsOfYears, first_year};

use crate::completing::fields::filled;
use crate::completing::years::{first_year, fits};
use timefd_date_moment::Date;
use timefd_date_moment::fields::Fields;
use timefd_date_moment::reading::date;

// How many years are tried: a period of the calendar, the year before it and the one after it.
const YEARS: u32 = 402;

/// A date that agrees with all that was read of one. `None` if there is none in 402 years: from the one before
/// the year or the century that was read on, or from the year 2000 on if neither was.
pub fn agreeing_date(fields: &Fields) -> Option<Date>
    ensures { IsSought (IsOfYears (first_year fields.now)) fields.now result }
{
    date_from(fields, first_year(fields))
}

#[tactic(auto, using(crate::proofs::CompletingLemmas::SoughtLemmas::no_years_yet, crate::proofs::CompletingLemmas::SoughtLemmas::next_year, crate::proofs::CompletingLemmas::SoughtLemmas::all_years))]
fn date_from(fields: &Fields, first: u32) -> Option<Date>
    requires { first ≤ 2000000 }
    ensures { IsSought (IsOfYears first) fields.now result }
{
    let mut years = first;
    'years: while years < first + YEARS {
        if let Some(date) = date_in_year(fields, years) {
            return Some(date);
        }
        years += 1;
    }
    None
}

fn date_in_year(fields: &Fields, years: u32) -> Option<Date>
    ensures { IsSought (λ d. d.years ≡ years) fields.now result }
{
    if !fits(fields, years) {
        return None;
    }
    match fields.month {
        Some(month) => date_in_month(fields, years, month),
        None => date_in_any_month(fields, years),
    }
}

#[tactic(auto, using(crate::proofs::CompletingLemmas::SoughtLemmas::no_months_yet, crate::proofs::CompletingLemmas::SoughtLemmas::next_month, crate::proofs::CompletingLemmas::SoughtLemmas::all_months))]
fn date_in_any_month(fields: &Fields, years: u32) -> Option<Date>
    ensures { IsSought (λ d. d.years ≡ years) fields.now result }
{
    let mut month: u16 = 1;
    'months: while month <= 12 {
        if let Some(date) = date_in_month(fields, years, month) {
            return Some(date);
        }
        month += 1;
    }
    None
}

fn date_in_month(fields: &Fields, years: u32, month: u16) -> Option<Date>
    ensures { IsSought (λ d. (d.years ≡ years) × (d.month ≡ month)) fields.now result }
{
    match fields.day {
        Some(day) => date_on_day(fields, years, month, day),
        None => date_on_any_day(fields, years, month),
    }
}

#[tactic(auto, using(crate::proofs::CompletingLemmas::SoughtLemmas::no_days_yet, crate::proofs::CompletingLemmas::SoughtLemmas::next_day, crate::proofs::CompletingLemmas::SoughtLemmas::all_days))]
fn date_on_any_day(fields: &Fields, years: u32, month: u16) -> Option<Date>
    ensures { IsSought (λ d. (d.years ≡ years) × (d.month ≡ month)) fields.now result }
{
    let mut day: u16 = 1;
    'days: while day <= 31 {
        if let Some(date) = date_on_day(fields, years, month, day) {
            return Some(date);
        }
        day += 1;
    }
    None
}

/// The date of the year, the month and the day: of those that were read, and otherwise of these.
#[tactic(auto, using(crate::proofs::CompletingLemmas::SoughtLemmas::on_day))]
fn date_on_day(fields: &Fields, years: u32, month: u16, day: u16) -> Option<Date>
    ensures { IsSought (λ d. (d.years ≡ years) × (d.month ≡ month) × (d.day ≡ day)) fields.now
        result }
{
    match date(&filled(fields, years, month, day)) {
        Ok(date) => Some(date),
        Err(_) => None,
    }
}
