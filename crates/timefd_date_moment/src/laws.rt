//! Laws of the calendar. They hold however its definitions are written.

ghost use Rattle.timefd_date_moment.specs.Laws.{InstantKept, IsoWeeksCounted, LeapYears, MonthLengths, MonthsRepeat, MonthsSum, NewYear, NextDay, NextMonth, OneDate, UnixEpoch, WeekdaysFollow, YearsRepeat};

/// February has 29 days in every fourth year, but only in every fourth of the years that end a
/// century. In all others it has 28.
#[tactic(auto, using(crate::proofs::DayLemmas::leap_years))]
pub fn leap_years()
    ensures { LeapYears }
{}

/// Each month has the same number of days 400 years later.
#[tactic(auto, using(crate::proofs::DayLemmas::months_repeat))]
pub fn months_repeat()
    ensures { MonthsRepeat }
{}

/// April, June, September and November have 30 days. All others but February have 31.
pub fn month_lengths()
    ensures { MonthLengths }
{}

/// The days of the months add up to those of the year.
#[tactic(auto, using(crate::proofs::LawLemmas::months_sum))]
pub fn months_sum()
    ensures { MonthsSum }
{}

/// A period of 400 years has 146,097 days.
#[tactic(auto, using(crate::proofs::LawLemmas::years_repeat))]
pub fn years_repeat()
    ensures { YearsRepeat }
{}

/// The next day of the same month has the next day number.
#[tactic(auto, using(crate::proofs::DayLemmas::next_day))]
pub fn next_day()
    ensures { NextDay }
{}

/// The first day of a month comes after the last day of the month before.
#[tactic(auto, using(crate::proofs::DayLemmas::next_month))]
pub fn next_month()
    ensures { NextMonth }
{}

/// The day after 31 December is 1 January.
#[tactic(auto, using(crate::proofs::LawLemmas::new_year))]
pub fn new_year()
    ensures { NewYear }
{}

/// The weekday of the next day is the next one.
#[tactic(auto, using(crate::proofs::DayLemmas::weekdays_follow))]
pub fn weekdays_follow()
    ensures { WeekdaysFollow }
{}

/// 1 January 1970 was a Thursday, and its midnight in UTC is the instant 0.
pub fn unix_epoch()
    ensures { UnixEpoch }
{}

/// No two dates have the same day number.
#[tactic(auto, using(crate::proofs::LawLemmas::one_date))]
pub fn one_date()
    ensures { OneDate }
{}

/// Week 1 of ISO 8601 is the one with 4 January, and all weeks are counted from it.
#[tactic(auto, using(crate::proofs::LawLemmas::iso_weeks_counted))]
pub fn iso_weeks_counted()
    ensures { IsoWeeksCounted }
{}

/// The instant of a date, a time and an offset counts their nanoseconds in UTC.
#[tactic(auto, using(crate::proofs::LawLemmas::instant_kept))]
pub fn instant_kept()
    ensures { InstantKept }
{}
