//! Laws about the values that fields determine.

ghost use Rattle.timefd_date_moment.specs.Reading.Laws.{DateBack, OffsetBack, OneDate, OneOffset, OneTime, TimeBack};

/// Fields that determine a date agree with at most one date.
pub fn one_date()
    ensures { OneDate }
{}

/// Fields that determine a time of day agree with at most one time of day.
pub fn one_time()
    ensures { OneTime }
{}

/// Fields that determine an offset agree with at most one offset.
pub fn one_offset()
    ensures { OneOffset }
{}

/// If the fields read from a date determine a date, the result is that date.
#[tactic(auto, using(crate::proofs::ReadingLemmas::LawLemmas::date_back))]
pub fn date_back()
    ensures { DateBack }
{}

/// If the fields read from a time of day determine one, the result is that time of day.
#[tactic(auto, using(crate::proofs::ReadingLemmas::LawLemmas::time_back))]
pub fn time_back()
    ensures { TimeBack }
{}

/// If the fields read from an offset determine one, the result is that offset.
#[tactic(auto, using(crate::proofs::ReadingLemmas::LawLemmas::offset_back))]
pub fn offset_back()
    ensures { OffsetBack }
{}
