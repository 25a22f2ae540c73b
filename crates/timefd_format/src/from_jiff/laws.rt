//! Laws about equal values in both libraries.

ghost use Rattle.timefd_format.specs.FromJiff.InForce.{BeforeAll, LastInForce};
ghost use Rattle.timefd_format.specs.FromJiff.Laws.{SameDays};

/// A date has the same weekday in both libraries, and its two day numbers always differ by the same
/// amount.
pub fn same_days()
    ensures { SameDays }
{}

/// In a zone's table, the last transition that is not after an instant sets the offset.
#[tactic(auto, using(crate::proofs::JiffLemmas::InForceLemmas::last_in_force))]
pub fn last_in_force()
    ensures { LastInForce }
{}

/// Before all transitions of its table, a zone has its first offset.
#[tactic(auto, using(crate::proofs::JiffLemmas::InForceLemmas::before_all))]
pub fn before_all()
    ensures { BeforeAll }
{}
