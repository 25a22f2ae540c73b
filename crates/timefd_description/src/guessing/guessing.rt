//! The descriptions that read all texts.

ghost use Rattle.std.specs.Prelude.{◌≤◌, All, IfOk, OnOk, length};
ghost use Rattle.timefd_description.specs.Guessing.Candidates.{all_entries, entries, entry_of};
ghost use Rattle.timefd_description.specs.Guessing.Found as spec;

use crate::guessing::candidate::Candidate;
use crate::guessing::candidates::all_groups;
use crate::guessing::comes_back::reads_all;
use crate::guessing::swapped::undecided;
use std::alloc::{AllocError, Global};

/// The most descriptions that are offered.
pub const MOST: usize = 12;

/// A description that reads all texts.
#[derive(Clone, Copy)]
pub struct Guess {
    /// The description, in version 3.
    pub description: &'static str,
    /// How many of the texts can be read with day and month swapped too, so that they don't show which is
    /// which.
    pub undecided: usize,
}

/// The descriptions that texts of dates and times may be written by, likeliest first, at most [`MOST`]. Each
/// of them reads each text as a date, a time or both, and writes it back byte for byte.
///
/// An `Err` says that memory ran out.
#[tactic(auto, using(crate::proofs::GuessingLemmas::FoundLemmas::guesses_read))]
pub fn guesses(alloc: Global, texts: &[&str]) -> Result<Vec<Guess>, AllocError>
    // The first twelve candidates that read all texts and write them back.
    ensures first { IfOk result (λ found. spec.AreGuesses all_entries (spec.texts texts.now)
        found.items) }

    // Each description reads each text as a moment, and writing that moment gives the text again.
    ensures reads { IfOk result (λ found. All (spec.ReadsBack (spec.texts texts.now)) found.items) }
    ensures few { IfOk result (λ found. length found.items ≤ 12) }
{
    let mut found = found_of_all(alloc, texts)?;
    found.truncate(MOST);
    Ok(found)
}

/// All candidates that read all texts.
#[tactic(auto, using(crate::proofs::GuessingLemmas::FoundLemmas::none_found, crate::proofs::GuessingLemmas::FoundLemmas::one_group, crate::proofs::GuessingLemmas::FoundLemmas::all_in_groups))]
fn found_of_all(alloc: Global, texts: &[&str]) -> Result<Vec<Guess>, AllocError>
    ensures { IfOk result (λ found. spec.AreFound all_entries (spec.texts texts.now) found.items) }
{
    let mut found = Vec::new(alloc);
    let mut rest = all_groups();
    'groups: while let [group, after @ ..] = rest {
        push_found(alloc, &mut found, group.rows(), texts)?;
        rest = after;
    }
    Ok(found)
}

/// Appends the candidates that read all texts.
#[tactic(auto, using(crate::proofs::GuessingLemmas::FoundLemmas::none_found, crate::proofs::GuessingLemmas::FoundLemmas::one_found, crate::proofs::GuessingLemmas::FoundLemmas::all_found))]
fn push_found(
    alloc: Global,
    found: &mut Vec<Guess>,
    candidates: &'static [Candidate],
    texts: &[&str],
) -> Result<(), AllocError>
    ensures { OnOk result (spec.Adds (entries candidates.now) (spec.texts texts.now)
        found.old.items found.new.items) }
{
    let mut rest = candidates;
    'candidates: while let [candidate, after @ ..] = rest {
        push_if(alloc, found, *candidate, texts)?;
        rest = after;
    }
    Ok(())
}

/// Appends the candidate if it reads all texts.
fn push_if(
    alloc: Global,
    found: &mut Vec<Guess>,
    candidate: Candidate,
    texts: &[&str],
) -> Result<(), AllocError>
    ensures { OnOk result (spec.Appends (entry_of candidate) (spec.texts texts.now) found.old.items
        found.new.items) }
{
    if reads_all(alloc, candidate.description, texts)? {
        found.push(Guess {
            description: candidate.description,
            undecided: undecided(alloc, candidate.swapped, texts)?,
        })?;
    }
    Ok(())
}
