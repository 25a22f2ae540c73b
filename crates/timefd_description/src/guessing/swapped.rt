//! Whether texts show which number is the day and which is the month.

ghost use Rattle.std.specs.Prelude.{◌≡◌, ◌<◌, ◌+◌, ◌^◌, IfOk};
ghost use Rattle.timefd_description.specs.Guessing.Candidates.{text_option};
ghost use Rattle.timefd_description.specs.Guessing.Found as spec;
ghost use Rattle.timefd_lang_node_list.specs.Views.{view_tree};

use crate::description::Description;
use crate::guessing::comes_back::comes_back;
use std::alloc::{AllocError, Global};
use timefd_lang_fault::BorrowedParseError;
use timefd_lang_node_list::View;
use timefd_parse::{DescriptionVersion, Language};

/// How many texts the description with day and month swapped reads and writes back too. 0 if there is no
/// such description. An `Err` says that memory ran out.
pub fn undecided(alloc: Global, swapped: Option<&str>, texts: &[&str]) -> Result<usize, AllocError>
    ensures { IfOk result (spec.AreUndecided (text_option swapped.entry) (spec.texts texts.now)) }
{
    match swapped {
        Some(description) => read_by(alloc, description, texts),
        None => Ok(0),
    }
}

/// How many texts the description reads and writes back.
fn read_by(alloc: Global, description: &str, texts: &[&str]) -> Result<usize, AllocError>
    ensures { IfOk result (spec.ReadBy description.now (spec.texts texts.now)) }
{
    match Description::parse(
        alloc,
        Language::Version(DescriptionVersion::Three),
        description,
    ) {
        Ok(description) => count(alloc, description.view(), texts),
        Err(BorrowedParseError::Invalid(_)) => Ok(0),
        Err(BorrowedParseError::Memory(error)) => Err(error),
    }
}

/// How many texts come back.
#[tactic(auto, using(crate::proofs::GuessingLemmas::FoundLemmas::none_counted, crate::proofs::GuessingLemmas::FoundLemmas::one_counted, crate::proofs::GuessingLemmas::FoundLemmas::all_counted))]
fn count(alloc: Global, view: View<'_, '_>, texts: &[&str]) -> Result<usize, AllocError>
    ensures { IfOk result (spec.Counts (view_tree view.entry) (spec.texts texts.now)) }
{
    let mut count = 0;
    let mut rest = texts;
    'texts: while let [text, after @ ..] = rest {
        let yes = comes_back(alloc, view, text)?;
        count = counted(count, yes);
        rest = after;
    }
    Ok(count)
}

/// The count, plus one if `yes`.
fn counted(count: usize, yes: bool) -> usize
    requires { count < 2 ^ 63 }
    ensures { result ≡ count + spec.one_if yes }
{
    if yes { count + 1 } else { count }
}
