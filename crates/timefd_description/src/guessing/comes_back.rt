//! Texts that a description reads and writes back.

ghost use Rattle.std.specs.Prelude.{IfOk};
ghost use Rattle.timefd_description.specs.Guessing.Found as spec;
ghost use Rattle.timefd_lang_node_list.specs.Views.{view_tree};
ghost use Rattle.timefd_date_moment.specs.Fields.Reads.{fields_of};

use crate::description::Description;
use std::alloc::{AllocError, Global};
use timefd_date_format::{TextError, format};
use timefd_date_moment::Moment;
use timefd_date_moment::fields::read_fields;
use timefd_date_moment::reading::moment;
use timefd_lang_fault::BorrowedParseError;
use timefd_lang_node_list::View;
use timefd_parse::{DescriptionVersion, Language};

/// Whether the description reads each text and writes it back. An `Err` says that memory ran out.
pub fn reads_all(alloc: Global, description: &str, texts: &[&str]) -> Result<bool, AllocError>
    ensures { IfOk result (spec.ReadsAll description.now (spec.texts texts.now)) }
{
    match Description::parse(
        alloc,
        Language::Version(DescriptionVersion::Three),
        description,
    ) {
        Ok(description) => all_come_back(alloc, description.view(), texts),
        Err(BorrowedParseError::Invalid(_)) => Ok(false),
        Err(BorrowedParseError::Memory(error)) => Err(error),
    }
}

/// Whether each text comes back. An `Err` says that memory ran out.
#[tactic(auto, using(crate::proofs::GuessingLemmas::FoundLemmas::comes_more, crate::proofs::GuessingLemmas::FoundLemmas::comes_not, crate::proofs::GuessingLemmas::FoundLemmas::all_came))]
fn all_come_back(alloc: Global, view: View<'_, '_>, texts: &[&str]) -> Result<bool, AllocError>
    ensures { IfOk result (spec.AllComeBack (view_tree view.entry) (spec.texts texts.now)) }
{
    let mut rest = texts;
    'texts: while let [text, after @ ..] = rest {
        if !comes_back(alloc, view, text)? {
            return Ok(false);
        }
        rest = after;
    }
    Ok(true)
}

/// Whether the text is read as a whole, and writing the moment that it shows gives the text again. An
/// `Err` says that memory ran out.
pub fn comes_back(alloc: Global, view: View<'_, '_>, text: &str) -> Result<bool, AllocError>
    ensures { IfOk result (spec.ComesBack (view_tree view.entry) text.now) }
{
    match moment_in(view, text) {
        Some(moment) => is_written(alloc, view, moment, text),
        None => Ok(false),
    }
}

/// The moment that the whole text shows.
fn moment_in(view: View<'_, '_>, text: &str) -> Option<Moment>
    ensures { spec.IsRead (fields_of (view_tree view.entry) text.now) result }
{
    match read_fields(view, text) {
        Ok(fields) => match moment(&fields) {
            Ok(moment) => Some(moment),
            Err(_) => None,
        },
        Err(_) => None,
    }
}

/// Whether writing the moment gives this text.
fn is_written(
    alloc: Global,
    view: View<'_, '_>,
    moment: Moment,
    text: &str,
) -> Result<bool, AllocError>
    ensures { IfOk result (spec.IsWritten (view_tree view.entry) moment text.now) }
{
    match format(alloc, moment, view) {
        Ok(written) => Ok(written.as_str() == text),
        Err(TextError::Unshown(_)) => Ok(false),
        Err(TextError::Memory(error)) => Err(error),
    }
}
