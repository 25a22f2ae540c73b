//! Texts written to an output.

ghost use Rattle.timefd_date_format.specs.Written.{written};
ghost use Rattle.timefd_lang_node_list.specs.Views.{view_tree};
ghost use Rattle.timefd_date_format.specs.Sent.{IsSent};

use crate::field::Unshown;
use crate::text::{TextError, format};
use std::alloc::{AllocError, Global};
use std::io;
use timefd_date_moment::Moment;
use timefd_lang_node_list::View;

/// Why a text wasn't written to an output.
#[derive(Debug, Drop)]
pub enum OutputError {
    /// A component shows nothing of the moment. It is the first one.
    Unshown(Unshown),
    /// Memory ran out.
    Memory(AllocError),
    /// The output's own error.
    Io(io::Error),
}

/// Writes what a description shows of the moment to an output, all at once. If a component shows nothing, or
/// memory runs out, nothing is written.
#[tactic(auto, using(crate::proofs::SentLemmas::sent))]
pub fn format_to<W: io::Write>(
    alloc: Global,
    moment: Moment,
    view: View<'_, '_>,
    output: &mut W,
) -> Result<(), OutputError>
    ensures { IsSent (written moment (view_tree view.entry)) (W.contents output.old)
        (W.contents output.new) result }
{
    match format(alloc, moment, view) {
        Ok(text) => match output.write_all(text.as_bytes()) {
            Ok(()) => Ok(()),
            Err(error) => Err(OutputError::Io(error)),
        },
        Err(TextError::Unshown(unshown)) => Err(OutputError::Unshown(unshown)),
        Err(TextError::Memory(error)) => Err(OutputError::Memory(error)),
    }
}
