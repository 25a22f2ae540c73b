//! The moments that the arguments name, one after another.

ghost use Rattle.std.specs.Prelude.{◌≡◌, false, IfErr, IfOk, OnOk};
ghost use Rattle.timefd_lint_diagnosis.specs.Words.{texts};
ghost use Rattle.timefd_format.specs.Frames.{EndsOnlyAsAsked};
ghost use Rattle.timefd_format.specs.LineReports.{ReportsWords};
ghost use Rattle.timefd_format.specs.Written.{Runs};

use crate::entry::tally_one;
use crate::frame::{LineFrame, MomentText};
use crate::otherwise::Otherwise;
use crate::outcome::{RunError, WordTally};
use crate::source::MomentSource;
use std::alloc::Global;
use timefd_bin_streams::Sink;
use timefd_parse::BorrowedOutput;

/// Writes a line for each word: the moment that it names or shows. Words without a moment are reported, and
/// the others are still written.
#[tactic(auto, using(crate::proofs::RunLemmas::starts, crate::proofs::RunLemmas::is_done, crate::proofs::RunLemmas::both_read, crate::proofs::LineReportLemmas::words_start, crate::proofs::LineReportLemmas::words_done))]
pub fn write_words<W: Sink, E: Sink>(
    alloc: Global,
    source: &MomentSource<'_>,
    description: &BorrowedOutput<'_>,
    otherwise: Otherwise,
    words: &[&str],
    output: &mut W,
    errors: &mut E,
) -> Result<WordTally, RunError>
    ensures runs { IfOk result (Runs false otherwise source.now description.now (texts words.now)
        (W.contents output.old) (W.contents output.new)) }
    ensures read { IfOk result (λ tally. tally.has_failed ≡ false) }
    ensures reports { OnOk result (ReportsWords source.now description.now (texts words.now)
        (E.contents errors.old) (E.contents errors.new) (E.has_failed errors.old) (E.has_failed errors.new)) }
    ensures ends { IfErr result (EndsOnlyAsAsked otherwise (W.has_failed output.new)) }
{
    let mut tally = WordTally::at_end(false);
    let mut rest = words;
    'words: while let [word, after @ ..] = rest {
        let one = tally_one(
            alloc,
            source,
            None,
            description,
            None,
            otherwise,
            MomentText {
                line: None,
                text: word.as_bytes(),
                frame: LineFrame::Line,
            },
            &mut [],
            output,
            errors,
        )?;
        tally = tally.and(one);
        rest = after;
    }
    Ok(tally)
}
