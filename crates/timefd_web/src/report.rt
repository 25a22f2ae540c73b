//! The report on a text.

ghost use Rattle.std.specs.Prelude.{IfOk};
ghost use Rattle.timefd_web.specs.Reports.{Reports};

use crate::accepted::accepted;
use crate::refused::refused;
use std::alloc::{AllocError, Global};
use timefd_date_moment::Moment;
use timefd_lint_diagnosis::diagnose;
use timefd_parse::Language;

/// What a text of a language is, as a JSON object: its fault; or its nodes, what it writes of the
/// moment, and its texts in later versions. An `Err` says that memory ran out, and nothing about
/// the text.
#[tactic(auto, using(crate::proofs::ReportLemmas::refused_report, crate::proofs::ReportLemmas::accepted_report))]
pub fn report_of(
    alloc: Global,
    language: Language,
    moment: Moment,
    text: &str,
) -> Result<Vec<u8>, AllocError>
    ensures reports { IfOk result (λ object. Reports language moment text.now object.items) }
{
    match diagnose(alloc, language, text)? {
        Some(diagnostic) => refused(alloc, &diagnostic),
        None => accepted(alloc, language, moment, text),
    }
}
