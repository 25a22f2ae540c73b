//! What the linter reports about one description.

ghost use Rattle.std.specs.Prelude.{◌≡◌, IfOk, false, true};
ghost use Rattle.timefd_lint_drawing.specs.Counted.{IsCounted};
ghost use Rattle.timefd_lint_sources.specs.Allowed.{is_covered};
ghost use Rattle.timefd_lint_sources.specs.Judged.{text_of};
ghost use Rattle.timefd_lint_sources.specs.Reported.{IsNoTextReported, IsReported, IsReportedIf};
ghost use Rattle.timefd_lint_sources.specs.Whole as spec;
ghost use Rattle.timefd_lint_sources.specs.Whole.{note_of};

use crate::allowances::Allowance;
use crate::allowed::{is_allowed, is_covered, judgement_left};
use crate::drawn::drawn;
use crate::judgement::{TextJudgement, levels_of, place_of};
use crate::judging::judge;
use crate::left::{Left, all_allowed, count_in, left_of};
use std::alloc::{AllocError, Global};
use std::str;
use timefd_lang_warnings::Levels;
use timefd_lint_drawing::{Counter, Origin, Style, counted, note};
use timefd_lint_scan::keys::{DescriptionKey, FileFormat};
use timefd_lint_scan::{OwnCall, SourceDescription};

/// The number of a source's first line.
pub const FIRST_LINE: u64 = 1;

/// How to report on descriptions.
#[derive(Clone, Copy)]
pub struct Reporting {
    /// How messages look.
    pub style: Style,
    /// Whether the tree of an accepted description is shown.
    pub explains: bool,
    /// The level of each warning; `None` if warnings aren't looked for.
    pub levels: Option<Levels>,
    /// Whether comments allow errors and warnings.
    pub allows: bool,
}

/// How the descriptions in a source are found.
#[derive(Clone, Copy)]
pub enum Finder<'a> {
    /// As string literals in Rust, with these calls of the project.
    Rust(&'a [OwnCall]),
    /// As strings of these keys, in a file of this format.
    Keys(FileFormat, &'a [DescriptionKey<'a>]),
}

/// A source to check: a Rust source, or a file with keys.
#[derive(Clone, Copy)]
pub struct SourceText<'a> {
    /// The name of its file.
    pub file: &'a str,
    /// How its descriptions are found.
    pub finder: Finder<'a>,
    /// The whole text.
    pub text: &'a str,
    /// What its comments allow.
    pub allowances: &'a [Allowance],
}

/// The outcome of a description, or of something else that is seen in a source.
#[derive(Clone, Copy)]
pub enum ItemEnd {
    /// It is of another language or library, and an editor doesn't explain it.
    PassedOver,
    /// It is valid, with the levels of its reported warnings; any other warning is allowed.
    Accepted(Levels),
    /// It is a format of another language or library and right there, with so many traps that were reported.
    Converted(u64),
    /// It has a fault, or it is a format of another language or library that is refused.
    Refused,
    /// It isn't UTF-8.
    NotText,
    /// A comment is about it, and this is left of what is wrong with it.
    Allowed(Left),
    /// A call takes a name instead of a literal, and no text is found for the name.
    UnreadCall,
    /// A value of a key isn't looked at.
    UnreadValue,
    /// A comment names no language, or allows what isn't the code of an error or a warning.
    WrongComment,
}

/// What the linter reports about a description.
#[derive(Drop)]
pub struct Reported {
    /// The outcome.
    pub end: ItemEnd,
    /// The messages on it: empty if there is nothing to report.
    pub message: Vec<u8>,
}

/// Checks a description of a source, and reports what is wrong with it at its position in the source, without what a
/// comment allows. `from` says how far lines are counted. An `Err` says that memory ran out.
#[tactic(auto, using(crate::proofs::ReportedLemmas::no_text))]
pub fn report(
    alloc: Global,
    reporting: Reporting,
    source: SourceText<'_>,
    from: Counter,
    description: &SourceDescription,
) -> Result<Reported, AllocError>
    requires { IsCounted 1 source.text.now from }
    ensures { IfOk result (λ reported. IsReported reporting source.entry description.now
        reported.end reported.message.items) }
{
    match str::from_utf8(description.unescaped.text.as_slice()) {
        Ok(text) => judged(alloc, reporting, source, from, description, text),
        Err(_) => no_text(alloc, reporting, source, from, description),
    }
}

// Checks a description with this text.
#[tactic(auto, using(crate::proofs::ReportedLemmas::with_judgement))]
fn judged(
    alloc: Global,
    reporting: Reporting,
    source: SourceText<'_>,
    from: Counter,
    description: &SourceDescription,
    text: &str,
) -> Result<Reported, AllocError>
    requires counted { IsCounted 1 source.text.now from }
    requires text { text.now ≡ text_of description.now }
    ensures { IfOk result (λ reported. IsReported reporting source.entry description.now
        reported.end reported.message.items) }
{
    let place = place_of(source.finder, description);
    let judgement = judge(alloc, place, reporting.levels, text)?;
    report_judgement(alloc, reporting, source, from, description, text, judgement)
}

// Reports what is wrong with a description, or what is left of that if a comment is about it.
fn report_judgement(
    alloc: Global,
    reporting: Reporting,
    source: SourceText<'_>,
    from: Counter,
    description: &SourceDescription,
    text: &str,
    judgement: TextJudgement,
) -> Result<Reported, AllocError>
    requires counted { IsCounted 1 source.text.now from }
    requires text { text.now ≡ text_of description.now }
    ensures { IfOk result (λ reported. IsReportedIf (is_covered reporting source.entry description.now) reporting
        source.entry description.now judgement reported.end reported.message.items) }
{
    if is_covered(reporting, source, description) {
        report_left(alloc, reporting, source, from, description, text, judgement)
    } else {
        report_whole(alloc, reporting, source, from, description, text, judgement)
    }
}

// Reports all that is wrong with a description.
fn report_whole(
    alloc: Global,
    reporting: Reporting,
    source: SourceText<'_>,
    from: Counter,
    description: &SourceDescription,
    text: &str,
    judgement: TextJudgement,
) -> Result<Reported, AllocError>
    requires counted { IsCounted 1 source.text.now from }
    requires text { text.now ≡ text_of description.now }
    ensures { IfOk result (λ reported. IsReportedIf false reporting source.entry description.now judgement
        reported.end reported.message.items) }
{
    let end = end_of(&judgement);
    let message = drawn(alloc, reporting, source, from, description, text, judgement)?;
    Ok(Reported { end, message })
}

// Reports what is left of what is wrong with a description.
#[tactic(auto, using(crate::proofs::ReportedLemmas::left_reported))]
fn report_left(
    alloc: Global,
    reporting: Reporting,
    source: SourceText<'_>,
    from: Counter,
    description: &SourceDescription,
    text: &str,
    judgement: TextJudgement,
) -> Result<Reported, AllocError>
    requires counted { IsCounted 1 source.text.now from }
    requires text { text.now ≡ text_of description.now }
    ensures { IfOk result (λ reported. IsReportedIf true reporting source.entry description.now judgement
        reported.end reported.message.items) }
{
    let found = count_in(&judgement);
    let left = judgement_left(alloc, source, description, judgement)?;
    let end = ItemEnd::Allowed(left_of(found, &left));
    let message = drawn(alloc, reporting, source, from, description, text, left)?;
    Ok(Reported { end, message })
}

// The outcome of a description that no comment is about.
fn end_of(judgement: &TextJudgement) -> ItemEnd
    ensures { result ≡ spec.end_of judgement.now }
{
    match judgement {
        TextJudgement::Accepted(_, found) => ItemEnd::Accepted(levels_of(*found)),
        TextJudgement::Right(traps) => ItemEnd::Converted(traps.len() as u64),
        TextJudgement::Faulty(_) | TextJudgement::Refused(_) => ItemEnd::Refused,
    }
}

// Reports a description that isn't UTF-8, unless that is allowed.
fn no_text(
    alloc: Global,
    reporting: Reporting,
    source: SourceText<'_>,
    from: Counter,
    description: &SourceDescription,
) -> Result<Reported, AllocError>
    requires { IsCounted 1 source.text.now from }
    ensures { IfOk result (λ reported. IsNoTextReported reporting source.entry description.now
        reported.end reported.message.items) }
{
    if is_covered(reporting, source, description) && is_allowed(source, description, "not-text") {
        return Ok(Reported {
            end: ItemEnd::Allowed(all_allowed()),
            message: Vec::new(alloc),
        });
    }
    let message = no_text_note(alloc, reporting.style, source, from, description)?;
    Ok(Reported {
        end: ItemEnd::NotText,
        message,
    })
}

// A note on a description that isn't UTF-8.
fn no_text_note(
    alloc: Global,
    style: Style,
    source: SourceText<'_>,
    from: Counter,
    description: &SourceDescription,
) -> Result<Vec<u8>, AllocError>
    requires { IsCounted 1 source.text.now from }
    ensures { IfOk result (λ message. message.items ≡ note_of style source.entry description.now) }
{
    let counter = counted(FIRST_LINE, source.text, from, description.piece.start);
    let origin = Origin {
        file: source.file,
        line: counter.line,
    };
    let message = note(alloc, style, origin, "not-text", "the bytes aren't UTF-8")?;
    Ok(message)
}
