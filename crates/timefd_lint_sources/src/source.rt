//! What the linter reports about all descriptions of a source.

ghost use Rattle.std.specs.Prelude.{IfOk, OnOk};
ghost use Rattle.timefd_lint_drawing.specs.Counted.{IsCounted};
ghost use Rattle.timefd_lint_scan.specs.Keys.Found.{AllValues};
ghost use Rattle.timefd_lint_sources.specs.Remarks.{AreSeenIn, AreValuesSeen};
ghost use Rattle.timefd_lint_sources.specs.Reported.{AddsReported, AreSeen, AreSeenFirst, AllFound, AreAllOf, AreJudgedIn, AreRemarksOn, AreReported, AreReportedAs, IsSourceReported};
ghost use Rattle.timefd_lint_scan.specs.Found.{AreInOrder};

use crate::judged::{judged_all, judged_as};
use crate::no_code::push_no_codes;
use crate::remark::{Remark, push_remarks, remarks_on, remarks_on_values};
use crate::reported::{FIRST_LINE, Finder, ItemEnd, Reported, Reporting, SourceText, report};
use std::alloc::{AllocError, Global};
use timefd_lint_drawing::{Counter, counted, none_counted};
use timefd_lint_scan::keys::{DescriptionKey, FileFormat, Values, descriptions_by, values_by};
use timefd_lint_scan::{Look, OwnCall, SourceDescription, descriptions_of, looked_at};

/// What the linter reports about the descriptions of a source.
#[derive(Drop)]
pub struct Report {
    /// The outcome of each description in order, followed by the outcomes of the remarks.
    pub ends: Vec<ItemEnd>,
    /// The messages on all of them, in the same order.
    pub message: Vec<u8>,
}

/// Checks the descriptions in a source, and reports what is wrong with each at its position. An `Err` says
/// that memory ran out.
#[tactic(auto, using(crate::proofs::SeenLemmas::source_reported))]
pub fn lint_source(
    alloc: Global,
    reporting: Reporting,
    source: SourceText<'_>,
) -> Result<Report, AllocError>
    ensures { IfOk result (IsSourceReported reporting source.entry) }
{
    let Seen {
        descriptions,
        remarks,
    } = seen_in(alloc, source)?;
    let Report {
        mut ends,
        mut message,
    } = report_each(alloc, reporting, source, descriptions)?;
    push_remarks(
        alloc,
        reporting.style,
        source,
        &remarks,
        &mut ends,
        &mut message,
    )?;
    Ok(Report { ends, message })
}

/// What is seen in a source.
#[derive(Drop)]
struct Seen {
    descriptions: Vec<SourceDescription>,
    remarks: Vec<Remark>,
}

// What is seen in a source.
#[tactic(auto, using(crate::proofs::SeenLemmas::with_codes))]
fn seen_in(alloc: Global, source: SourceText<'_>) -> Result<Seen, AllocError>
    ensures { IfOk result (λ seen. AreSeen source.entry seen.descriptions.items seen.remarks.items) }
{
    let Seen {
        descriptions,
        mut remarks,
    } = seen_first(alloc, source)?;
    push_no_codes(alloc, &mut remarks, source)?;
    Ok(Seen {
        descriptions,
        remarks,
    })
}

// What is seen in a source, but for the words that comments allow.
#[tactic(auto, using(crate::proofs::SeenLemmas::of_rust, crate::proofs::SeenLemmas::of_keys))]
fn seen_first(alloc: Global, source: SourceText<'_>) -> Result<Seen, AllocError>
    ensures { IfOk result (λ seen. AreSeenFirst source.entry seen.descriptions.items seen.remarks.items) }
{
    match source.finder {
        Finder::Rust(calls) => Ok(seen_in_rust(alloc, source.text, calls)?),
        Finder::Keys(format, keys) => Ok(seen_by_keys(alloc, format, source.text, keys)?),
    }
}

fn seen_in_rust(alloc: Global, source: &str, own: &[OwnCall]) -> Result<Seen, AllocError>
    ensures { IfOk result (λ seen. AreSeenIn source.now own.now seen.descriptions.items seen.remarks.items) }
{
    let Look {
        descriptions,
        calls,
        comments,
    } = looked_at(alloc, source, own)?;
    let remarks = remarks_on(alloc, &calls, &comments)?;
    Ok(Seen {
        descriptions,
        remarks,
    })
}

fn seen_by_keys(
    alloc: Global,
    format: FileFormat,
    source: &str,
    keys: &[DescriptionKey<'_>],
) -> Result<Seen, AllocError>
    ensures seen { IfOk result (λ seen. AreValuesSeen format source.now keys.now seen.descriptions.items
        seen.remarks.items) }
    ensures stand { IfOk result (λ seen. AllValues format source.now keys.now seen.descriptions.items) }
    ensures in_order { IfOk result (λ seen. AreInOrder 0 seen.descriptions.items) }
{
    let Values {
        descriptions,
        unread,
    } = values_by(alloc, format, source, keys)?;
    let remarks = remarks_on_values(alloc, &unread)?;
    Ok(Seen {
        descriptions,
        remarks,
    })
}

/// The descriptions in a source, in order, each with the text that is checked for it. An `Err` says that
/// memory ran out.
pub fn judged_in(
    alloc: Global,
    source: SourceText<'_>,
) -> Result<Vec<SourceDescription>, AllocError>
    ensures { IfOk result (λ judged. AreJudgedIn source.entry judged.items) }
{
    let found = descriptions_in(alloc, source)?;
    judged_all(alloc, found)
}

/// The descriptions in a source, and what else is seen in it.
#[derive(Drop)]
pub struct Judged {
    /// The descriptions in order, each with the text that is checked for it.
    pub descriptions: Vec<SourceDescription>,
    /// What else is seen: calls and values that aren't looked at, and errors in comments.
    pub remarks: Vec<Remark>,
}

/// The descriptions in a source, in order, each with the text that is checked for it, and what else is seen. An `Err`
/// says that memory ran out.
#[tactic(auto, using(crate::proofs::SeenLemmas::judged_of, crate::proofs::SeenLemmas::remarks_of))]
pub fn judged_with_remarks(alloc: Global, source: SourceText<'_>) -> Result<Judged, AllocError>
    ensures judged { IfOk result (λ judged. AreJudgedIn source.entry judged.descriptions.items) }
    ensures remarks { IfOk result (λ judged. AreRemarksOn source.entry judged.remarks.items) }
{
    let Seen {
        descriptions,
        remarks,
    } = seen_in(alloc, source)?;
    let descriptions = judged_all(alloc, descriptions)?;
    Ok(Judged {
        descriptions,
        remarks,
    })
}

/// The descriptions in a source, in order; they don't overlap. An `Err` says that memory ran out.
#[tactic(auto, using(crate::proofs::FinderLemmas::by_rust, crate::proofs::FinderLemmas::all_by_rust, crate::proofs::FinderLemmas::all_by_keys))]
pub fn descriptions_in(
    alloc: Global,
    source: SourceText<'_>,
) -> Result<Vec<SourceDescription>, AllocError>
    ensures all { IfOk result (λ found. AreAllOf source.entry found.items) }
    ensures stand { IfOk result (λ found. AllFound source.entry found.items) }
    ensures in_order { IfOk result (λ found. AreInOrder 0 found.items) }
{
    match source.finder {
        Finder::Rust(calls) => Ok(descriptions_of(alloc, source.text, calls)?),
        Finder::Keys(format, keys) => Ok(descriptions_by(alloc, format, source.text, keys)?),
    }
}

/// Checks these descriptions of a source, one after another, and reports on them. An `Err` says that memory
/// ran out.
#[tactic(auto, using(crate::proofs::ReportLemmas::at_first, crate::proofs::ReportLemmas::one_more))]
pub fn report_all(
    alloc: Global,
    reporting: Reporting,
    source: SourceText<'_>,
    descriptions: &[SourceDescription],
) -> Result<Report, AllocError>
    ensures { IfOk result (λ report. AreReported reporting source.entry descriptions.now
        report.ends.items report.message.items) }
{
    let mut ends = Vec::new(alloc);
    let mut message = Vec::new(alloc);
    let mut from = none_counted(FIRST_LINE);
    for description in descriptions {
        from = counted(FIRST_LINE, source.text, from, description.piece.start);
        push_reported(
            alloc,
            reporting,
            source,
            from,
            description,
            &mut ends,
            &mut message,
        )?;
    }
    Ok(Report { ends, message })
}

// Checks these descriptions of a source, one after another, each with the text that is checked for it, and reports on them.
// One is kept only until it is reported.
#[tactic(auto, using(crate::proofs::ReportLemmas::none_reported, crate::proofs::ReportLemmas::one_more_reported))]
fn report_each(
    alloc: Global,
    reporting: Reporting,
    source: SourceText<'_>,
    descriptions: Vec<SourceDescription>,
) -> Result<Report, AllocError>
    ensures { IfOk result (λ report. AreReportedAs reporting source.entry descriptions.items
        report.ends.items report.message.items) }
{
    let mut ends = Vec::new(alloc);
    let mut message = Vec::new(alloc);
    let mut counter = none_counted(FIRST_LINE);
    for description in descriptions {
        let judged = judged_as(alloc, description)?;
        counter = counted(FIRST_LINE, source.text, counter, judged.piece.start);
        push_reported(
            alloc,
            reporting,
            source,
            counter,
            &judged,
            &mut ends,
            &mut message,
        )?;
    }
    Ok(Report { ends, message })
}

// Checks one more description.
#[tactic(auto, using(crate::proofs::ReportLemmas::adds))]
fn push_reported(
    alloc: Global,
    reporting: Reporting,
    source: SourceText<'_>,
    from: Counter,
    description: &SourceDescription,
    ends: &mut Vec<ItemEnd>,
    message: &mut Vec<u8>,
) -> Result<(), AllocError>
    requires { IsCounted 1 source.text.now from }
    ensures { OnOk result (AddsReported reporting source.entry description.now ends.old.items
        message.old.items ends.new.items message.new.items) }
{
    let reported = report(alloc, reporting, source, from, description)?;
    ends.push(reported.end)?;
    message.extend_from_slice(&reported.message)
}
