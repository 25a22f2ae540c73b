//! What the words of a run are: names of moments, or texts of a description.

ghost use Rattle.std.specs.Prelude.{◌≡◌, IfErr, IfOk, IfSome};
ghost use Rattle.timefd_format.specs.ReadBack.{now};
ghost use Rattle.timefd_format.specs.Sources.{AreLeavesIn, IsFoundIn, IsMomentIn, IsOnClockIn, IsSilentOn, IsSourceOf, IsTextOf};

use crate::description::{DescriptionReading, read};
use crate::moment::{MomentError, moment_named};
use crate::names::GivenNames;
use crate::outcome::RunError;
use crate::read_back::{leaves_of, moment_read};
use crate::report::report_fault;
use crate::warned::READ;
use crate::zone::in_zone;
use jiff_tz::TimeZone;
use std::alloc::{AllocError, Global};
use timefd_bin_streams::Sink;
use timefd_date_moment::Moment;
use timefd_lang_node_list::Leaf;
use timefd_parse::{BorrowedOutput, Language, StrftimeTables};

/// What the words of a run are.
#[derive(Drop)]
pub enum SourceKind<'a> {
    /// Names of moments.
    Names(GivenNames<'a>),
    /// Texts of this description.
    Texts(BorrowedOutput<'a>),
}

/// What the words of a run are, and how the moments that they name or show are changed.
#[derive(Drop)]
pub struct MomentSource<'a> {
    /// What the words are.
    pub kind: SourceKind<'a>,
    /// The time zone whose clock shows the moments. Without one they stay as they are.
    pub zone: Option<TimeZone<'a>>,
}

/// What the moments of a run depend on, besides its words.
#[derive(Clone, Copy)]
pub struct Clocks<'a> {
    /// What names on the command line refer to.
    pub names: GivenNames<'a>,
    /// The time zone whose clock shows the moments.
    pub zone: Option<TimeZone<'a>>,
}

/// What the words of a run are: texts of the description that `--read` gives, or names. `None` if that
/// description is refused; its fault is then written to `errors`. An `Err` says that memory ran out.
pub fn source_of<'a, E: Sink>(
    alloc: Global,
    clocks: Clocks<'a>,
    is_colored: bool,
    language: Language,
    tables: &'a StrftimeTables<'a>,
    description: Option<&'a str>,
    errors: &mut E,
) -> Result<Option<MomentSource<'a>>, RunError>
    ensures source { IfOk result (IsSourceOf clocks.entry language description.entry) }
    ensures reports { IfOk result (IsSilentOn (E.contents errors.old) (E.contents errors.new)
        (E.has_failed errors.old) (E.has_failed errors.new)) }
    ensures memory { IfErr result (λ error. error ≡ RunError.Memory) }
{
    let Some(text) = description else {
        return Ok(Some(MomentSource {
            kind: SourceKind::Names(clocks.names),
            zone: clocks.zone,
        }));
    };
    match read(alloc, language, tables, text)? {
        DescriptionReading::Refused(diagnostic) => {
            report_fault(alloc, is_colored, READ, text, &diagnostic, errors)?;
            Ok(None)
        }
        DescriptionReading::Description(description) => {
            Ok(Some(MomentSource {
                kind: SourceKind::Texts(description),
                zone: clocks.zone,
            }))
        }
    }
}

/// The components and literals of the description to read by, if it is only a sequence of those. An `Err`
/// says that memory ran out.
pub fn source_leaves<'s>(
    alloc: Global,
    source: &'s MomentSource<'_>,
) -> Result<Option<Vec<Leaf<'s>>>, AllocError>
    ensures { IfOk result (λ found. IfSome found (λ leaves. IsTextOf source.now leaves.items)) }
{
    match &source.kind {
        SourceKind::Names(_) => Ok(None),
        SourceKind::Texts(description) => leaves_of(alloc, description),
    }
}

/// The moment that a word names, or shows by the description or its leaves, to be written by the other
/// description. If the source has a time zone, its clock shows the moment; part of a date isn't enough then.
pub fn moment_in(
    source: &MomentSource<'_>,
    leaves: Option<&[Leaf<'_>]>,
    written: &BorrowedOutput<'_>,
    word: &str,
) -> Result<Moment, MomentError>
    requires { AreLeavesIn source.now leaves }
    ensures { IsMomentIn source.now written.now word.now result }
{
    match &source.zone {
        Some(zone) => moment_on_clock(source, leaves, zone, word),
        None => moment_found(source, leaves, Some(written), word),
    }
}

// The moment, as the clock of the time zone shows it.
#[tactic(auto, using(crate::proofs::MomentLemmas::shown_on_clock))]
fn moment_on_clock(
    source: &MomentSource<'_>,
    leaves: Option<&[Leaf<'_>]>,
    zone: &TimeZone<'_>,
    word: &str,
) -> Result<Moment, MomentError>
    requires { AreLeavesIn source.now leaves }
    ensures { IsOnClockIn source.now zone.now word.now result }
{
    match moment_found(source, leaves, None, word) {
        Ok(moment) => in_zone(zone, moment),
        Err(error) => Err(error),
    }
}

// The moment that a word names, or shows by the description or its leaves.
fn moment_found(
    source: &MomentSource<'_>,
    leaves: Option<&[Leaf<'_>]>,
    written: Option<&BorrowedOutput<'_>>,
    word: &str,
) -> Result<Moment, MomentError>
    requires { AreLeavesIn source.now leaves }
    ensures { IsFoundIn source.now (now written.entry) word.now result }
{
    match &source.kind {
        SourceKind::Names(names) => moment_named(*names, word),
        SourceKind::Texts(description) => moment_read(description, leaves, written, word),
    }
}
