//! Strings of a file with keys, as descriptions.

ghost use Rattle.std.specs.Prelude.{◌≡◌, IfOk, MatchOption, None, Some, ⊤};
ghost use Rattle.timefd_lint_scan.specs.Keys.Found.{IsDescribed, IsInLanguage, IsStep, StandsIn};
ghost use Rattle.timefd_lint_scan.specs.Keys.Languages.{language_at};
ghost use Rattle.timefd_lint_scan.specs.Keys.Strings.{seen, string_at as string_of};
ghost use Rattle.timefd_lint_scan.specs.Keys.Visits as spec;

use crate::keys::comment::reported_after;
use crate::keys::format::FileFormat;
use crate::keys::key::DescriptionKey;
use crate::keys::lies::lies;
use crate::keys::name::is_quote;
use crate::keys::reading::{StringReading, string_at};
use crate::keys::spot::{Elements, KeySpot};
use crate::line::from;
use crate::{
    Encoding, FormatLanguage, Items, LiteralKind, PlacedToken, SourceDescription, Token,
    VersionPosition,
};
use std::alloc::{AllocError, Global};

/// A file that is searched, and the keys that are searched for.
#[derive(Clone, Copy)]
pub struct KeyScan<'a> {
    pub format: FileFormat,
    pub source: &'a str,
    pub keys: &'a [DescriptionKey<'a>],
}

/// What is found at a spot, and where to look next.
#[derive(Drop)]
pub struct Step {
    pub found: Option<SourceDescription>,
    /// Where a value begins that isn't looked at, though it has a language; as a byte index.
    pub unread: Option<usize>,
    pub next: KeySpot,
}

/// A string as a description; `None` if it isn't inside of the source.
#[tactic(auto, using(crate::proofs::KeysLemmas::VisitLemmas::too_long))]
fn described(
    format: FileFormat,
    source: &str,
    start: usize,
    reading: StringReading,
    dialect: FormatLanguage,
) -> Option<SourceDescription>
    requires { Some (seen reading) ≡ string_of format source.now start }
    ensures described { IsDescribed format source.now start dialect result }
    ensures stands { MatchOption result ⊤ (StandsIn format source.now) }
{
    let StringReading { unescaped, closing } = reading;
    if closing == usize::MAX {
        return None;
    }
    if !lies(source, start, closing, &unescaped) {
        return None;
    }
    let kind = LiteralKind::Escaped(Encoding::Str);
    let piece = PlacedToken {
        token: Token::Literal(kind),
        start,
        end: closing + 1,
    };
    Some(SourceDescription {
        piece,
        kind,
        dialect,
        items: Items::Refused,
        version: VersionPosition::Elsewhere,
        call: None,
        unescaped,
    })
}

/// A string as a description, in the language that a comment after it names, or else in `other`; `None` if
/// neither names one.
#[tactic(auto, using(crate::proofs::KeysLemmas::VisitLemmas::string_reported))]
fn reported_or_other(
    format: FileFormat,
    source: &str,
    start: usize,
    reading: StringReading,
    other: Option<FormatLanguage>,
) -> Option<SourceDescription>
    requires { Some (seen reading) ≡ string_of format source.now start }
    ensures found { IsInLanguage format source.now start (language_at format source.now start other) result }
    ensures stands { MatchOption result ⊤ (StandsIn format source.now) }
{
    let reported = reported_after(format, source.as_bytes(), reading.closing);
    match reported.or(other) {
        Some(dialect) => described(format, source, start, reading, dialect),
        None => None,
    }
}

fn begins_quote(text: &[u8]) -> bool
    ensures { result ≡ spec.begins_quote text.now }
{
    match text {
        [] => false,
        [byte, ..] => is_quote(FileFormat::Yaml, *byte),
    }
}

/// Whether a value without quotes is in brackets, so that its end isn't known.
fn is_unsure(format: FileFormat, source: &[u8], start: usize, depth: usize) -> bool
    ensures { result ≡ spec.is_unsure format source.now start depth }
{
    match format {
        FileFormat::Toml | FileFormat::Json => false,
        FileFormat::Yaml => depth > 0 && !begins_quote(from(source, start)),
    }
}

/// The position of a value that isn't looked at, if it has a language.
fn unread_in(other: Option<FormatLanguage>, start: usize) -> Option<usize>
    ensures { result ≡ spec.unread_in other start }
{
    match other {
        Some(_) => Some(start),
        None => None,
    }
}

/// The step over a value that isn't looked at.
pub fn unread_step(other: Option<FormatLanguage>, start: usize, next: KeySpot) -> Step
    ensures found { result.found ≡ None }
    ensures unread { result.unread ≡ spec.unread_in other start }
    ensures next { result.next ≡ next }
{
    Step {
        found: None,
        unread: unread_in(other, start),
        next,
    }
}

/// What is found in the string at a position, in the language that a comment after it names, or else in
/// `other`. If there is no string, the value isn't looked at, and `past` is next.
#[tactic(auto, using(crate::proofs::KeysLemmas::VisitLemmas::unsure_step, crate::proofs::KeysLemmas::VisitLemmas::no_string_step, crate::proofs::KeysLemmas::VisitLemmas::string_step))]
pub fn string_step(
    alloc: Global,
    scan: KeyScan<'_>,
    other: Option<FormatLanguage>,
    start: usize,
    depth: usize,
    list: Option<Elements>,
    past: KeySpot,
) -> Result<Step, AllocError>
    ensures step { IfOk result (IsStep scan.entry.format scan.entry.source.now
        (spec.string_visit scan.entry.format scan.entry.source.now other start depth list past)) }
    ensures stands { IfOk result (λ step. MatchOption step.found ⊤
        (StandsIn scan.entry.format scan.entry.source.now)) }
{
    let bytes = scan.source.as_bytes();
    if is_unsure(scan.format, bytes, start, depth) {
        return Ok(unread_step(other, start, past));
    }
    let Some(reading) = string_at(alloc, scan.format, bytes, start)? else {
        return Ok(unread_step(other, start, past));
    };
    let at = reading.closing.saturating_add(1);
    let found = reported_or_other(scan.format, scan.source, start, reading, other);
    Ok(Step {
        found,
        unread: None,
        next: KeySpot { at, depth, list },
    })
}
