//! Where a text stands, and what is wrong with it there.

ghost use Rattle.std.specs.Prelude.{◌≡◌};
ghost use Rattle.timefd_lint_sources.specs.Judgements as spec;

use crate::language::{language_of, other_of};
use crate::reported::Finder;
use timefd_lang_dialect::{Dialect, Found, RefusedPart};
use timefd_lang_warnings::{Level, Levels};
use timefd_lint_diagnosis::Diagnostic;
use timefd_lint_scan::{Items, SourceDescription};
use timefd_parse::Language;

/// Which parts of a format of another language or library are refused.
#[derive(Clone, Copy)]
pub enum RefusedParts {
    /// Those for which version 3 has no text.
    Unwritable,
    /// In a source of Rust: of chrono and jiff only those that the library itself refuses, whatever version 3 has.
    Unknown,
}

/// Where a text stands.
#[derive(Clone, Copy)]
pub enum TextPlace {
    /// Where texts of this language of `time` stand, and these items that `parse` refuses in versions 1 and 2.
    Own(Language, Items),
    /// Where formats of another language or library stand, and these parts are refused.
    Other(Dialect, RefusedParts),
}

/// What is wrong with a text where it stands, in the order in which it is reported.
#[derive(Drop)]
pub enum TextJudgement {
    /// This language of `time` accepts it. These are the levels of its warnings, if warnings are looked for; any other
    /// warning is allowed.
    Accepted(Language, Option<Levels>),
    /// It has these faults, the first of which is that of the whole text. Each other one was found with those before it left
    /// out.
    Faulty(Vec<Diagnostic>),
    /// A format of another language or library is right, but for these traps, if traps are looked for.
    Right(Vec<Found>),
    /// This part of such a format is refused. What follows isn't looked at.
    Refused(RefusedPart),
}

/// Where a description of a source stands, whose descriptions are found in this way.
pub fn place_of(finder: Finder<'_>, description: &SourceDescription) -> TextPlace
    ensures { result ≡ spec.place_of finder.entry description.now }
{
    match other_of(description.dialect) {
        Some(dialect) => TextPlace::Other(dialect, refused_parts(finder)),
        None => TextPlace::Own(language_of(description.dialect), description.items),
    }
}

fn refused_parts(finder: Finder<'_>) -> RefusedParts
    ensures { result ≡ spec.refused_parts finder.entry }
{
    match finder {
        Finder::Rust(_) => RefusedParts::Unknown,
        Finder::Keys(_, _) => RefusedParts::Unwritable,
    }
}

/// The levels of warnings that were looked for, or else of none.
pub fn levels_of(found: Option<Levels>) -> Levels
    ensures { result ≡ spec.levels_of found }
{
    match found {
        Some(levels) => levels,
        None => Levels::all_at(Level::Allowed),
    }
}
