//! The warnings about the descriptions of a run.

ghost use Rattle.std.specs.Prelude.{◌≡◌, IfOk, OnOk};
ghost use Rattle.timefd_lint_warnings.specs.Found.{output_parts};
ghost use Rattle.timefd_lang_warnings.specs.Parts.{parts};
ghost use Rattle.timefd_format.specs.RunReports.{GetsWarnings};
ghost use Rattle.timefd_format.specs.Warned as spec;

use crate::description::borrowed;
use crate::language::Languages;
use crate::report::{MessageFate, report_drawn};
use crate::source::{MomentSource, SourceKind};
use std::alloc::{AllocError, Global};
use timefd_bin_streams::Sink;
use timefd_lang_warnings::{
    LanguageStyle as Spelling, Level, Levels, ReadDescription, Warning, warns,
};
use timefd_lint_drawing::{Format, Origin, Style};
use timefd_lint_warnings::messages;
use timefd_parse::{BorrowedOutput, Language};

/// What messages call the description of `--read`.
pub const READ: &str = "<read>";

/// What messages call the description that moments are written by.
pub const WRITTEN: &str = "<description>";

/// The warnings that are reported about the descriptions of a run.
#[derive(Clone, Copy)]
pub struct Warned {
    /// The warnings about the description that moments are read by. All are allowed if moments are
    /// named.
    pub read: Levels,
    /// The warnings about the description that moments are written by.
    pub written: Levels,
}

/// The texts of the descriptions of a run.
#[derive(Clone, Copy)]
pub struct Texts<'a> {
    /// The description that moments are read by. `None` if moments are named.
    pub read: Option<&'a str>,
    /// The description that moments are written by.
    pub written: &'a str,
}

/// Shows people the warnings about both descriptions. An `Err` says that memory ran out.
pub fn report_warnings<E: Sink>(
    alloc: Global,
    is_colored: bool,
    texts: Texts<'_>,
    warned: Warned,
    errors: &mut E,
) -> Result<MessageFate, AllocError>
    ensures seen { IfOk result (spec.ReportsWarnings is_colored texts.entry warned (E.contents errors.old)
        (E.contents errors.new) (E.has_failed errors.new)) }
    ensures gets { OnOk result (GetsWarnings is_colored texts.entry warned (E.contents errors.old)
        (E.contents errors.new) (E.has_failed errors.old) (E.has_failed errors.new)) }
{
    let read = named(READ);
    let written = named(WRITTEN);
    let message = warned_text(alloc, is_colored, read, written, texts, warned)?;
    let reported = report_drawn(alloc, is_colored, errors, &message)?;
    Ok(reported)
}

// The origin of a description that is called this.
fn named(file: &str) -> Origin<'_>
    ensures { spec.IsNamed file.now result }
{
    Origin { file, line: 1 }
}

// The text of the description to read by. It is empty if there is none, which has no warnings either.
fn read_text(texts: Texts<'_>) -> &str
    ensures { result.now ≡ spec.read_text texts.entry.read }
{
    match texts.read {
        Some(text) => text,
        None => "",
    }
}

// The messages about both descriptions, in order.
#[tactic(auto, using(crate::proofs::WarnedLemmas::joined))]
fn warned_text(
    alloc: Global,
    is_colored: bool,
    read: Origin<'_>,
    written: Origin<'_>,
    texts: Texts<'_>,
    warned: Warned,
) -> Result<Vec<u8>, AllocError>
    ensures { IfOk result (λ reported. reported.items
        ≡ spec.warned_text is_colored read.entry written.entry texts.entry warned) }
{
    let style = Style {
        format: Format::Human,
        is_colored,
    };
    let mut reported = messages(alloc, style, read, read_text(texts), warned.read)?;
    let after = messages(alloc, style, written, texts.written, warned.written)?;
    reported.extend_from_slice(&after)?;
    Ok(reported)
}

/// The warnings about both descriptions, unless they are left out.
pub fn warned_by(
    is_quiet: bool,
    languages: Languages,
    source: &MomentSource<'_>,
    description: &BorrowedOutput<'_>,
) -> Warned
    ensures { result ≡ spec.warned_by is_quiet languages source.now description.now }
{
    if is_quiet {
        return Warned {
            read: Levels::all_at(Level::Allowed),
            written: Levels::all_at(Level::Allowed),
        };
    }
    Warned {
        read: warned_of_source(languages.read, source),
        written: warned_of(languages.written, description),
    }
}

fn warned_of_source(language: Language, source: &MomentSource<'_>) -> Levels
    ensures { result ≡ spec.warned_of_source language source.now }
{
    match &source.kind {
        SourceKind::Names(_) => Levels::all_at(Level::Allowed),
        SourceKind::Texts(description) => warned_of(language, description),
    }
}

// The warnings about a description of this language.
fn warned_of(language: Language, description: &BorrowedOutput<'_>) -> Levels
    ensures { result ≡ spec.warned_of language description.now }
{
    warned_in(spelling_of(language), borrowed(description))
}

// Checks for two warnings. All others are left to the linter.
fn warned_in(spelling: Spelling, description: ReadDescription<'_, '_>) -> Levels
    ensures { result ≡ spec.warned_in spelling (parts description.entry) }
{
    let no_component = level_if(warns(spelling, description, Warning::NoComponent));
    let other_language = level_if(warns(spelling, description, Warning::OtherLanguage));
    Levels::all_at(Level::Allowed)
        .with(Warning::NoComponent, no_component)
        .with(Warning::OtherLanguage, other_language)
}

fn level_if(has_it: bool) -> Level
    ensures { result ≡ spec.level_if has_it }
{
    if has_it {
        Level::Warned
    } else {
        Level::Allowed
    }
}

// How components are written in the language.
fn spelling_of(language: Language) -> Spelling
    ensures { result ≡ spec.spelling_of language }
{
    match language {
        Language::Version(_) => Spelling::Brackets,
        Language::Strftime => Spelling::Percents,
    }
}
