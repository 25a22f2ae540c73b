//! What the value of a key is fixed or converted to.

ghost use Rattle.std.specs.Prelude.{◌≡◌, ◌≢◌, IfOk, Some};
ghost use Rattle.timefd_lint_sources.specs.Judged.{text_of};
ghost use Rattle.timefd_lint_sources.specs.Rewriting.Values as spec;
ghost use Rattle.timefd_lint_rewrite.specs.LineChanges.{IsChanged};

use crate::language::{language_of, other_of};
use crate::rewriting::change::Change;
use crate::rewriting::outcome::Outcome;
use std::alloc::{AllocError, Global};
use std::str;
use timefd_lang_convert::{Conversion, conversion_between};
use timefd_lang_dialect::Dialect as Other;
use timefd_lint_rewrite::{Layout, LineChange, changed_text};
use timefd_lint_scan::keys::{FileFormat, string_for};
use timefd_lint_scan::{FormatLanguage, SourceDescription};
use timefd_parse::{DescriptionVersion, Language};

/// What becomes of the string of a value.
#[derive(Drop)]
pub enum ValueAnswer {
    /// It stays as it is.
    Stays(Outcome),
    /// These bytes stand in its place.
    Becomes(Vec<u8>),
}

/// What a value of a key is fixed or converted to. An `Err` says that memory ran out.
#[tactic(auto, using(crate::proofs::RewritingLemmas::ValueLemmas::by_change, crate::proofs::RewritingLemmas::ValueLemmas::by_none, crate::proofs::RewritingLemmas::ValueLemmas::no_text))]
pub fn answer_for(
    alloc: Global,
    change: Change,
    format: FileFormat,
    source: &str,
    value: &SourceDescription,
) -> Result<ValueAnswer, AllocError>
    ensures { IfOk result (spec.IsAnswer change format source.now value.now) }
{
    let Some(line_change) = value_change(change, value.dialect) else {
        return Ok(ValueAnswer::Stays(Outcome::PassedOver));
    };
    match str::from_utf8(value.unescaped.text.as_slice()) {
        Ok(text) => answer_by(alloc, line_change, format, source, value, text),
        Err(_) => Ok(ValueAnswer::Stays(Outcome::NotText)),
    }
}

/// How a value in this language is changed. `None` if no change leads from there.
pub fn value_change(change: Change, dialect: FormatLanguage) -> Option<LineChange>
    ensures { result ≡ spec.value_change change dialect }
{
    match other_of(dialect) {
        Some(other) => other_change(change, other),
        None => own_change(change, language_of(dialect)),
    }
}

fn own_change(change: Change, language: Language) -> Option<LineChange>
    ensures { result ≡ spec.own_change change language }
{
    match change {
        Change::Mended(fixes) => Some(LineChange::Own(Layout::Fixed(language, fixes))),
        Change::Least(version) => least(conversion_between(language, Language::Version(version))),
        Change::Normal => normal(conversion_between(
            language,
            Language::Version(DescriptionVersion::Three),
        )),
    }
}

fn least(conversion: Option<Conversion>) -> Option<LineChange>
    ensures { result ≡ spec.least conversion }
{
    match conversion {
        Some(conversion) => Some(LineChange::Own(Layout::Least(conversion))),
        None => None,
    }
}

fn normal(conversion: Option<Conversion>) -> Option<LineChange>
    ensures { result ≡ spec.normal conversion }
{
    match conversion {
        Some(conversion) => Some(LineChange::Own(Layout::Normal(conversion))),
        None => None,
    }
}

// Formats of other languages and libraries become texts of version 3.
fn other_change(change: Change, other: Other) -> Option<LineChange>
    ensures { result ≡ spec.other_change change other }
{
    match change {
        Change::Least(version) => to_version(version, other),
        Change::Mended(_) | Change::Normal => None,
    }
}

fn to_version(version: DescriptionVersion, other: Other) -> Option<LineChange>
    ensures { result ≡ spec.to_version version other }
{
    match version {
        DescriptionVersion::One | DescriptionVersion::Two => None,
        DescriptionVersion::Three => Some(LineChange::Other(other)),
    }
}

// What a value with this text is changed to.
#[tactic(auto, using(crate::proofs::RewritingLemmas::ValueLemmas::refused, crate::proofs::RewritingLemmas::ValueLemmas::same, crate::proofs::RewritingLemmas::ValueLemmas::of_text, crate::proofs::RewritingLemmas::ValueLemmas::other_text))]
fn answer_by(
    alloc: Global,
    change: LineChange,
    format: FileFormat,
    source: &str,
    value: &SourceDescription,
    text: &str,
) -> Result<ValueAnswer, AllocError>
    requires { text.now ≡ text_of value.now }
    ensures { IfOk result (spec.IsAnswerIn (Some change) format source.now value.now) }
{
    let Some(new) = changed_text(alloc, change, text)? else {
        return Ok(ValueAnswer::Stays(Outcome::Refused));
    };
    if new.as_str() == text {
        return Ok(ValueAnswer::Stays(Outcome::Same));
    }
    respelled(alloc, change, format, source, value, new.as_str())
}

// The string in place of a value, if there is one that denotes its new text.
#[tactic(auto, using(crate::proofs::RewritingLemmas::ValueLemmas::becomes, crate::proofs::RewritingLemmas::ValueLemmas::no_string))]
fn respelled(
    alloc: Global,
    change: LineChange,
    format: FileFormat,
    source: &str,
    value: &SourceDescription,
    new: &str,
) -> Result<ValueAnswer, AllocError>
    requires changed { IsChanged change (text_of value.now) new.now }
    requires other { new.now ≢ text_of value.now }
    ensures { IfOk result (spec.IsAnswerIn (Some change) format source.now value.now) }
{
    match string_for(alloc, format, source, value.piece.start, new.as_bytes())? {
        Some(string) => Ok(ValueAnswer::Becomes(string)),
        None => Ok(ValueAnswer::Stays(Outcome::NotALiteral)),
    }
}
