//! The format that a text of version 3 asks for: a row for each bracket, and literals quoted.

ghost use Rattle.std.specs.Prelude.{◌≡◌, ◌<◌, ◌++◌, IfOk, OnOk, false, length, string_bytes, true};
ghost use Rattle.std.specs.Result.{IfErr};
ghost use Rattle.timefd_lang_dialect.specs.Asked as spec;
ghost use Rattle.timefd_lang_dialect.specs.AskedSteps.{TakesBytes, TakesCharacter, TakesLiteral, TakesRun};
ghost use Rattle.timefd_lang_dialect.specs.Back.{IsLackIn};
ghost use Rattle.timefd_lang_dialect.specs.BackSteps.{IsAfter};
ghost use Rattle.timefd_lang_dialect.specs.Best.{own_text, writes};
ghost use Rattle.timefd_lang_dialect.specs.Rows.{entry_of, meaning_of};

use crate::back::NoFormatError;
use crate::character::first_char;
use crate::dialect::Dialect;
use crate::front::after_literal;
use crate::quote::begins_with;
use crate::quoted::push_quoted;
use crate::row::Row;
use crate::writing::{row_writing, written_of};
use std::alloc::{AllocError, Global};
use timefd_language::text::tail;

/// The format that a text of version 3 asks for. The caller checks what the format means.
#[tactic(auto, using(crate::proofs::FormatLemmas::nothing_asked, crate::proofs::FormatLemmas::row_more, crate::proofs::FormatLemmas::literal_more, crate::proofs::FormatLemmas::all_asked, crate::proofs::FormatLemmas::lacking))]
pub fn format_of(
    alloc: Global,
    dialect: Dialect,
    description: &str,
) -> Result<String, NoFormatError>
    ensures asked { IfOk result (λ format. spec.AsksFor dialect description.now
        (string_bytes format)) }
    ensures fault { IfErr result (IsLackIn dialect description.now) }
{
    let mut format = String::new(alloc);
    let mut rest = description;
    'parts: while !rest.is_empty() {
        if ends_literal(rest) {
            let Some(row) = row_writing(dialect, rest) else {
                return Err(NoFormatError::Lacking(description.len() - rest.len()));
            };
            format.push_str(row.text)?;
            rest = after_written(row, rest);
        } else {
            rest = push_literal_run(alloc, &mut format, dialect, rest)?;
        }
    }
    Ok(format)
}

/// Whether a literal ends there: at the end, or at a bracket.
fn ends_literal(text: &str) -> bool
    ensures { result ≡ spec.ends_literal text.now }
{
    match text.as_bytes() {
        [first, ..] => *first == b'[',
        [] => true,
    }
}

/// What follows the text of a row at the front of a description.
fn after_written<'a>(row: &Row, text: &'a str) -> &'a str
    requires { writes (entry_of row.now) text.now ≡ true }
    ensures whole { text.now ≡ own_text (meaning_of row.now.verdict) ++ result.now }
    ensures after { IsAfter text.now result }
{
    match after_literal(text, written_of(row.verdict)) {
        Some(rest) => rest,
        None => unreachable!(),
    }
}

/// Appends the literal up to the next bracket, quoted, and returns what follows.
#[tactic(auto, using(crate::proofs::FormatLemmas::literal_taken))]
fn push_literal_run<'a>(
    alloc: Global,
    format: &mut String,
    dialect: Dialect,
    text: &'a str,
) -> Result<&'a str, AllocError>
    requires { spec.ends_literal text.now ≡ false }
    ensures { IfOk result (TakesLiteral dialect text.now (string_bytes format.old)
        (string_bytes format.new)) }
{
    let mut literal = String::new(alloc);
    let rest = push_run(&mut literal, text)?;
    push_quoted(format, dialect, literal.as_str())?;
    Ok(rest)
}

/// Appends what the literal up to the next bracket means, without its escapes, and returns what
/// follows.
#[tactic(auto, using(crate::proofs::AskedLemmas::run_begun, crate::proofs::AskedLemmas::run_more, crate::proofs::AskedLemmas::all_run))]
fn push_run<'a>(literal: &mut String, text: &'a str) -> Result<&'a str, AllocError>
    requires { spec.ends_literal text.now ≡ false }
    ensures { IfOk result (TakesRun text.now (string_bytes literal.old) (string_bytes literal.new)) }
{
    let mut rest = push_unescaped(literal, text)?;
    'characters: while !ends_literal(rest) {
        rest = push_unescaped(literal, rest)?;
    }
    Ok(rest)
}

/// Appends the character at the front, or the one that an escape means, and returns what follows.
#[tactic(auto, using(crate::proofs::AskedLemmas::plain_taken, crate::proofs::AskedLemmas::escape_taken))]
fn push_unescaped<'a>(literal: &mut String, text: &'a str) -> Result<&'a str, AllocError>
    requires { spec.ends_literal text.now ≡ false }
    ensures { IfOk result (TakesCharacter text.now (string_bytes literal.old)
        (string_bytes literal.new)) }
{
    if begins_with(text, b'\\') {
        return push_escaped(literal, tail(text));
    }
    match first_char(text) {
        Some((character, rest)) => {
            literal.push_str(character)?;
            Ok(rest)
        }
        None => unreachable!(),
    }
}

/// Appends the character after a backslash, or the backslash if none follows it, and returns what
/// follows.
#[tactic(auto, using(crate::proofs::AskedLemmas::after_taken, crate::proofs::AskedLemmas::end_taken))]
fn push_escaped<'a>(literal: &mut String, after: &'a str) -> Result<&'a str, AllocError>
    ensures { IfOk result (TakesBytes (spec.escaped_run after.now) after.now
        (string_bytes literal.old) (string_bytes literal.new)) }
{
    match first_char(after) {
        Some((character, rest)) => {
            literal.push_str(character)?;
            Ok(rest)
        }
        None => {
            literal.push_str("\\")?;
            Ok(after)
        }
    }
}
