//! What a format begins with.

ghost use Rattle.std.specs.Prelude.{◌≡◌, ◌<◌, ◌∷◌, ◌++◌, IfSome, MatchOption, drop, length, string_bytes, true};
ghost use Rattle.std.specs.Str.{IsUtf8};
ghost use Rattle.timefd_lang_component.specs.Tree.{Text};
ghost use Rattle.timefd_lang_dialect.specs.Dialects.{quoting_of};
ghost use Rattle.timefd_lang_dialect.specs.Quotes.{apostrophe, quotation};
ghost use Rattle.timefd_lang_dialect.specs.Reading.{front_meant, front_of, front_quotation, front_row};
ghost use Rattle.timefd_lang_dialect.specs.Rows.{entry_of, longest as longest_row, meaning_of, stands};
ghost use Rattle.timefd_lang_dialect.specs.Steps.{GivesStep, GivesSteps};
ghost use Rattle.timefd_lang_dialect.specs.Tables.{rows_of};

use crate::character::{first_char, push_char, push_literal};
use crate::dialect::{Dialect, Quoting};
use crate::longest::longest;
use crate::plain::cut_plain;
use crate::quote::{begins_with, bracketed, push_quotation};
use crate::reason::Reason;
use crate::row::{Range, Row, Verdict};
use std::alloc::AllocError;
use timefd_language::text::tail;

/// What follows a piece, and for which moments the text of the piece writes the same.
#[derive(Clone, Copy)]
pub struct FrontStep<'a> {
    pub rest: &'a str,
    pub range: Range,
}

/// Why there is no step.
#[derive(Clone, Copy)]
pub enum Stop {
    /// What the text begins with has no text of version 3.
    Refused(Reason),
    /// Memory ran out.
    Memory(AllocError),
}

impl From<AllocError> for Stop {
    ghost use Rattle.std.specs.Prelude.{◌≡◌};
    ghost use Rattle.timefd_lang_dialect.specs.declared.front.Stop.TheVariants.{Memory};

    ghost from_gives = { λ e stop. stop ≡ Memory e };

    fn from(error: AllocError) -> Self {
        Stop::Memory(error)
    }
}

/// Appends the texts of pieces at the front of a format: of a run of literal bytes, or of one
/// piece.
pub fn push_pieces<'a>(
    answer: &mut String,
    dialect: Dialect,
    text: &'a str,
) -> Result<FrontStep<'a>, Stop>
    requires { 0 < length text.now }
    ensures { GivesSteps dialect text.now (string_bytes answer.old) (string_bytes answer.new) result }
{
    let (run, rest) = cut_plain(dialect, text);
    if run.is_empty() {
        return push_front(answer, dialect, text);
    }
    answer.push_str(run)?;
    Ok(whole(rest))
}

/// Appends the text of the piece at the front of a format.
pub fn push_front<'a>(
    answer: &mut String,
    dialect: Dialect,
    text: &'a str,
) -> Result<FrontStep<'a>, Stop>
    requires { 0 < length text.now }
    ensures { GivesStep (front_of dialect text.now) text.now (string_bytes answer.old)
        (string_bytes answer.new) result }
{
    match dialect.quoting() {
        Quoting::Unquoted => push_row(answer, dialect, text),
        Quoting::Apostrophes => if begins_with(text, b'\'') {
            push_apostrophes(answer, tail(text))
        } else {
            push_row(answer, dialect, text)
        },
        Quoting::Brackets => push_brackets(answer, dialect, text),
    }
}

/// Appends what is quoted after an opening apostrophe, and returns the rest.
fn push_apostrophes<'a>(answer: &mut String, after: &'a str) -> Result<FrontStep<'a>, Stop>
    ensures { GivesStep (front_quotation (quotation after.now)) (apostrophe ∷ after.now)
        (string_bytes answer.old) (string_bytes answer.new) result }
{
    let start = answer.len();
    let Some(rest) = push_quotation(answer, after)? else {
        return Err(Stop::Refused(Reason::UnclosedQuote));
    };
    if answer.len() == start {
        answer.push_str("'")?;
    }
    Ok(whole(rest))
}

/// Appends what is quoted between brackets, or else the longest row or a character.
fn push_brackets<'a>(
    answer: &mut String,
    dialect: Dialect,
    text: &'a str,
) -> Result<FrontStep<'a>, Stop>
    requires there { 0 < length text.now }
    requires quoting { quoting_of dialect ≡ Quoting.Brackets }
    ensures { GivesStep (front_of dialect text.now) text.now (string_bytes answer.old)
        (string_bytes answer.new) result }
{
    if !begins_with(text, b'[') {
        return push_row(answer, dialect, text);
    }
    match bracketed(tail(text)) {
        Some((quoted, rest)) => {
            push_literal(answer, quoted)?;
            Ok(whole(rest))
        }
        None => push_row(answer, dialect, text),
    }
}

/// Appends what the longest row at the front of the text means, or else the first character.
fn push_row<'a>(answer: &mut String, dialect: Dialect, text: &'a str) -> Result<FrontStep<'a>, Stop>
    requires { 0 < length text.now }
    ensures { GivesStep (front_row (longest_row (rows_of dialect) text.now) text.now) text.now
        (string_bytes answer.old) (string_bytes answer.new) result }
{
    match longest(dialect, text) {
        Some(row) => push_verdict(answer, row, text),
        None => match first_char(text) {
            Some((character, rest)) => {
                push_char(answer, character)?;
                Ok(whole(rest))
            }
            None => unreachable!(),
        },
    }
}

/// Appends what a row at the front of the text means.
fn push_verdict<'a>(answer: &mut String, row: &Row, text: &'a str) -> Result<FrontStep<'a>, Stop>
    requires there { 0 < length row.now.text.now }
    requires stands { stands (entry_of row.now) text.now ≡ true }
    ensures { GivesStep (front_meant (meaning_of row.now.verdict)
        (drop (length row.now.text.now) text.now)) text.now (string_bytes answer.old)
        (string_bytes answer.new) result }
{
    match row.verdict {
        Verdict::Refused(reason) => Err(Stop::Refused(reason)),
        Verdict::Written(written, range) => {
            answer.push_str(written)?;
            Ok(FrontStep {
                rest: after_row(row, text),
                range,
            })
        }
    }
}

/// What follows a row at the front of the text.
pub fn after_row<'a>(row: &Row, text: &'a str) -> &'a str
    requires { stands (entry_of row.now) text.now ≡ true }
    ensures rest { result.now ≡ drop (length row.now.text.now) text.now }
    ensures whole { text.now ≡ row.now.text.now ++ result.now }
    ensures utf8 { IsUtf8 result.now }
{
    match after_literal(text, row.text) {
        Some(rest) => rest,
        None => unreachable!(),
    }
}

/// What follows a literal, if the text begins with it.
pub fn after_literal<'a>(text: &'a str, literal: &str) -> Option<&'a str>
    ensures rest { MatchOption result ((rest : Text) → ¬ (text.now ≡ literal.now ++ rest))
        (λ rest. text.now ≡ literal.now ++ rest.now) }
    ensures utf8 { IfSome result (λ rest. IsUtf8 rest.now) }
{
    text.strip_prefix(literal)
}

/// A step past a literal, which writes the same at every moment.
fn whole(rest: &str) -> FrontStep<'_>
    ensures { (result.rest.now ≡ rest.now) × (result.range ≡ Range.Years0To9999) }
{
    FrontStep {
        rest,
        range: Range::Years0To9999,
    }
}
