//! Literals as a dialect quotes them.

ghost use Rattle.std.specs.Prelude.{◌≡◌, ◌∷◌, ◌++◌, [], OnOk, false, string_bytes};
ghost use Rattle.timefd_lang_dialect.specs.Asked as spec;
ghost use Rattle.timefd_lang_dialect.specs.Quotes.{IsCharacter, continues};

use crate::character::first_char;
use crate::dialect::{Dialect, Leading, Quoting};
use crate::plain::are_plain;
use crate::quote::begins_with;
use std::alloc::AllocError;

/// Appends a literal as the dialect quotes it.
pub fn push_quoted(format: &mut String, dialect: Dialect, literal: &str) -> Result<(), AllocError>
    ensures { OnOk result (string_bytes format.new
        ≡ string_bytes format.old ++ spec.quoted dialect literal.now) }
{
    if are_plain(dialect, literal.as_bytes()) {
        return format.push_str(literal);
    }
    push_quoted_by(format, dialect.quoting(), dialect.leading(), literal)
}

fn push_quoted_by(
    format: &mut String,
    quoting: Quoting,
    leading: Leading,
    literal: &str,
) -> Result<(), AllocError>
    ensures { OnOk result (string_bytes format.new
        ≡ string_bytes format.old ++ spec.quoted_by quoting leading literal.now) }
{
    match quoting {
        Quoting::Unquoted => push_unquoted(format, leading, literal),
        Quoting::Apostrophes => push_between_apostrophes(format, literal),
        Quoting::Brackets => push_between_brackets(format, literal),
    }
}

fn push_unquoted(format: &mut String, leading: Leading, literal: &str) -> Result<(), AllocError>
    ensures { OnOk result (string_bytes format.new
        ≡ string_bytes format.old ++ spec.unquoted leading literal.now) }
{
    match leading {
        Leading::Percent => push_doubled(format, literal, b'%', "%"),
        Leading::Bare => format.push_str(literal),
    }
}

#[tactic(auto, using(crate::proofs::AskedLemmas::between))]
fn push_between_apostrophes(format: &mut String, literal: &str) -> Result<(), AllocError>
    ensures { OnOk result (string_bytes format.new
        ≡ string_bytes format.old ++ ((39 ∷ []) ++ (spec.doubled 39 literal.now ++ (39 ∷ [])))) }
{
    format.push_str("'")?;
    push_doubled(format, literal, b'\'', "'")?;
    format.push_str("'")
}

#[tactic(auto, using(crate::proofs::AskedLemmas::between))]
fn push_between_brackets(format: &mut String, literal: &str) -> Result<(), AllocError>
    ensures { OnOk result (string_bytes format.new
        ≡ string_bytes format.old ++ ((91 ∷ []) ++ (literal.now ++ (93 ∷ [])))) }
{
    format.push_str("[")?;
    format.push_str(literal)?;
    format.push_str("]")
}

/// Appends a literal, with each of its bytes that is the mark written twice.
fn push_doubled(format: &mut String, literal: &str, mark: u8, text: &str) -> Result<(), AllocError>
    requires text { text.now ≡ mark ∷ [] }
    requires mark { continues mark ≡ false }
    ensures { OnOk result (string_bytes format.new
        ≡ string_bytes format.old ++ spec.doubled mark literal.now) }
{
    let mut rest = literal;
    'characters: while let Some((character, after)) = first_char(rest) {
        push_marked(format, character, mark, text)?;
        rest = after;
    }
    Ok(())
}

/// Appends a character, and the mark in front of it if the character is the mark.
#[tactic(auto, using(crate::proofs::AskedLemmas::doubled_mark, crate::proofs::AskedLemmas::doubled_other))]
fn push_marked(format: &mut String, character: &str, mark: u8, text: &str) -> Result<(), AllocError>
    requires character { IsCharacter character.now }
    requires text { text.now ≡ mark ∷ [] }
    requires mark { continues mark ≡ false }
    ensures { OnOk result (string_bytes format.new
        ≡ string_bytes format.old ++ spec.doubled mark character.now) }
{
    if begins_with(character, mark) {
        format.push_str(text)?;
    }
    format.push_str(character)
}
