//! Where the directives of a format are.

ghost use Rattle.std.specs.Prelude.{◌≡◌, ◌<◌, ◌∷◌, ◌++◌, IfOk, None, OnOk, length};
ghost use Rattle.timefd_lang_dialect.specs.Dialects.{quoting_of};
ghost use Rattle.timefd_lang_dialect.specs.Quotes.{apostrophe, quotation};
ghost use Rattle.timefd_lang_dialect.specs.Rows.{longest as longest_row};
ghost use Rattle.timefd_lang_dialect.specs.SpotSteps.{IsPart};
ghost use Rattle.timefd_lang_dialect.specs.Tables.{rows_of};
ghost use Rattle.timefd_lang_dialect.specs.Traps as spec;

use crate::character::first_char;
use crate::dialect::{Dialect, Quoting};
use crate::front::after_row;
use crate::longest::longest;
use crate::quote::{begins_with, bracketed, push_quotation};
use crate::role::{Role, role_of};
use std::alloc::{AllocError, Global};
use timefd_language::text::tail;

/// Where a directive is in a format, and what it says.
#[derive(Clone, Copy)]
pub struct Spot {
    /// What the directive says.
    pub role: Role,
    /// The index of the directive's first byte in the format.
    pub start: usize,
    /// The index after its last byte.
    pub end: usize,
}

/// A part of a format, and what follows it.
#[derive(Clone, Copy)]
pub struct FormatPart<'a> {
    /// What the part says, if it is a directive.
    pub role: Option<Role>,
    /// What follows the part.
    pub rest: &'a str,
}

/// Where the directives of a format are, from the left.
pub fn spots(alloc: Global, dialect: Dialect, format: &str) -> Result<Vec<Spot>, AllocError>
    ensures { IfOk result (λ spots. spec.AreSpots dialect format.now spots.items) }
{
    let mut spots = Vec::new(alloc);
    let mut quoted = String::new(alloc);
    let mut rest = format;
    'parts: while !rest.is_empty() {
        let part = part_at(&mut quoted, dialect, rest)?;
        let start = format.len() - rest.len();
        let end = format.len() - part.rest.len();
        push_spot(&mut spots, part.role, start, end)?;
        rest = part.rest;
    }
    Ok(spots)
}

/// Appends a part if it is a directive.
fn push_spot(
    spots: &mut Vec<Spot>,
    role: Option<Role>,
    start: usize,
    end: usize,
) -> Result<(), AllocError>
    ensures { OnOk result (spots.new.items ≡ spots.old.items ++ spec.spot_between role start end) }
{
    if let Some(role) = role {
        spots.push(Spot { role, start, end })?;
    }
    Ok(())
}

/// The part at the front of a text. The buffer is overwritten with what is quoted there.
fn part_at<'a>(
    quoted: &mut String,
    dialect: Dialect,
    text: &'a str,
) -> Result<FormatPart<'a>, AllocError>
    requires { 0 < length text.now }
    ensures { IfOk result (IsPart (spec.said_at dialect text.now) text.now) }
{
    match dialect.quoting() {
        Quoting::Unquoted => Ok(row_part(dialect, text)),
        Quoting::Apostrophes => if begins_with(text, b'\'') {
            quotation_part(quoted, tail(text))
        } else {
            Ok(row_part(dialect, text))
        },
        Quoting::Brackets => Ok(bracket_part(dialect, text)),
    }
}

/// What is quoted after an opening apostrophe.
fn quotation_part<'a>(quoted: &mut String, after: &'a str) -> Result<FormatPart<'a>, AllocError>
    ensures { IfOk result (IsPart (spec.said_quotation (quotation after.now))
        (apostrophe ∷ after.now)) }
{
    quoted.clear();
    match push_quotation(quoted, after)? {
        Some(rest) => Ok(literal_before(rest)),
        None => Ok(literal_before("")),
    }
}

/// What is quoted between brackets, or else the longest row or a character.
fn bracket_part(dialect: Dialect, text: &str) -> FormatPart<'_>
    requires there { 0 < length text.now }
    requires quoting { quoting_of dialect ≡ Quoting.Brackets }
    ensures { IsPart (spec.said_at dialect text.now) text.now result }
{
    if !begins_with(text, b'[') {
        return row_part(dialect, text);
    }
    match bracketed(tail(text)) {
        Some((_, rest)) => literal_before(rest),
        None => row_part(dialect, text),
    }
}

/// The longest row at the front of a text, or else the first character.
fn row_part(dialect: Dialect, text: &str) -> FormatPart<'_>
    requires { 0 < length text.now }
    ensures { IsPart (spec.said_row dialect (longest_row (rows_of dialect) text.now) text.now)
        text.now result }
{
    match longest(dialect, text) {
        Some(row) => FormatPart {
            role: Some(role_of(dialect, row)),
            rest: after_row(row, text),
        },
        None => match first_char(text) {
            Some((_, rest)) => literal_before(rest),
            None => unreachable!(),
        },
    }
}

/// A literal that this rest follows.
fn literal_before(rest: &str) -> FormatPart<'_>
    ensures { (result.role ≡ None) × (result.rest.now ≡ rest.now) }
{
    FormatPart { role: None, rest }
}
