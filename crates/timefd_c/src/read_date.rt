//! The functions that C calls to read a date by a text.

ghost use Rattle.std.specs.Prelude.{◌≤◌, min};
ghost use Rattle.timefd_language.specs.Grammar.{nesting_limit};
ghost use Rattle.timefd_c.specs.Dates.{ReadsDate};
ghost use Rattle.timefd_c.specs.Languages.{language_of};

use crate::answer::{NOT_UTF8, UNKNOWN_KIND};
use crate::date_answer::{DATE_NOT_UTF8, DateAnswer};
use crate::numbers::{from_number, limit_from};
use std::alloc::Global;
use timefd_c_nodes::reading::text_of;
use timefd_description::read_text_within;
use timefd_parse::{Language, NESTING_LIMIT};

/// Reads a date by a description, a text of the language with this number, and returns the moment
/// that the date shows: what is known of a date, a time of day and an offset.
#[unsafe(no_mangle)]
pub extern "C" fn timefd_read_date(alloc: Global, kind: u32, text: &[u8], date: &[u8]) -> DateAnswer
    ensures reads { ReadsDate (language_of kind) nesting_limit text.now date.now result }
{
    read_by(alloc, from_number(kind), NESTING_LIMIT, text, date)
}

/// Does what `timefd_read_date` does, with at most `limit` nested descriptions around one another: a description that
/// nests deeper is refused. A limit above `NESTING_LIMIT` counts as `NESTING_LIMIT`. The limit bounds how much stack the
/// call takes.
#[unsafe(no_mangle)]
pub extern "C" fn timefd_read_date_within(
    alloc: Global,
    kind: u32,
    limit: u32,
    text: &[u8],
    date: &[u8],
) -> DateAnswer
    ensures reads { ReadsDate (language_of kind) (min limit nesting_limit) text.now date.now result }
{
    read_by(alloc, from_number(kind), limit_from(limit), text, date)
}

// Both calls share this function, so that there is one caller of the reader.
#[inline(never)]
fn read_by(
    alloc: Global,
    language: Option<Language>,
    limit: u8,
    text: &[u8],
    date: &[u8],
) -> DateAnswer
    requires { limit ≤ nesting_limit }
    ensures reads { ReadsDate language limit text.now date.now result }
{
    let Some(language) = language else {
        return DateAnswer::silent(UNKNOWN_KIND, 0);
    };
    let Ok(text) = text_of(text) else {
        return DateAnswer::silent(NOT_UTF8, 0);
    };
    let Ok(date) = text_of(date) else {
        return DateAnswer::silent(DATE_NOT_UTF8, 0);
    };
    let read = read_text_within(alloc, language, limit, text, date);
    DateAnswer::of(&read)
}
