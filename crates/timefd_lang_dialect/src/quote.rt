//! What a dialect quotes.

ghost use Rattle.std.specs.Prelude.{◌≡◌, ◌<◌, ◌==◌, ◌++◌, IfOk, IfSome, MatchOption, Option, length, slice_index, string_bytes};
ghost use Rattle.std.specs.Str.{IsUtf8};
ghost use Rattle.timefd_lang_dialect.specs.Quotes as spec;
ghost use Rattle.timefd_lang_dialect.specs.QuoteSteps.{AppendsQuotation, IsBracketed, IsQuoteStep};
ghost use Rattle.timefd_language.specs.Bytes.{right};

use crate::character::{first_char, push_char};
use std::alloc::AllocError;
use timefd_language::text::tail;

/// What comes next after an opening apostrophe.
#[derive(Clone, Copy)]
pub enum QuoteStep<'a> {
    /// The end of the text.
    End,
    /// The closing apostrophe, and what follows it.
    Closing(&'a str),
    /// A literal character, and what follows it.
    Character(&'a str, &'a str),
}

/// Appends what is quoted between an opening apostrophe and the one that closes it, and returns
/// what follows; `None` if none closes it.
pub fn push_quotation<'a>(
    answer: &mut String,
    after: &'a str,
) -> Result<Option<&'a str>, AllocError>
    ensures { IfOk result (λ rest. AppendsQuotation after.now (string_bytes answer.old)
        (string_bytes answer.new) rest) }
{
    let mut rest = after;
    'characters: loop {
        match quote_step(rest) {
            QuoteStep::End => return Ok(None),
            QuoteStep::Closing(after) => return Ok(Some(after)),
            QuoteStep::Character(character, after) => {
                push_char(answer, character)?;
                rest = after;
            }
        }
    }
}

/// What comes next after an opening apostrophe.
fn quote_step(text: &str) -> QuoteStep<'_>
    ensures { IsQuoteStep text.now result }
{
    let Some((character, after)) = first_char(text) else {
        return QuoteStep::End;
    };
    if !begins_with(text, b'\'') {
        return QuoteStep::Character(character, after);
    }
    let closed = tail(text);
    match closed.as_bytes() {
        [b'\'', ..] => QuoteStep::Character("'", tail(closed)),
        _ => QuoteStep::Closing(closed),
    }
}

/// Whether the first byte is this one.
pub fn begins_with(text: &str, byte: u8) -> bool
    requires { 0 < length text.now }
    ensures { result ≡ (slice_index text.now 0 == byte) }
{
    text.as_bytes()[0] == byte
}

/// What is between a `[` and the last `]` before the next `[`, and what follows that `]`.
pub fn bracketed(after: &str) -> Option<(&str, &str)>
    ensures { IsBracketed after.now result }
{
    match closing(after.as_bytes()) {
        Some(at) => {
            let (quoted, rest) = after.split_at(at);
            Some((quoted, tail(rest)))
        }
        None => None,
    }
}

/// The index of the last `]` before the next `[`.
fn closing(after: &[u8]) -> Option<usize>
    ensures index { result ≡ spec.closing after.now }
    ensures within { IfSome result (λ at. at < length after.now) }
    ensures bracket { IfSome result (λ at. slice_index after.now at ≡ right) }
{
    let mut last = None;
    'bytes: for at in 0..after.len() {
        if after[at] == b'[' {
            return last;
        }
        if after[at] == b']' {
            last = Some(at);
        }
    }
    last
}
