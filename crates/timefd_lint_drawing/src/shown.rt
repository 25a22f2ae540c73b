//! Texts, made safe for a terminal.

ghost use Rattle.std.specs.Prelude.{◌≡◌, ◌<◌, ◌-◌, ◌^◌, ◌++◌, chars, drop, false, true, IfOk, length, OnOk, string_bytes, take};
ghost use Rattle.std.specs.List.{list_all};
ghost use Rattle.std.specs.Str.{encode_utf8_all};
ghost use Rattle.timefd_lint_drawing.specs.Shown as spec;
ghost use Rattle.unicode_width.specs.Width.{str_width};

use std::alloc::{AllocError, Global};
use unicode_width::UnicodeWidthStr;

/// Whether a terminal would obey a character or hide it: a control character, a line or paragraph separator,
/// one that changes the direction of text, or one that is ignored if it can't be shown.
pub fn is_hidden(c: char) -> bool
    ensures { result ≡ spec.is_hidden c }
{
    matches!(
        c,
        '\u{0}'..='\u{1F}'
            | '\u{7F}'..='\u{9F}'
            | '\u{AD}'
            | '\u{34F}'
            | '\u{61C}'
            | '\u{115F}'..='\u{1160}'
            | '\u{17B4}'..='\u{17B5}'
            | '\u{180B}'..='\u{180F}'
            | '\u{200B}'..='\u{200F}'
            | '\u{2028}'..='\u{202E}'
            | '\u{2060}'..='\u{206F}'
            | '\u{3164}'
            | '\u{FE00}'..='\u{FE0F}'
            | '\u{FEFF}'
            | '\u{FFA0}'
            | '\u{FFF0}'..='\u{FFFB}'
            | '\u{1BCA0}'..='\u{1BCA3}'
            | '\u{1D173}'..='\u{1D17A}'
            | '\u{E0000}'..='\u{E0FFF}'
    )
}

/// The character that is shown for a character: the picture of a control character of ASCII, the replacement
/// character for any other hidden one, and else the character itself.
pub fn shown_char(c: char) -> char
    ensures { result ≡ spec.shown c }
{
    match c {
        '\u{0}'..='\u{1F}' => char::from_u32(0x2400 + c as u32).unwrap_or('\u{FFFD}'),
        '\u{7F}' => '\u{2421}',
        _ if is_hidden(c) => '\u{FFFD}',
        _ => c,
    }
}

// Whether a terminal shows each of the bytes as it is.
fn are_printable(bytes: &[u8]) -> bool
    ensures { result ≡ list_all spec.is_printable bytes.now }
{
    bytes.iter().all(|byte| matches!(*byte, b' '..=b'~'))
}

/// The text with a visible character for each hidden one, so that a terminal obeys none of them. An `Err`
/// says that memory ran out.
#[tactic(auto, using(crate::proofs::ShownLemmas::shown_as_it_is))]
pub fn safe(alloc: Global, text: &str) -> Result<String, AllocError>
    ensures { IfOk result (λ shown. string_bytes shown ≡ spec.safe text.now) }
{
    if are_printable(text.as_bytes()) {
        return String::from_str(alloc, text);
    }
    text.chars().map(shown_char).collect(alloc)
}

/// Makes an owned text safe like `safe`, and returns it as it is if it has only printing ASCII.
#[tactic(auto, using(crate::proofs::ShownLemmas::shown_as_it_is))]
pub fn safe_string(alloc: Global, text: String) -> Result<String, AllocError>
    ensures { IfOk result (λ shown. string_bytes shown ≡ spec.safe (string_bytes text)) }
{
    if are_printable(text.as_bytes()) {
        return Ok(text);
    }
    safe(alloc, &text)
}

/// Appends a text to a string, made safe for a terminal. An `Err` says that memory ran out.
#[tactic(auto, using(crate::proofs::ShownLemmas::shown_as_it_is))]
pub fn push_safe(alloc: Global, out: &mut String, text: &str) -> Result<(), AllocError>
    ensures { OnOk result (string_bytes out.new ≡ string_bytes out.old ++ spec.safe text.now) }
{
    if are_printable(text.as_bytes()) {
        return out.push_str(text);
    }
    let shown = safe(alloc, text)?;
    out.push_str(&shown)
}

/// Whether a text is shown as it is: it has at most `most` bytes, and a terminal shows each of them as it is.
#[tactic(auto, using(crate::proofs::ShownLemmas::plain_start, crate::proofs::ShownLemmas::plain_end))]
pub fn is_shown_as_it_is(text: &str, most: usize) -> bool
    ensures start { result ≡ true → spec.safe (spec.cut_start most text.now) ≡ text.now }
    ensures end { result ≡ true → spec.safe (spec.cut_end most text.now) ≡ text.now }
{
    text.len() <= most && are_printable(text.as_bytes())
}

/// The columns that a text takes in a terminal once it is made safe. An `Err` says that memory ran out.
#[tactic(auto, using(crate::proofs::ShownLemmas::shown_as_it_is))]
pub fn columns(alloc: Global, text: &str) -> Result<usize, AllocError>
    ensures value { IfOk result (λ columns.
        columns ≡ str_width false (chars (spec.safe text.now))) }
    ensures bound { IfOk result (λ columns. columns < 2 ^ 64 - 1) }
{
    if are_printable(text.as_bytes()) {
        return Ok(text.width());
    }
    let text = safe(alloc, text)?;
    Ok(text.width())
}

/// How many characters a text has.
pub fn char_count(text: &str) -> usize
    ensures { result ≡ length (chars text.now) }
{
    text.chars().count()
}

/// The first `most` characters of a text, with a mark after them if some are left out. An `Err` says that
/// memory ran out.
pub fn cut_end(alloc: Global, text: &str, most: usize) -> Result<String, AllocError>
    ensures { IfOk result (λ cut. string_bytes cut ≡ spec.cut_end most text.now) }
{
    if char_count(text) <= most {
        return String::from_str(alloc, text);
    }
    let front = first_chars(alloc, text, most)?;
    format!(in alloc; "{front}..")
}

/// The last `most` characters of a text, with a mark before them if some are left out. An `Err` says that
/// memory ran out.
pub fn cut_start(alloc: Global, text: &str, most: usize) -> Result<String, AllocError>
    ensures { IfOk result (λ cut. string_bytes cut ≡ spec.cut_start most text.now) }
{
    let count = char_count(text);
    if count <= most {
        return String::from_str(alloc, text);
    }
    let rest = chars_after(alloc, text, count - most)?;
    format!(in alloc; "..{rest}")
}

/// What `cut_end` returns, made safe for a terminal. An `Err` says that memory ran out.
pub fn shown_end(alloc: Global, text: &str, most: usize) -> Result<String, AllocError>
    ensures { IfOk result (λ shown. string_bytes shown ≡ spec.safe (spec.cut_end most text.now)) }
{
    if char_count(text) <= most {
        return safe(alloc, text);
    }
    let cut = cut_end(alloc, text, most)?;
    safe(alloc, &cut)
}

/// What `cut_start` returns, made safe for a terminal. An `Err` says that memory ran out.
pub fn shown_start(alloc: Global, text: &str, most: usize) -> Result<String, AllocError>
    ensures { IfOk result (λ shown. string_bytes shown ≡ spec.safe (spec.cut_start most text.now)) }
{
    if char_count(text) <= most {
        return safe(alloc, text);
    }
    let cut = cut_start(alloc, text, most)?;
    safe(alloc, &cut)
}

fn first_chars(alloc: Global, text: &str, count: usize) -> Result<String, AllocError>
    ensures { IfOk result (λ front. string_bytes front
        ≡ encode_utf8_all (take count (chars text.now))) }
{
    text.chars().take(count).collect(alloc)
}

fn chars_after(alloc: Global, text: &str, count: usize) -> Result<String, AllocError>
    ensures { IfOk result (λ rest. string_bytes rest
        ≡ encode_utf8_all (drop count (chars text.now))) }
{
    text.chars().skip(count).collect(alloc)
}
