//! The only way for texts to reach people, who read them at a terminal: the terminal obeys none of them.

ghost use Rattle.std.specs.Prelude.{◌≡◌, ◌++◌, IfOk, None, OnOk, chars, string_bytes};
ghost use Rattle.std.specs.Io.{WritesAtMost};
ghost use Rattle.std.specs.Io.KnownBytes.{Appends, WriteAppends};
ghost use Rattle.std.specs.List.{list_all};
ghost use Rattle.std.specs.Str.{encode_utf8_all};
ghost use Rattle.timefd_lint_drawing.specs.People.{AllSeen, for_people};
ghost use Rattle.timefd_lint_drawing.specs.People as spec;

use crate::shown::shown_char;
use std::alloc::{AllocError, Global};
use std::io::{Result, Write};

/// Writes a text to people. Characters that a terminal would obey or hide are replaced by visible ones,
/// except for newlines and, if `is_colored` is true, the colours of messages. Bytes that aren't UTF-8 are
/// shown as U+FFFD. An `Err` says that the writer failed or that memory ran out.
#[tactic(auto, using(crate::proofs::PeopleLemmas::shown_as_it_is, crate::proofs::PeopleLemmas::plain_seen))]
pub fn show<W: Write>(alloc: Global, is_colored: bool, text: &[u8], writer: &mut W) -> Result<()>
    ensures exact { OnOk result (Appends (W.contents writer.old) (W.contents writer.new)
        (for_people is_colored text.now)) }
    ensures seen { OnOk result (AllSeen is_colored (chars (for_people is_colored text.now))) }
{
    if are_plain(text) {
        return writer.write_all(text);
    }
    let shown = shown_text(alloc, is_colored, text)?;
    writer.write_all(shown.as_bytes())
}

// Whether each of the bytes is shown as it is by a terminal, or ends a line.
fn are_plain(bytes: &[u8]) -> bool
    ensures { result ≡ list_all spec.is_plain bytes.now }
{
    bytes
        .iter()
        .all(|byte| matches!(*byte, b'\n' | b' '..=b'~'))
}

fn shown_text(
    alloc: Global,
    is_colored: bool,
    bytes: &[u8],
) -> std::result::Result<String, AllocError>
    ensures text { IfOk result (λ shown. string_bytes shown ≡ for_people is_colored bytes.now) }
    ensures seen { OnOk result (AllSeen is_colored (chars (for_people is_colored bytes.now))) }
{
    let text = String::from_utf8_lossy(alloc, bytes)?;
    let all = chars_of(alloc, &text)?;
    let mut shown = String::with_capacity(alloc, text.len())?;
    push_seen(is_colored, &all, &mut shown)?;
    Ok(shown)
}

fn chars_of(alloc: Global, text: &str) -> std::result::Result<Vec<char>, AllocError>
    ensures { IfOk result (λ all. all.items ≡ chars text.now) }
{
    text.chars().collect(alloc)
}

// Appends what people see of each character.
#[tactic(auto, using(crate::proofs::PeopleLemmas::one_more, crate::proofs::PeopleLemmas::at_last))]
fn push_seen(
    is_colored: bool,
    text: &[char],
    shown: &mut String,
) -> std::result::Result<(), AllocError>
    ensures { OnOk result (string_bytes shown.new
        ≡ string_bytes shown.old ++ encode_utf8_all (spec.all_seen_of is_colored text.now)) }
{
    let mut rest = text;
    'chars: while let [c, after_span @ ..] = rest {
        shown.push(seen_of(is_colored, *c, after_span))?;
        rest = after_span;
    }
    Ok(())
}

// What people see of a character that others follow.
fn seen_of(is_colored: bool, c: char, after_span: &[char]) -> char
    ensures { result ≡ spec.seen_of is_colored c after_span.now }
{
    if c == '\n' || (is_colored && c == '\u{1B}' && begins_color(after_span)) {
        c
    } else {
        shown_char(c)
    }
}

// Whether what follows an escape makes it a colour of messages.
fn begins_color(after_span: &[char]) -> bool
    ensures { result ≡ spec.begins_color after_span.now }
{
    begins_plain(after_span) || begins_bold(after_span)
}

fn begins_plain(after_span: &[char]) -> bool
    ensures { result ≡ spec.begins_plain after_span.now }
{
    after_span.len() >= 3 && after_span[0] == '[' && after_span[1] == '0' && after_span[2] == 'm'
}

fn begins_bold(after_span: &[char]) -> bool
    ensures { result ≡ spec.begins_bold after_span.now }
{
    after_span.len() >= 6
        && after_span[0] == '['
        && after_span[1] == '1'
        && after_span[2] == ';'
        && after_span[3] == '3'
        && is_color(after_span[4])
        && after_span[5] == 'm'
}

// Whether it is the digit of red, yellow or blue.
fn is_color(c: char) -> bool
    ensures { result ≡ spec.is_color c }
{
    matches!(c, '1' | '3' | '6')
}

/// A writer that people read: what is written to it is shown to them.
#[derive(Drop)]
pub struct People<W> {
    pub alloc: Global,
    /// Whether people see the colours of messages.
    pub is_colored: bool,
    pub writer: W,
}

impl<W: Write> Write for People<W> {
    fn write(&mut self, buf: &[u8]) -> Result<usize>
        ensures bound { WritesAtMost result buf.now }
        ensures bytes { WriteAppends None None result buf.now }
        ensures shown { OnOk result (Appends (W.contents self.old.writer)
            (W.contents self.new.writer) (for_people self.old.is_colored buf.now)) }
    {
        show(self.alloc, self.is_colored, buf, &mut self.writer)?;
        Ok(buf.len())
    }

    fn flush(&mut self) -> Result<()> {
        self.writer.flush()
    }
}
