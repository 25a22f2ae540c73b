//! Steps through a text: the longest run of bytes of one class, and what a text begins with.

ghost use Rattle.std.specs.Prelude.{◌≡◌, ◌≤◌, ◌<◌, chars, length, ◌==◌, ◌∷◌, MatchOption, slice_index, ℕ, IsTrue, [], true, ⊤};
ghost use Rattle.std.specs.List.{prefix_len};
ghost use Rattle.std.specs.Str.{IsUtf8};
ghost use Rattle.timefd_language.specs.Bytes as spec;
ghost use Rattle.timefd_language.specs.Bytes.{is_run_byte, StopsBefore};
ghost use Rattle.timefd_language.specs.Spans as spans;
ghost use Rattle.timefd_language.specs.Cut.{class_test, is_high, IsCut, BeginsWith};

use crate::description_version::DescriptionVersion;
use crate::search::{high_len, len_before};

/// A class of bytes. A run of its bytes ends where a character ends.
#[derive(Clone, Copy)]
pub enum Class {
    /// White space: tab, line feed, form feed, carriage return and space.
    White,
    /// Bytes of a name, or of a modifier.
    Word,
    /// Bytes of a modifier's key: the bytes of a word except the colon.
    Key,
    /// Bytes of a literal in versions 2 and 3.
    Run,
    /// Bytes of a literal in version 1, where a backslash is an ordinary byte.
    RunWithBackslash,
    /// Bytes of a literal of strftime.
    Plain,
}

/// What a text begins with, and what follows it.
#[derive(Clone, Copy)]
pub enum Start<'a> {
    End,
    Opening(&'a str),
    Closing(&'a str),
    Backslash(&'a str),
    Other,
}

#[inline(always)]
fn is_white(byte: u8) -> bool
    ensures { result ≡ spec.is_white byte }
{
    byte == b'\t' || byte == b'\n' || byte == 12 || byte == b'\r' || byte == b' '
}

#[inline(always)]
fn is_special(byte: u8) -> bool
    ensures { result ≡ spec.is_special byte }
{
    byte == b'[' || byte == b']' || byte == b'\\'
}

#[inline(always)]
fn is_in(class: Class, byte: u8) -> bool
    ensures { result ≡ class_test class byte }
{
    // Most bytes of a word are greater than every byte that ends one, so this test comes first.
    match class {
        Class::White => is_white(byte),
        Class::Word => byte > b']' || !is_special(byte) && !is_white(byte),
        Class::Key => byte > b']' || byte != b':' && !is_special(byte) && !is_white(byte),
        Class::Run => !is_special(byte),
        Class::RunWithBackslash => !is_special(byte) || byte == b'\\',
        Class::Plain => byte != b'%',
    }
}

/// How many bytes are checked one by one. A longer run is most likely a literal, which is searched
/// many bytes at a time.
const NEAR: usize = 8;

/// How many bytes at the front are in the class, if it is a class of literals.
#[inline(always)]
fn literal_len(bytes: &[u8], class: Class) -> Option<usize>
    ensures { MatchOption result ⊤ (λ n. (n ≡ prefix_len (class_test class) bytes.now)
        × (n ≤ length bytes.now)) }
{
    match class {
        Class::Run => Some(len_before(bytes, b'[', b']', b'\\')),
        Class::RunWithBackslash => Some(len_before(bytes, b'[', b']', b'[')),
        Class::Plain => Some(len_before(bytes, b'%', b'%', b'%')),
        Class::White | Class::Word | Class::Key => None,
    }
}

/// How many bytes at the front are in the class.
#[inline(always)]
fn run_len(bytes: &[u8], class: Class) -> usize
    ensures len { result ≡ prefix_len (class_test class) bytes.now }
    ensures within { result ≤ length bytes.now }
{
    for (at, byte) in bytes.iter().enumerate() {
        if at == NEAR
            && let Some(len) = literal_len(bytes, class)
        {
            return len;
        }
        if !is_in(class, *byte) {
            return at;
        }
    }
    bytes.len()
}

/// How many bytes at the front are in a class of words. Bytes greater than every byte that ends a
/// word are skipped together.
#[inline(always)]
fn word_len(bytes: &[u8], class: Class) -> usize
    requires { (b : ℕ) → is_high b ≡ true → class_test class b ≡ true }
    ensures len { result ≡ prefix_len (class_test class) bytes.now }
    ensures within { result ≤ length bytes.now }
{
    let high = high_len(bytes);
    high + run_len(&bytes[high..], class)
}

/// How many bytes at the front are in the class, whichever it is.
#[inline(always)]
fn class_len(bytes: &[u8], class: Class) -> usize
    ensures len { result ≡ prefix_len (class_test class) bytes.now }
    ensures within { result ≤ length bytes.now }
{
    match class {
        Class::Word => word_len(bytes, Class::Word),
        Class::Key => word_len(bytes, Class::Key),
        _ => run_len(bytes, class),
    }
}

/// Splits a text after its longest front of bytes in the class.
#[inline(always)]
pub fn cut(text: &str, class: Class) -> (&str, &str)
    ensures parts { IsCut (class_test class) text.now result.0.now result.1.now }
    ensures utf8 { IsUtf8 result.1.now }
{
    text.split_at(class_len(text.as_bytes(), class))
}

/// Does what [`cut`] does, for a class of literals only, without the check for words.
#[inline(always)]
fn cut_literal(text: &str, class: Class) -> (&str, &str)
    ensures parts { IsCut (class_test class) text.now result.0.now result.1.now }
    ensures utf8 { IsUtf8 result.1.now }
{
    text.split_at(run_len(text.as_bytes(), class))
}

/// Splits a text after its longest front that is one literal of the version.
#[inline(always)]
pub fn cut_run(version: DescriptionVersion, text: &str) -> (&str, &str)
    ensures parts { IsCut (is_run_byte version) text.now result.0.now result.1.now }
    ensures utf8 { IsUtf8 result.1.now }
{
    match version {
        DescriptionVersion::One => cut_literal(text, Class::RunWithBackslash),
        DescriptionVersion::Two | DescriptionVersion::Three => cut_literal(text, Class::Run),
    }
}

/// What follows the first byte, which has to be ASCII.
#[inline(always)]
pub fn tail(text: &str) -> &str
    requires there { 0 < length text.now }
    requires ascii { slice_index text.now 0 < 128 }
    ensures rest { text.now ≡ slice_index text.now 0 ∷ result.now }
    ensures utf8 { IsUtf8 result.now }
{
    &text[1..]
}

/// What a text begins with.
#[inline(always)]
pub fn start_of(text: &str) -> Start<'_>
    ensures { BeginsWith result text.now }
{
    match text.as_bytes() {
        [] => Start::End,
        [b'[', ..] => Start::Opening(tail(text)),
        [b']', ..] => Start::Closing(tail(text)),
        [b'\\', ..] => Start::Backslash(tail(text)),
        [_, ..] => Start::Other,
    }
}

/// How many bytes the first character has; none in the empty text.
#[inline(always)]
pub fn first_len(text: &str) -> usize
    ensures len { result ≡ spans.first_len (chars text.now) }
    ensures within { result ≤ length text.now }
{
    match text.chars().next() {
        Some(character) => character.len_utf8(),
        None => 0,
    }
}

/// What follows a colon, if the text begins with one.
#[inline(always)]
pub fn after_colon(text: &str) -> Option<&str>
    ensures { MatchOption result (StopsBefore (λ b. b == 58) text.now)
        (λ rest. text.now ≡ 58 ∷ rest.now) }
{
    match text.as_bytes() {
        [b':', ..] => Some(tail(text)),
        _ => None,
    }
}

/// The first byte and the rest, if the first is a byte that can be escaped in versions 2 and 3:
/// `[`, `]` or `\`.
#[inline(always)]
pub fn escaped(text: &str) -> Option<(&str, &str)>
    ensures { MatchOption result (StopsBefore spec.is_special text.now) (λ x. (b : ℕ)
        × IsTrue (spec.is_special b) × (x.0.now ≡ b ∷ []) × (text.now ≡ b ∷ x.1.now)
        × IsUtf8 x.1.now) }
{
    match text.as_bytes() {
        [byte, ..] if is_special(*byte) => Some(text.split_at(1)),
        _ => None,
    }
}
