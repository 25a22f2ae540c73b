//! Writes texts as the bodies of literals, the part between the quotes.

ghost use Rattle.std.specs.Prelude.{◌≡◌, ◌<◌, ◌&&◌, ◌++◌, IfOk, IfSome, MatchOption, None, OnOk, Some, is_some, true, ⊤};
ghost use Rattle.std.specs.List.{list_all};
ghost use Rattle.timefd_lint_scan.specs.declared.token.LiteralKind.TheVariants as kinds;
ghost use Rattle.timefd_lint_scan.specs.Escapes.{hex_digit, is_of_bytes, letter};
ghost use Rattle.timefd_lint_scan.specs.Written as spec;
ghost use Rattle.timefd_lint_scan.specs.Written.{AddsByte, AddsPiece, IsBodyFor, IsWritten, has_body, is_plain};

use crate::string::hashes;
use crate::token::{Encoding, LiteralKind};
use std::alloc::{AllocError, Global};

/// The body of a literal of this kind that denotes a text. `None` if there is none: a C string has no 0,
/// and a raw literal has no carriage return and nothing that closes it, and only ASCII if it is a byte
/// string. An `Err` says that memory ran out.
pub fn body_for(
    alloc: Global,
    kind: LiteralKind,
    text: &[u8],
) -> Result<Option<Vec<u8>>, AllocError>
    ensures body { IfOk result (λ found. IfSome found (λ body. IsBodyFor kind text.now body.items)) }
    ensures found { IfOk result (λ found. is_some found ≡ has_body kind text.now) }
{
    match kind {
        LiteralKind::Escaped(encoding) => escaped(alloc, encoding, text),
        LiteralKind::Raw(encoding, hash_count) => raw(alloc, encoding, hash_count, text),
    }
}

// A text as it is, if a raw literal can hold it.
#[tactic(auto, using(crate::proofs::WrittenLemmas::raw_body))]
fn raw(
    alloc: Global,
    encoding: Encoding,
    hash_count: usize,
    text: &[u8],
) -> Result<Option<Vec<u8>>, AllocError>
    ensures body { IfOk result (λ found. IfSome found (λ body.
        IsBodyFor (kinds.Raw encoding hash_count) text.now body.items)) }
    ensures found { IfOk result (λ found. is_some found ≡ has_body (kinds.Raw encoding hash_count) text.now) }
{
    if !may_be_raw(encoding, hash_count, text) {
        return Ok(None);
    }
    Ok(Some(Vec::from_slice(alloc, text)?))
}

fn may_be_raw(encoding: Encoding, hash_count: usize, text: &[u8]) -> bool
    ensures { result ≡ has_body (kinds.Raw encoding hash_count) text.now }
{
    all_may_stand_raw(encoding, text) && closes_nowhere(hash_count, text)
}

fn may_stand(encoding: Encoding, byte: u8) -> bool
    ensures { result ≡ spec.may_stand encoding byte }
{
    match encoding {
        Encoding::Str | Encoding::Bytes => true,
        Encoding::C => byte != 0,
    }
}

fn is_itself(encoding: Encoding, byte: u8) -> bool
    ensures { result ≡ spec.is_itself encoding byte }
{
    match encoding {
        Encoding::Bytes => byte < 128,
        Encoding::Str | Encoding::C => true,
    }
}

fn may_stand_raw(encoding: Encoding, byte: u8) -> bool
    ensures { result ≡ spec.may_stand_raw encoding byte }
{
    byte != b'\r' && (may_stand(encoding, byte) && is_itself(encoding, byte))
}

fn all_may_stand(encoding: Encoding, text: &[u8]) -> bool
    ensures { result ≡ list_all (spec.may_stand encoding) text.now }
{
    text.iter().all(|byte| may_stand(encoding, *byte))
}

fn all_may_stand_raw(encoding: Encoding, text: &[u8]) -> bool
    ensures { result ≡ list_all (spec.may_stand_raw encoding) text.now }
{
    text.iter().all(|byte| may_stand_raw(encoding, *byte))
}

/// Whether no quote in a text closes a raw literal with `hash_count` `#`.
pub fn closes_nowhere(hash_count: usize, text: &[u8]) -> bool
    ensures { result ≡ spec.closes_nowhere hash_count text.now }
{
    let mut rest = text;
    'bytes: while let [byte, after @ ..] = rest {
        if *byte == b'"' && hash_count <= hashes(after) {
            return false;
        }
        rest = after;
    }
    true
}

/// Adds a byte as a literal of this kind spells it: with an escape if it needs one and can have one.
pub fn push_byte(body: &mut Vec<u8>, kind: LiteralKind, byte: u8) -> Result<(), AllocError>
    ensures { OnOk result (AddsByte kind byte body.old.items body.new.items) }
{
    match kind {
        LiteralKind::Escaped(encoding) => push_escaped(body, encoding, byte),
        LiteralKind::Raw(_, _) => body.extend_from_slice(&[byte]),
    }
}

// A text with escapes where it needs them.
#[tactic(auto, using(crate::proofs::WrittenLemmas::escaped_body))]
fn escaped(alloc: Global, encoding: Encoding, text: &[u8]) -> Result<Option<Vec<u8>>, AllocError>
    ensures body { IfOk result (λ found. IfSome found (λ body.
        IsBodyFor (kinds.Escaped encoding) text.now body.items)) }
    ensures found { IfOk result (λ found. is_some found ≡ has_body (kinds.Escaped encoding) text.now) }
{
    if all_may_stand(encoding, text) {
        Ok(Some(with_escapes(alloc, encoding, text)?))
    } else {
        Ok(None)
    }
}

// The body with escapes that denotes a text.
#[tactic(auto, using(crate::proofs::WrittenLemmas::byte_more))]
fn with_escapes(alloc: Global, encoding: Encoding, text: &[u8]) -> Result<Vec<u8>, AllocError>
    ensures { IfOk result (λ body. IsWritten encoding text.now body.items) }
{
    let mut body = Vec::new(alloc);
    for byte in text {
        push_escaped(&mut body, encoding, *byte)?;
    }
    Ok(body)
}

// Adds a byte: as it is, by the letter of its escape, or by its number.
#[tactic(auto, using(crate::proofs::WrittenLemmas::letter_adds, crate::proofs::WrittenLemmas::plain_adds, crate::proofs::WrittenLemmas::number_adds))]
fn push_escaped(body: &mut Vec<u8>, encoding: Encoding, byte: u8) -> Result<(), AllocError>
    ensures { OnOk result (AddsPiece encoding byte body.old.items body.new.items) }
{
    if let Some(letter) = letter_for(byte) {
        return body.extend_from_slice(&[b'\\', letter]);
    }
    if is_shown(encoding, byte) {
        return body.extend_from_slice(&[byte]);
    }
    let high = hex_char(byte / 16);
    let low = hex_char(byte % 16);
    body.extend_from_slice(&[b'\\', b'x', high, low])
}

// The letter of the escape that denotes a byte.
fn letter_for(byte: u8) -> Option<u8>
    ensures letter { MatchOption result ⊤ (λ c. letter c ≡ Some byte) }
    ensures plain { result ≡ None → is_plain byte ≡ true }
{
    match byte {
        b'\n' => Some(b'n'),
        b'\r' => Some(b'r'),
        b'\t' => Some(b't'),
        b'\\' => Some(b'\\'),
        0 => Some(b'0'),
        b'"' => Some(b'"'),
        _ => None,
    }
}

// Whether a byte that has no letter is written as it is.
fn is_shown(encoding: Encoding, byte: u8) -> bool
    ensures { result ≡ spec.is_shown encoding byte }
{
    match encoding {
        Encoding::Bytes => 32 <= byte && byte < 0x7F,
        Encoding::Str | Encoding::C => 32 <= byte && byte != 0x7F,
    }
}

// The digit of a number below 16.
fn hex_char(digit: u8) -> u8
    requires { digit < 16 }
    ensures digit { hex_digit result ≡ Some digit }
    ensures plain { is_plain result ≡ true }
{
    if digit < 10 { b'0' + digit } else { 87 + digit }
}
