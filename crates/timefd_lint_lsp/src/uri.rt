//! Paths that URIs name.

ghost use Rattle.std.specs.Prelude.{◌≡◌, ◌+◌, ◌≤◌, IfOk, IfSome, length, option_map};
ghost use Rattle.timefd_lint_lsp.specs.Uris as spec;

use std::alloc::{AllocError, Global};

/// A byte of a decoded text, and what comes after it.
#[derive(Clone, Copy)]
struct DecodedByte<'a> {
    byte: u8,
    rest: &'a [u8],
}

/// What follows `front`, if a text begins with it.
#[tactic(auto, using(crate::proofs::UriLemmas::one_same, crate::proofs::UriLemmas::one_differs, crate::proofs::UriLemmas::text_ends, crate::proofs::UriLemmas::front_ends))]
fn after_front<'a>(front: &[u8], text: &'a [u8]) -> Option<&'a [u8]>
    ensures { option_map (λ rest. rest.now) result ≡ spec.after_front front.now text.now }
{
    let mut left = front;
    let mut rest = text;
    'bytes: while let [byte, more @ ..] = left {
        match rest {
            [first, after @ ..] if *first == *byte => {
                rest = after;
                left = more;
            }
            _ => return None,
        }
    }
    Some(rest)
}

/// A path, if it begins with a slash.
fn rooted(path: &[u8]) -> Option<&[u8]>
    ensures { option_map (λ path. path.now) result ≡ spec.rooted path.now }
{
    match path {
        [b'/', ..] => Some(path),
        _ => None,
    }
}

/// The path of a `file` URI on this machine, as it is written.
fn local_part(uri: &[u8]) -> Option<&[u8]>
    ensures { option_map (λ part. part.now) result ≡ spec.local_part uri.now }
{
    let Some(rest) = after_front(b"file://", uri) else {
        return None;
    };
    match after_front(b"localhost", rest) {
        Some(path) => rooted(path),
        None => rooted(rest),
    }
}

/// The number that a digit of base 16 stands for.
fn digit(byte: u8) -> Option<u8>
    ensures value { result ≡ spec.digit byte }
    ensures few { IfSome result (λ digit. digit ≤ 15) }
{
    match byte {
        b'0'..=b'9' => Some(byte - b'0'),
        b'A'..=b'F' => Some(byte - b'A' + 10),
        b'a'..=b'f' => Some(byte - b'a' + 10),
        _ => None,
    }
}

/// The byte of two digits.
fn byte_of(high: u8, low: u8) -> Option<u8>
    ensures { result ≡ spec.byte_of high low }
{
    match digit(high) {
        Some(high) => match digit(low) {
            Some(low) => Some(16 * high + low),
            None => None,
        },
        None => None,
    }
}

fn piece_of(byte: Option<u8>, rest: &[u8]) -> Option<DecodedByte<'_>>
    ensures piece { option_map spec.seen result ≡ spec.piece_of byte rest.now }
    ensures rest { IfSome result (λ piece. piece.rest.now ≡ rest.now) }
{
    match byte {
        Some(byte) => Some(DecodedByte { byte, rest }),
        None => None,
    }
}

/// The byte that a text begins with: two digits after a percent sign, or itself.
fn first_piece(text: &[u8]) -> Option<DecodedByte<'_>>
    ensures piece { option_map spec.seen result ≡ spec.first_piece text.now }
    ensures shorter { IfSome result (λ piece. length piece.rest.now + 1 ≤ length text.now) }
{
    match text {
        [b'%', high, low, rest @ ..] => piece_of(byte_of(*high, *low), rest),
        [b'%', ..] => None,
        [byte, rest @ ..] => piece_of(Some(*byte), rest),
        [] => None,
    }
}

/// The bytes that a text stands for: two digits after each percent sign are one.
#[tactic(auto, using(crate::proofs::UriLemmas::one_piece, crate::proofs::UriLemmas::none_stand, crate::proofs::UriLemmas::all_stand))]
fn decoded(alloc: Global, text: &[u8]) -> Result<Option<Vec<u8>>, AllocError>
    ensures { IfOk result (λ bytes. spec.items_any bytes ≡ spec.decoded text.now) }
{
    let mut bytes = Vec::new(alloc);
    let mut rest = text;
    'pieces: while !rest.is_empty() {
        let Some(piece) = first_piece(rest) else {
            return Ok(None);
        };
        bytes.push(piece.byte)?;
        rest = piece.rest;
    }
    Ok(Some(bytes))
}

/// The path on this machine that a `file` URI names, in bytes. `None` if it names none. An `Err` says that memory ran out.
pub fn path_of(alloc: Global, uri: &str) -> Result<Option<Vec<u8>>, AllocError>
    ensures { IfOk result (λ path. spec.items_any path ≡ spec.path_of uri.now) }
{
    match local_part(uri.as_bytes()) {
        Some(part) => decoded(alloc, part),
        None => Ok(None),
    }
}
