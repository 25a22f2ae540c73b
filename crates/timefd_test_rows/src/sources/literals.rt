//! Literals of Rust: the texts that they mean, and what is between their quotes.

use crate::fault::RowFault;
use crate::fields::two;
use crate::sources::shown::text_of;
use std::alloc::{AllocError, Global};
use timefd_lint_scan::{
    Encoding, LiteralKind, Token, Unescaped, body_alike, body_for, descriptions_of, literal_text,
    pieces_of,
};

/// The answer if there is no such literal.
const NONE: &str = "none";

/// The text of the first literal of a source.
fn first_text(alloc: Global, source: &str) -> Result<Option<Unescaped>, AllocError> {
    for piece in &pieces_of(alloc, source)? {
        if let Token::Literal(kind) = piece.token {
            return literal_text(alloc, source, *piece, kind);
        }
    }
    Ok(None)
}

/// The text in quotes, or as numbers if it isn't UTF-8, and the positions of its bytes.
fn with_positions(alloc: Global, unescaped: &Unescaped) -> Result<String, AllocError> {
    let positions = unescaped.positions.as_slice();
    let bytes = unescaped.text.as_slice();
    match str::from_utf8(bytes) {
        Ok(text) => format!(in alloc; "{text:?} at {positions:?}"),
        Err(_) => format!(in alloc; "{bytes:?} at {positions:?}"),
    }
}

/// The text of the first literal of a source, and the position in the source of each of its bytes.
pub fn literal(alloc: Global, source: &str) -> Result<String, RowFault> {
    match first_text(alloc, source)? {
        Some(unescaped) => Ok(with_positions(alloc, &unescaped)?),
        None => Ok(String::from_str(alloc, NONE)?),
    }
}

/// The kind of the literals that begin so in Rust.
fn kind_of(word: &str) -> Result<LiteralKind, RowFault> {
    match word {
        "str" => Ok(LiteralKind::Escaped(Encoding::Str)),
        "b" => Ok(LiteralKind::Escaped(Encoding::Bytes)),
        "c" => Ok(LiteralKind::Escaped(Encoding::C)),
        "r" => Ok(LiteralKind::Raw(Encoding::Str, 0)),
        "r#" => Ok(LiteralKind::Raw(Encoding::Str, 1)),
        "br" => Ok(LiteralKind::Raw(Encoding::Bytes, 0)),
        "br##" => Ok(LiteralKind::Raw(Encoding::Bytes, 2)),
        "cr" => Ok(LiteralKind::Raw(Encoding::C, 0)),
        _ => Err(RowFault::Field("a kind of literal: str, b, c, r, r#, br, br## or cr")),
    }
}

/// The body that was found.
fn body_shown(alloc: Global, found: Option<Vec<u8>>) -> Result<String, RowFault> {
    match found {
        Some(body) => Ok(text_of(alloc, &body)?),
        None => Ok(String::from_str(alloc, NONE)?),
    }
}

/// What to write between the quotes of a literal of a kind, so that it means a text.
pub fn body(alloc: Global, fields: &[&str]) -> Result<String, RowFault> {
    let (kind, text) = two(fields, "KIND TEXT")?;
    body_shown(alloc, body_for(alloc, kind_of(kind)?, text.as_bytes())?)
}

fn first_alike(alloc: Global, source: &str, text: &str) -> Result<Option<Vec<u8>>, AllocError> {
    match descriptions_of(alloc, source, &[])?.first() {
        Some(description) => body_alike(alloc, source, description, text.as_bytes()),
        None => Ok(None),
    }
}

/// What to write between the quotes of a source's first description, so that it means another text.
pub fn alike(alloc: Global, fields: &[&str]) -> Result<String, RowFault> {
    let (source, text) = two(fields, "SOURCE TEXT")?;
    body_shown(alloc, first_alike(alloc, source, text)?)
}
