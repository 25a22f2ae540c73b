//! Tokens and descriptions of sources of Rust.

use crate::fault::RowFault;
use crate::sources::shown::all_shown;
use std::alloc::{AllocError, Global};
use timefd_lint_scan::{Encoding, LiteralKind, Token, VersionPosition, descriptions_of, pieces_of};

fn encoding_mark(encoding: Encoding) -> &'static str {
    match encoding {
        Encoding::Str => "str",
        Encoding::Bytes => "bytes",
        Encoding::C => "c",
    }
}

fn token_mark(token: Token) -> &'static str {
    match token {
        Token::White => "white",
        Token::Comment => "comment",
        Token::Word => "word",
        Token::Lifetime => "lifetime",
        Token::Character => "char",
        Token::Literal(LiteralKind::Escaped(encoding)) => encoding_mark(encoding),
        Token::Literal(LiteralKind::Raw(_, _)) => "raw",
        Token::Sign => "sign",
        Token::Unclosed => "unclosed",
    }
}

/// The tokens of a source except white space, each as its kind and its text, between bars.
pub fn tokens(alloc: Global, source: &str) -> Result<String, RowFault> {
    let mut shown = String::new(alloc);
    for piece in &pieces_of(alloc, source)? {
        if piece.token != Token::White {
            shown.push_str(token_mark(piece.token))?;
            shown.push_str(" ")?;
            shown.push_str(source.get(piece.start..piece.end).unwrap_or("?"))?;
            shown.push_str("|")?;
        }
    }
    Ok(shown)
}

/// The descriptions of a source, each as its language and its text, between bars.
pub fn descriptions(alloc: Global, source: &str) -> Result<String, RowFault> {
    Ok(all_shown(alloc, &descriptions_of(alloc, source, &[])?)?)
}

fn position_mark(alloc: Global, version: VersionPosition) -> Result<String, AllocError> {
    match version {
        VersionPosition::Digit(at) => format!(in alloc; "{at}"),
        VersionPosition::Unsaid => String::from_str(alloc, "unsaid"),
        VersionPosition::Call => String::from_str(alloc, "call"),
        VersionPosition::Elsewhere => String::from_str(alloc, "elsewhere"),
    }
}

/// Where the version of each description of a source is given, a byte index or a word, between
/// bars.
pub fn versions(alloc: Global, source: &str) -> Result<String, RowFault> {
    let mut shown = String::new(alloc);
    for description in &descriptions_of(alloc, source, &[])? {
        shown.push_str(&position_mark(alloc, description.version)?)?;
        shown.push_str("|")?;
    }
    Ok(shown)
}
