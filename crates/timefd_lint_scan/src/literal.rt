//! The text of a literal in a source.

ghost use Rattle.std.specs.Prelude.{◌≡◌, ◌≤◌, ◌<◌, ◌+◌, length, IfOk, MatchOption, ⊤};
ghost use Rattle.timefd_lint_scan.specs.Bytes.{seen};
ghost use Rattle.timefd_lint_scan.specs.Escapes.{placed_any};
ghost use Rattle.timefd_lint_scan.specs.Literals as spec;

use crate::class::{ByteSet, after_run};
use crate::piece::PlacedToken;
use crate::token::LiteralKind;
use crate::unescape::{Unescaped, unescape};
use std::alloc::{AllocError, Global};

fn hash_count(kind: LiteralKind) -> usize
    ensures { result ≡ spec.hash_count kind }
{
    match kind {
        LiteralKind::Escaped(_) => 0,
        LiteralKind::Raw(_, hash_count) => hash_count,
    }
}

/// What is between the quotes of a literal.
fn body(kind: LiteralKind, literal: &[u8]) -> Option<&[u8]>
    ensures body { seen result ≡ spec.body kind literal.now }
    ensures within { MatchOption result ⊤ (λ body. length body.now + (spec.hash_count kind + 1) < length literal.now) }
{
    let [_, inner @ ..] = after_run(ByteSet::Unquoted, literal) else {
        return None;
    };
    let hash_count = hash_count(kind);
    if hash_count < inner.len() {
        Some(inner.split_at(inner.len() - hash_count - 1).0)
    } else {
        None
    }
}

/// The position of a literal's closing quote, as a byte index.
pub fn body_end(piece: PlacedToken, kind: LiteralKind) -> usize
    ensures { result ≡ spec.body_end piece kind }
{
    piece.end.saturating_sub(hash_count(kind)).saturating_sub(1)
}

/// The bytes of a token.
pub fn cut(source: &[u8], piece: PlacedToken) -> Option<&[u8]>
    ensures cut { seen result ≡ spec.cut source.now piece }
    ensures bounds { MatchOption result ⊤ (λ text. piece.end ≤ length source.now) }
    ensures within { MatchOption result ⊤ (λ text. length text.now + piece.start ≡ piece.end) }
{
    if piece.start <= piece.end && piece.end <= source.len() {
        Some(&source[piece.start..piece.end])
    } else {
        None
    }
}

/// What is between the quotes of the literal that is this token of the source. `None` if the token
/// isn't a literal of this kind.
#[tactic(auto, using(crate::proofs::InsideLemmas::inside_stands))]
pub fn inside(source: &str, piece: PlacedToken, kind: LiteralKind) -> Option<&[u8]>
    ensures inside { seen result ≡ spec.inside source.now piece kind }
    ensures within { MatchOption result ⊤ (λ inside. piece.start + length inside.now < spec.body_end piece kind) }
    ensures position { MatchOption result ⊤ (λ inside. spec.EndsAt source.now (spec.body_end piece kind) inside.now) }
{
    match cut(source.as_bytes(), piece) {
        Some(literal) => body(kind, literal),
        None => None,
    }
}

/// The text of the literal that is this token of the source. `None` if an escape is invalid, or if
/// the token isn't a literal of this kind. An `Err` says that memory ran out.
pub fn literal_text(
    alloc: Global,
    source: &str,
    piece: PlacedToken,
    kind: LiteralKind,
) -> Result<Option<Unescaped>, AllocError>
    ensures { IfOk result (λ answer. placed_any answer ≡ spec.literal_text source.now piece kind) }
{
    let Some(literal) = cut(source.as_bytes(), piece) else {
        return Ok(None);
    };
    let Some(body) = body(kind, literal) else {
        return Ok(None);
    };
    unescape(alloc, kind, body, piece.end - hash_count(kind) - 1)
}
