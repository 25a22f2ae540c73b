//! The text that a literal's body denotes.

ghost use Rattle.std.specs.Prelude.{◌≡◌, ◌≤◌, length, IfOk};
ghost use Rattle.timefd_lint_scan.specs.Escapes.{placed_any, unescaped};

use crate::escape::part_of;
use crate::part::push_part;
use crate::token::LiteralKind;
use std::alloc::{AllocError, Global};

/// The text that a literal denotes, and where it is in the source.
#[derive(Drop)]
pub struct Unescaped {
    /// The bytes of the text.
    pub text: Vec<u8>,
    /// For each byte its position in the source, as a byte index: its own, or the backslash of its escape.
    pub positions: Vec<usize>,
}

/// The text that the body of a literal denotes; `None` if an escape is invalid. The body ends at the byte
/// `end` of its source.
#[tactic(auto, using(crate::proofs::UnescapeLemmas::at_first))]
pub fn unescape(
    alloc: Global,
    kind: LiteralKind,
    body: &[u8],
    end: usize,
) -> Result<Option<Unescaped>, AllocError>
    requires { length body.now ≤ end }
    ensures { IfOk result (λ answer. placed_any answer ≡ unescaped (length body.now) kind end body.now) }
{
    let mut text = Vec::with_capacity(alloc, body.len())?;
    let mut positions = Vec::with_capacity(alloc, body.len())?;
    let mut rest = body;
    'parts: while let [byte, after @ ..] = rest {
        let Some(next) = part_of(kind, *byte, after) else {
            return Ok(None);
        };
        push_part(&mut text, &mut positions, next.stands, end - rest.len())?;
        rest = next.rest;
    }
    Ok(Some(Unescaped { text, positions }))
}
