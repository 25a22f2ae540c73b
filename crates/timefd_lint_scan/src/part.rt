//! Parts of a string: what they denote.

ghost use Rattle.std.specs.Prelude.{◌≡◌, ◌≤◌, ◌++◌, length, MatchOption, OnOk, ⊤};
ghost use Rattle.timefd_lint_scan.specs.Escapes as spec;
ghost use Rattle.timefd_lint_scan.specs.Escapes.{all_at, parted_any, stands_for};

use crate::number::scalar_value;
use std::alloc::AllocError;

/// What a part of a string denotes.
#[derive(Clone, Copy)]
pub enum Stands {
    /// Nothing: for example, a line end after a backslash.
    Nothing,
    Byte(u8),
    Char(char),
}

/// What a part of a string denotes, and what follows it.
#[derive(Clone, Copy)]
pub struct StringPart<'a> {
    pub stands: Stands,
    pub rest: &'a [u8],
}

/// A character, and what follows its escape.
pub fn char_part(rest: &[u8], c: Option<char>) -> Option<StringPart<'_>>
    ensures part { parted_any result ≡ spec.char_part rest.now c }
    ensures within { MatchOption result ⊤ (λ part. length part.rest.now ≤ length rest.now) }
{
    match c {
        Some(c) => Some(StringPart {
            stands: Stands::Char(c),
            rest,
        }),
        None => None,
    }
}

/// The character with this number, and what follows its escape.
pub fn character(rest: &[u8], value: Option<u32>) -> Option<StringPart<'_>>
    ensures part { parted_any result ≡ spec.character rest.now value }
    ensures within { MatchOption result ⊤ (λ part. length part.rest.now ≤ length rest.now) }
{
    match value {
        Some(value) => char_part(rest, scalar_value(value)),
        None => None,
    }
}

// Adds bytes that all have the same position.
fn push_bytes(
    text: &mut Vec<u8>,
    positions: &mut Vec<usize>,
    bytes: &[u8],
    position: usize,
) -> Result<(), AllocError>
    ensures text { OnOk result (text.new.items ≡ text.old.items ++ bytes.now) }
    ensures positions { OnOk result (positions.new.items ≡ positions.old.items ++ all_at position bytes.now) }
{
    for byte in bytes {
        text.push(*byte)?;
        positions.push(position)?;
    }
    Ok(())
}

/// Adds what a part denotes, at the position of the part. An `Err` says that memory ran out.
pub fn push_part(
    text: &mut Vec<u8>,
    positions: &mut Vec<usize>,
    stands: Stands,
    position: usize,
) -> Result<(), AllocError>
    ensures text { OnOk result (text.new.items ≡ text.old.items ++ stands_for stands) }
    ensures positions { OnOk result (positions.new.items ≡ positions.old.items ++ all_at position (stands_for stands)) }
{
    match stands {
        Stands::Nothing => Ok(()),
        Stands::Byte(byte) => push_bytes(text, positions, &[byte], position),
        Stands::Char(c) => push_bytes(
            text,
            positions,
            c.encode_utf8(&mut [0; 4]).as_bytes(),
            position,
        ),
    }
}
