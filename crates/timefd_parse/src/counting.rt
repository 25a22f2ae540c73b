//! How much a text of a version holds. Its pieces are counted, and a tree is built only where one
//! is needed.

ghost use Rattle.std.specs.Prelude.{ℕ, ◌≡◌, ◌≤◌, ◌<◌, [], List, length, IsFalse, MatchResult};
ghost use Rattle.std.specs.Result.{IfErr};
ghost use Rattle.timefd_lang_component.specs.Tree.{Tree};
ghost use Rattle.timefd_lang_fault.specs.BorrowedFaults.{IsBorrowed, IsBorrowedOf, IsMemory};
ghost use Rattle.timefd_lang_fault.specs.Faults.{Fault};
ghost use Rattle.timefd_items.specs.Builder.{built};
ghost use Rattle.timefd_language.specs.Broken.{FaultOf};
ghost use Rattle.timefd_language.specs.Bytes.{is_version_three};
ghost use Rattle.timefd_lang_fault.specs.ReadErrors.{MemoryOr};
ghost use Rattle.timefd_language.specs.Grammar.{Spells};
ghost use Rattle.timefd_lang_fault.specs.ReadErrors.{IsInvalid};
ghost use Rattle.timefd_language.specs.declared.description_version.DescriptionVersion.TheVariants.{Three};
ghost use Rattle.timefd_language.specs.declared.description_version.Language as spec_language;
ghost use Rattle.timefd_language.specs.Spans.{HasSpan, SpansVersion};
ghost use Rattle.timefd_parse.specs.Language.{IsAmount};
ghost use Rattle.timefd_parse.specs.Pieces as spec;
ghost use Rattle.timefd_parse.specs.Read.{AreCounted, IsFaultIn, PiecesToEnd};

use crate::piece::Piece;
use crate::read::next_piece;
use std::alloc::{AllocError, Global};
use timefd_items::DescriptionBuilder;
use timefd_lang_fault::borrowed_parse_error::{BorrowedParseError, borrowed};
use timefd_lang_fault::read_error::ReadError;
use timefd_language::description_version::DescriptionVersion;

/// How many items a text of version 1 or 2 has. It takes no memory.
#[inline(always)]
pub fn count_items<'a>(
    alloc: Global,
    version: DescriptionVersion,
    limit: u8,
    text: &'a str,
) -> Result<usize, BorrowedParseError<'a>>
    requires { IsFalse (is_version_three version) }
    ensures { IsAmount (spec_language.Language.Version version) limit text.now result }
{
    let mut builder = DescriptionBuilder::new(alloc);
    match count_pieces(&mut builder, version, text, limit) {
        Ok(count) => Ok(count),
        Err(error) => Err(borrowed(error, text.len())),
    }
}

/// How many bytes a text of version 3 reserves. Only the pieces with nested descriptions are built.
pub fn count_bytes<'a>(
    alloc: Global,
    limit: u8,
    text: &'a str,
) -> Result<usize, BorrowedParseError<'a>>
    ensures { IsAmount (spec_language.Language.Version Three) limit text.now result }
{
    let mut builder = DescriptionBuilder::new(alloc);
    match bytes_beside(&mut builder, text, limit) {
        Ok(bytes) => {
            // Most texts have nothing nested.
            if builder.len() == 0 {
                return Ok(bytes);
            }
            match builder.finish() {
                Ok(nested) => Ok(bytes + nested.max_bytes_needed()),
                Err(error) => Err(BorrowedParseError::Memory(error)),
            }
        }
        Err(error) => Err(error_of(alloc, DescriptionVersion::Three, limit, text, error)),
    }
}

/// The error of a text that couldn't be read. A fault of the text is found even if memory ran out,
/// since that takes none.
pub fn error_of<'a>(
    alloc: Global,
    version: DescriptionVersion,
    limit: u8,
    text: &'a str,
    error: ReadError<'a>,
) -> BorrowedParseError<'a>
    requires { MemoryOr (IsFaultIn version limit 0 text.now) error }
    ensures fault { IsBorrowedOf (FaultOf version limit text.now) result }
    ensures spelled { (list : List Tree) → Spells version limit 0 text.now list → IsMemory result }
    ensures refused { (f : Fault) → FaultOf version limit text.now f → IsBorrowed f result }
    ensures span { MemoryOr (SpansVersion (is_version_three version) text.now) error.entry
        → HasSpan (spec_language.Language.Version version) text.now result }
{
    match error {
        ReadError::Memory => checked_again(alloc, version, limit, text),
        error => borrowed(error, text.len()),
    }
}

/// The error of a text when there is no memory for its trees. The text is read again without them.
#[inline(never)]
fn checked_again<'a>(
    alloc: Global,
    version: DescriptionVersion,
    limit: u8,
    text: &'a str,
) -> BorrowedParseError<'a>
    ensures fault { IsBorrowedOf (FaultOf version limit text.now) result }
    ensures spelled { (list : List Tree) → Spells version limit 0 text.now list → IsMemory result }
    ensures refused { (f : Fault) → FaultOf version limit text.now f → IsBorrowed f result }
    ensures span { HasSpan (spec_language.Language.Version version) text.now result }
{
    let mut builder = DescriptionBuilder::new(alloc);
    match count_pieces(&mut builder, version, text, limit) {
        Ok(_) => BorrowedParseError::Memory(AllocError),
        Err(error) => borrowed(error, text.len()),
    }
}

/// How many pieces a text of a version has. They are checked but not built, and take no memory.
#[inline(always)]
fn count_pieces<'a>(
    builder: &mut DescriptionBuilder<'a>,
    version: DescriptionVersion,
    text: &'a str,
    limit: u8,
) -> Result<usize, ReadError<'a>>
    ensures count { MatchResult result (λ n. (list : List Tree)
        × PiecesToEnd version limit 0 text.now list [] × (n ≡ length list))
        (MemoryOr (IsFaultIn version limit 0 text.now)) }
    ensures invalid { IfErr result IsInvalid }
    ensures span { IfErr result (MemoryOr (SpansVersion (is_version_three version) text.now)) }
    ensures some { IfErr result (λ _. 0 < length text.now) }
{
    let mut count = 0;
    let mut rest = text;
    'pieces: loop {
        let Some((_, after)) = next_piece::<false>(builder, version, rest, limit, 0)? else {
            return Ok(count);
        };
        count += 1;
        rest = after;
    }
}

/// How many bytes the pieces of a text of version 3 reserve, apart from those that are built.
#[inline(always)]
fn bytes_beside<'a>(
    builder: &mut DescriptionBuilder<'a>,
    text: &'a str,
    limit: u8,
) -> Result<usize, ReadError<'a>>
    requires { built builder.old ≡ [] }
    ensures bytes { MatchResult result (AreCounted limit text.now (built builder.new))
        (MemoryOr (IsFaultIn Three limit 0 text.now)) }
    ensures span { IfErr result (MemoryOr (SpansVersion (is_version_three Three) text.now)) }
    ensures some { IfErr result (λ _. 0 < length text.now) }
{
    let mut bytes = 0;
    let mut rest = text;
    'pieces: loop {
        let Some((piece, after)) = next_piece::<true>(
            builder,
            DescriptionVersion::Three,
            rest,
            limit,
            0,
        )?
        else {
            return Ok(bytes);
        };
        bytes += own_bytes(piece);
        rest = after;
    }
}

/// How many bytes a piece reserves, if it isn't built.
#[inline(always)]
fn own_bytes(piece: Piece) -> usize
    ensures { result ≡ spec.own_bytes piece.entry }
{
    match piece {
        Piece::Literal(text) => text.len(),
        Piece::Component(_, bytes) => bytes,
        Piece::Compound => 0,
    }
}
