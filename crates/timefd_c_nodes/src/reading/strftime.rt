//! Texts of strftime.

ghost use Rattle.std.specs.Prelude.{◌≡◌, ◌<◌, List, None, IfSome, MatchResult, length};
ghost use Rattle.std.specs.Result.{IfErr};
ghost use Rattle.timefd_lang_fault.specs.BorrowedFaults.{IsRefusal};
ghost use Rattle.timefd_lang_component.specs.Reserved.{reserve};
ghost use Rattle.timefd_lang_component.specs.Tree.{Tree, compound, trees};
ghost use Rattle.timefd_lang_fault.specs.ReadErrors.{MemoryOr, IsInvalid};
ghost use Rattle.timefd_language.specs.Strftime.{SpellsStrftime};
ghost use Rattle.timefd_lang_node_list.specs.Views.{walked};
ghost use Rattle.timefd_c_nodes.specs.Writing.{IsPast, IsWritten};
ghost use Rattle.timefd_language.specs.Directives.LetterMeaning.{composite_list};
ghost use Rattle.timefd_language.specs.Directives.StrftimeReading.{IsStrftimeFaultIn};
ghost use Rattle.timefd_c_nodes.specs.Reading.Pieces.{IsStrftimeReport, PieceIsPast, PieceIsWritten, PiecesAreWritten};
ghost use Rattle.timefd_c_nodes.specs.Reading.Reports.{IsCounted, IsReadAs};

use crate::reading::composite::put_composite;
use crate::reading::leaf::write_component;
use crate::reading::progress::{NOTHING, ReadProgress, one_more};
use crate::reading::report::{ReadReport, has_room, report_of};
use crate::{RawNode, WritePosition, Written, put_literal, write_compound};
use timefd_lang_fault::read_error::ReadError;
use timefd_language::strftime::{
    Composite, StrftimePiece, StrftimeTables, next_strftime_piece, strftime_error,
};
use timefd_parse::{BorrowedParseError, Language};

/// Reads a text of strftime, with one node for a composite letter, or with its members and a node
/// after them. It takes no memory.
pub fn read_strftime<'a, const AS_ONE: bool>(
    text: &'a str,
    nodes: &mut [RawNode],
    literals: &mut [u8],
) -> Result<ReadReport, BorrowedParseError<'a>>
    ensures reads { IsReadAs Language.Strftime 0 text.now (IsStrftimeReport AS_ONE nodes.old nodes.new
        literals.old literals.new) result }

    ensures counted { IsCounted AS_ONE (length text.now) → IfErr result IsRefusal }
{
    match write_pieces::<AS_ONE>(text, nodes, literals) {
        Ok(all) => Ok(report_of(
            all.count,
            all.bytes,
            all.end,
            has_room(all.end, nodes, literals),
        )),
        Err(error) => Err(strftime_error(error, text)),
    }
}

/// Writes the pieces of a text, as far as there is room. The error is the fault of the text, or
/// `Memory` if a `usize` can't count what is written. With one node for a composite letter it
/// always can.
#[inline(always)]
fn write_pieces<'a, const AS_ONE: bool>(
    text: &'a str,
    nodes: &mut [RawNode],
    literals: &mut [u8],
) -> Result<ReadProgress, ReadError<'a>>
    ensures pieces { MatchResult result (λ p. (list : List Tree) × SpellsStrftime text.now list
        × PiecesAreWritten AS_ONE list nodes.old nodes.new literals.old literals.new p)
        (MemoryOr (IsStrftimeFaultIn text.now)) }
    ensures some { IfErr result (λ _. 0 < length text.now) }
    ensures counted { IsCounted AS_ONE (length text.now) → IfErr result IsInvalid }
{
    let mut progress = NOTHING;
    let mut rest = text;
    'pieces: loop {
        let Some((piece, after)) = next_strftime_piece(rest)? else {
            return Ok(progress);
        };
        let Some(written) = write_piece::<AS_ONE>(piece, progress.end, nodes, literals) else {
            return Err(ReadError::Memory);
        };
        progress = one_more(progress, written);
        rest = after;
    }
}

/// Writes a piece at a position, as far as there is room. `None` says that a `usize` can't count
/// what is written.
#[inline(always)]
fn write_piece<const AS_ONE: bool>(
    piece: StrftimePiece<'_>,
    at: WritePosition,
    nodes: &mut [RawNode],
    literals: &mut [u8],
) -> Option<Written>
    ensures some { IfSome result (PieceIsWritten AS_ONE piece.entry at nodes.old nodes.new literals.old
        literals.new) }
    ensures none { result ≡ None → PieceIsPast AS_ONE piece.entry at }
{
    match piece {
        StrftimePiece::Literal(text) => put_literal(text.as_bytes(), at, nodes, literals),
        StrftimePiece::Component(component) => write_component(component, at, nodes),
        StrftimePiece::Composite(composite) if AS_ONE => put_composite(composite, at, nodes),
        StrftimePiece::Composite(composite) => write_composite(composite, at, nodes, literals),
    }
}

/// Writes the list of a composite letter as one item.
#[inline(never)]
fn write_composite(
    composite: Composite,
    at: WritePosition,
    nodes: &mut [RawNode],
    literals: &mut [u8],
) -> Option<Written>
    ensures some { IfSome result (IsWritten (walked (compound (trees (composite_list composite)))) (reserve
        (compound (trees (composite_list composite)))) at nodes.old nodes.new literals.old literals.new) }
    ensures none { result ≡ None → IsPast (walked (compound (trees (composite_list composite)))) at }
{
    let tables = StrftimeTables::new();
    write_compound(tables.list(composite), at, nodes, literals)
}
