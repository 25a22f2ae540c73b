//! Texts of version 3 whose pieces are written as they are read.

ghost use Rattle.std.specs.Prelude.{◌≡◌, ◌+◌, ◌<◌, ◌≤◌, ◌^◌, [], List, IfSome, MatchResult, None, length, true};
ghost use Rattle.std.specs.Result.{IfErr};
ghost use Rattle.timefd_lang_component.specs.Reserved.{reserve, reserve_all};
ghost use Rattle.timefd_lang_component.specs.Tree.{Text, Tree, pack, trees};
ghost use Rattle.timefd_items.specs.Builder.{built};
ghost use Rattle.timefd_lang_fault.specs.ReadErrors.{MemoryOr};
ghost use Rattle.timefd_language.specs.declared.description_version.DescriptionVersion.TheVariants.{Three};
ghost use Rattle.timefd_lang_node_list.specs.Views.{walked};
ghost use Rattle.timefd_c_nodes.specs.declared.node.RawNode as spec_node;
ghost use Rattle.timefd_c_nodes.specs.declared.position.TheConstants as positions;
ghost use Rattle.timefd_c_nodes.specs.Writing.{IsWritten};
ghost use Rattle.timefd_parse.specs.Pieces.{IsPiece};
ghost use Rattle.timefd_parse.specs.Read.{IsFaultIn, PiecesToEnd};
ghost use Rattle.timefd_c_nodes.specs.Reading.Progress.{HasWritten};
ghost use Rattle.timefd_c_nodes.specs.Reading.Reports.{IsRead};

use crate::reading::leaf::write_leaf;
use crate::reading::progress::{NOTHING, ReadProgress, one_more};
use crate::reading::report::{ReadReport, has_room, report_of};
use crate::{RawNode, START, WritePosition, Written, put, write_view};
use std::alloc::{AllocError, Global};
use std::mem;
use timefd_items::DescriptionBuilder;
use timefd_lang_fault::read_error::ReadError;
use timefd_parse::{BorrowedParseError, DescriptionVersion, Language, Piece, error_of, next_piece};

/// Reads a text of version 3, and writes each piece as it is read. A piece with nested descriptions
/// is built first.
#[inline(always)]
pub fn read_in_turn<'a>(
    alloc: Global,
    limit: u8,
    text: &'a str,
    nodes: &mut [RawNode],
    literals: &mut [u8],
) -> Result<ReadReport, BorrowedParseError<'a>>
    ensures { IsRead (Language.Version Three) limit text.now nodes.old nodes.new literals.old
        literals.new result }
{
    match write_pieces(alloc, limit, text, nodes, literals) {
        Ok(all) => match write_whole(all, nodes) {
            Some(whole) => Ok(report_of(
                whole.bytes,
                whole.bytes,
                whole.end,
                has_room(whole.end, nodes, literals),
            )),
            None => Err(BorrowedParseError::Memory(AllocError)),
        },
        Err(error) => {
            let version = DescriptionVersion::Three;
            Err(error_of(alloc, version, limit, text, error))
        }
    }
}

/// Writes the node of all pieces after them, as far as there is room, unless there is just one
/// piece. `None` says that a `usize` can't count the nodes.
#[inline(always)]
fn write_whole(all: ReadProgress, nodes: &mut [RawNode]) -> Option<Written>
    ensures some { (list : List Tree) (before : List spec_node.RawNode) (text after : Text)
        → HasWritten list before nodes.old text after all
        → IfSome result (IsWritten (walked (pack list)) (reserve (pack list)) positions.START before nodes.new
        text after) }
    ensures none { result ≡ None → 2 ^ 64 ≤ all.end.nodes + 1 }
{
    if all.count == 1 {
        return Some(Written {
            end: all.end,
            bytes: all.bytes,
        });
    }
    let node = RawNode::compound(START.nodes, all.count, all.bytes);
    put(node, all.bytes, all.end, nodes)
}

/// Writes the pieces of a text, as far as there is room. The error is the fault of the text, or
/// `Memory` if memory runs out or a `usize` can't count what is written.
fn write_pieces<'a>(
    alloc: Global,
    limit: u8,
    text: &'a str,
    nodes: &mut [RawNode],
    literals: &mut [u8],
) -> Result<ReadProgress, ReadError<'a>>
    ensures pieces { MatchResult result (λ p. (list : List Tree)
        × PiecesToEnd Three limit 0 text.now list []
        × HasWritten list nodes.old nodes.new literals.old literals.new p)
        (MemoryOr (IsFaultIn Three limit 0 text.now)) }
    ensures some { IfErr result (λ _. 0 < length text.now) }
{
    let version = DescriptionVersion::Three;
    let mut builder = DescriptionBuilder::new(alloc);
    let mut progress = NOTHING;
    let mut rest = text;
    'pieces: loop {
        let Some((piece, after)) = next_piece::<true>(&mut builder, version, rest, limit, 0)? else {
            return Ok(progress);
        };
        let Some(written) = write_piece(alloc, &mut builder, piece, progress.end, nodes, literals)
        else {
            return Err(ReadError::Memory);
        };
        progress = one_more(progress, written);
        rest = after;
    }
}

/// Writes a piece at a position, as far as there is room. `None` says that memory ran out, or that
/// a `usize` can't count what is written.
#[inline(always)]
fn write_piece<'a>(
    alloc: Global,
    builder: &mut DescriptionBuilder<'a>,
    piece: Piece<'a>,
    at: WritePosition,
    nodes: &mut [RawNode],
    literals: &mut [u8],
) -> Option<Written>
    requires { reserve_all (trees (built builder.old)) < 2 ^ 64 }
    ensures some { (tree : Tree) → IsPiece true true [] (built builder.old) piece.entry tree
        → IfSome result (IsWritten (walked tree) (reserve tree) at nodes.old nodes.new literals.old
        literals.new) }
    ensures none_left { (tree : Tree) → IsPiece true true [] (built builder.old) piece.entry tree
        → built builder.new ≡ [] }
{
    if let Piece::Compound = piece {
        return write_built(alloc, builder, at, nodes, literals);
    }
    write_leaf(piece, at, nodes, literals)
}

/// Writes what was built at a position, as far as there is room, and leaves nothing built.
#[inline(never)]
fn write_built<'a>(
    alloc: Global,
    builder: &mut DescriptionBuilder<'a>,
    at: WritePosition,
    nodes: &mut [RawNode],
    literals: &mut [u8],
) -> Option<Written>
    requires { reserve_all (trees (built builder.old)) < 2 ^ 64 }
    ensures some { IfSome result (IsWritten (walked (pack (built builder.old)))
        (reserve (pack (built builder.old))) at nodes.old nodes.new literals.old literals.new) }
    ensures none_left { built builder.new ≡ [] }
{
    let all = mem::replace(builder, DescriptionBuilder::new(alloc));
    let description = all.finish().ok()?;
    let bytes = description.max_bytes_needed();
    let end = write_view(description.view(), at, nodes, literals)?;
    Some(Written { end, bytes })
}
