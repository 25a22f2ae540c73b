//! Texts of versions 1 and 2, whose items are literals and components.

ghost use Rattle.std.specs.Prelude.{◌≡◌, ◌<◌, [], List, IsFalse, MatchResult, length};
ghost use Rattle.std.specs.Result.{IfErr};
ghost use Rattle.timefd_lang_fault.specs.BorrowedFaults.{IsRefusal};
ghost use Rattle.timefd_lang_component.specs.Tree.{Tree};
ghost use Rattle.timefd_language.specs.Bytes.{is_version_three};
ghost use Rattle.timefd_lang_fault.specs.ReadErrors.{MemoryOr, IsInvalid};
ghost use Rattle.timefd_parse.specs.Read.{IsFaultIn, PiecesToEnd};
ghost use Rattle.timefd_c_nodes.specs.Reading.Progress.{HasWritten};
ghost use Rattle.timefd_c_nodes.specs.Reading.Reports.{IsRead};

use crate::RawNode;
use crate::reading::leaf::write_leaf;
use crate::reading::progress::{NOTHING, ReadProgress, one_more};
use crate::reading::report::{ReadReport, has_room, report_of};
use std::alloc::Global;
use timefd_items::DescriptionBuilder;
use timefd_lang_fault::read_error::ReadError;
use timefd_parse::{BorrowedParseError, DescriptionVersion, Language, error_of, next_piece};

/// Reads a text of version 1 or 2, in which a nested description is a fault: another fault if more
/// than `limit` are around one another. It takes no memory.
#[inline(always)]
pub fn read_version<'a>(
    alloc: Global,
    version: DescriptionVersion,
    limit: u8,
    text: &'a str,
    nodes: &mut [RawNode],
    literals: &mut [u8],
) -> Result<ReadReport, BorrowedParseError<'a>>
    requires { IsFalse (is_version_three version) }
    ensures reads { IsRead (Language.Version version) limit text.now nodes.old nodes.new literals.old
        literals.new result }
    ensures memory { IfErr result IsRefusal }
{
    match write_pieces(alloc, version, limit, text, nodes, literals) {
        Ok(all) => Ok(report_of(
            all.count,
            all.bytes,
            all.end,
            has_room(all.end, nodes, literals),
        )),
        Err(error) => Err(error_of(alloc, version, limit, text, error)),
    }
}

/// Writes the pieces of a text, as far as there is room. The error is the fault of the text: a
/// `usize` always counts what is written.
fn write_pieces<'a>(
    alloc: Global,
    version: DescriptionVersion,
    limit: u8,
    text: &'a str,
    nodes: &mut [RawNode],
    literals: &mut [u8],
) -> Result<ReadProgress, ReadError<'a>>
    requires { IsFalse (is_version_three version) }
    ensures pieces { MatchResult result (λ p. (list : List Tree)
        × PiecesToEnd version limit 0 text.now list []
        × HasWritten list nodes.old nodes.new literals.old literals.new p)
        (MemoryOr (IsFaultIn version limit 0 text.now)) }
    ensures some { IfErr result (λ _. 0 < length text.now) }
    ensures counted { IfErr result IsInvalid }
{
    let mut builder = DescriptionBuilder::new(alloc);
    let mut progress = NOTHING;
    let mut rest = text;
    'pieces: loop {
        let Some((piece, after)) = next_piece::<false>(&mut builder, version, rest, limit, 0)?
        else {
            return Ok(progress);
        };
        let Some(written) = write_leaf(piece, progress.end, nodes, literals) else {
            return Err(ReadError::Memory);
        };
        progress = one_more(progress, written);
        rest = after;
    }
}
