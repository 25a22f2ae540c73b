//! Texts of version 3. Long ones that nest descriptions are built first, and then written.

ghost use Rattle.std.specs.Prelude.{◌≡◌, ◌<◌, ◌≤◌, IfSome, length};
ghost use Rattle.timefd_lang_component.specs.Reserved.{reserve};
ghost use Rattle.timefd_items.specs.Description.{description_tree};
ghost use Rattle.timefd_language.specs.Grammar.{nesting_limit};
ghost use Rattle.timefd_language.specs.declared.description_version.DescriptionVersion.TheVariants.{Three};
ghost use Rattle.timefd_lang_node_list.specs.Views.{walked};
ghost use Rattle.timefd_c_nodes.specs.Reading.Reports.{IsRead, Reports};

use crate::reading::report::{ReadReport, has_room, report_of};
use crate::reading::version_three::read_in_turn;
use crate::{RawNode, START, write_view};
use std::alloc::{AllocError, Global};
use timefd_items::FormatDescriptionV3;
use timefd_parse::{
    BorrowedOutput, BorrowedParseError, DescriptionVersion, Language, parse_all_borrowed,
};

// A text with this many bytes may nest many descriptions. Its front shows whether it does.
const FRONT: usize = 256;

/// Reads a text of version 3. If a long text nests descriptions, all of it is built at once, which
/// takes a few blocks of memory instead of one for each description.
#[inline(always)]
pub fn read_version_three<'a>(
    alloc: Global,
    limit: u8,
    text: &'a str,
    nodes: &mut [RawNode],
    literals: &mut [u8],
) -> Result<ReadReport, BorrowedParseError<'a>>
    requires { limit ≤ nesting_limit }
    ensures { IsRead (Language.Version Three) limit text.now nodes.old nodes.new literals.old
        literals.new result }
{
    if !text.is_empty() && seems_nested(text) {
        return read_built(alloc, limit, text, nodes, literals);
    }
    read_in_turn(alloc, limit, text, nodes, literals)
}

// Whether a text is long, and a bracket opens inside another one, as a nested description's does. A
// wrong guess doesn't change what the reader returns.
fn seems_nested(text: &str) -> bool {
    let Some(front) = text.as_bytes().get(..FRONT) else {
        return false;
    };
    let mut is_open = false;
    let mut before = b' ';
    for byte in front {
        match *byte {
            b'[' if before == b'\\' => {}
            b'[' if is_open => return true,
            b'[' => is_open = true,
            b']' => is_open = false,
            _ => {}
        }
        before = *byte;
    }
    false
}

// Builds everything before writing it.
#[inline(never)]
fn read_built<'a>(
    alloc: Global,
    limit: u8,
    text: &'a str,
    nodes: &mut [RawNode],
    literals: &mut [u8],
) -> Result<ReadReport, BorrowedParseError<'a>>
    requires within { limit ≤ nesting_limit }
    requires some { 0 < length text.now }
    ensures { IsRead (Language.Version Three) limit text.now nodes.old nodes.new literals.old
        literals.new result }
{
    match parse_all_borrowed(alloc, DescriptionVersion::Three, limit, text) {
        Ok(BorrowedOutput::Description(description)) => {
            match report_description(&description, nodes, literals) {
                Some(report) => Ok(report),
                None => Err(BorrowedParseError::Memory(AllocError)),
            }
        }
        Ok(BorrowedOutput::Items(_)) => unreachable!(),
        Err(error) => Err(error),
    }
}

// Writes a description, as far as there is room. `None` says that a `usize` can't count what is
// written.
fn report_description(
    description: &FormatDescriptionV3<'_>,
    nodes: &mut [RawNode],
    literals: &mut [u8],
) -> Option<ReadReport>
    ensures { IfSome result (Reports (walked (description_tree description.now))
        (reserve (description_tree description.now)) (reserve (description_tree description.now))
        nodes.old nodes.new literals.old literals.new) }
{
    let bytes = description.max_bytes_needed();
    let end = write_view(description.view(), START, nodes, literals)?;
    Some(report_of(bytes, bytes, end, has_room(end, nodes, literals)))
}
