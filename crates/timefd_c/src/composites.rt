//! The function that C calls to read a text of strftime with one node for each composite letter.

ghost use Rattle.timefd_c.specs.Composites.{ReadsComposites};

use crate::answer::{ACCEPTED, NOT_UTF8, REFUSED, ReadAnswer};
use timefd_c_nodes::RawNode;
use timefd_c_nodes::reading::{read_composites, text_of};
use timefd_parse::BorrowedParseError;

/// Says what `timefd_judge` says of a text of strftime, and writes the nodes and the bytes of the
/// literals as `timefd_read` does, except that a composite letter is one node. This node says where
/// the letter's list is among the nodes that `timefd_read` writes for `COMPOSITES` of
/// `timefd_c_read`. It takes no memory.
#[unsafe(no_mangle)]
pub extern "C" fn timefd_read_composites(
    text: &[u8],
    nodes: &mut [RawNode],
    literals: &mut [u8],
) -> ReadAnswer
    ensures reads { ReadsComposites text.now nodes.old nodes.new literals.old literals.new result }
{
    let Ok(text) = text_of(text) else {
        return ReadAnswer::plain(NOT_UTF8, 0);
    };
    match read_composites(text, nodes, literals) {
        Ok(report) => ReadAnswer {
            status: ACCEPTED,
            value: report.value,
            nodes: report.nodes,
            literals: report.literals,
            written: report.written,
            bytes: report.bytes,
        },
        Err(BorrowedParseError::Invalid(fault)) => ReadAnswer::plain(REFUSED, fault.start),
        Err(BorrowedParseError::Memory(_)) => unreachable!(),
    }
}
