//! The functions that C calls for nodes, and for the number of this version.

ghost use Rattle.std.specs.Prelude.{◌≡◌, ◌≤◌, min};
ghost use Rattle.timefd_language.specs.Grammar.{nesting_limit};
ghost use Rattle.timefd_c.specs.Languages.{language_of};
ghost use Rattle.timefd_c.specs.Reading.{Reads};

use crate::answer::{ACCEPTED, NO_MEMORY, NOT_UTF8, REFUSED, ReadAnswer, UNKNOWN_KIND};
use crate::numbers::{from_number, limit_from};
use std::alloc::Global;
use timefd_c_nodes::RawNode;
use timefd_c_nodes::reading::{read_within, text_of};
use timefd_parse::{BorrowedParseError, NESTING_LIMIT};

/// The number of this version, 0.2.0: a million for each major one, a thousand for each minor one.
pub const VERSION: u32 = 2_000;

/// The number of this version. A program can compare it with the number in its header.
#[unsafe(no_mangle)]
pub extern "C" fn timefd_version() -> u32
    ensures { result ≡ VERSION }
{
    VERSION
}

/// Says what `timefd_judge` says, and writes the nodes of a description and the bytes of its
/// literals to the fronts of the buffers, as far as they fit. If either buffer is too short, or the
/// text is refused, both may hold parts of them.
#[unsafe(no_mangle)]
pub extern "C" fn timefd_read(
    alloc: Global,
    kind: u32,
    text: &[u8],
    nodes: &mut [RawNode],
    literals: &mut [u8],
) -> ReadAnswer
    ensures reads { Reads (language_of kind) nesting_limit text.now nodes.old nodes.new literals.old
        literals.new result }
{
    read_bytes(alloc, kind, text, nodes, literals, NESTING_LIMIT)
}

/// Does what `timefd_read` does, with at most `limit` nested descriptions around one another: a
/// text that nests deeper is refused. A limit above `NESTING_LIMIT` counts as `NESTING_LIMIT`.
#[unsafe(no_mangle)]
pub extern "C" fn timefd_read_within(
    alloc: Global,
    kind: u32,
    limit: u32,
    text: &[u8],
    nodes: &mut [RawNode],
    literals: &mut [u8],
) -> ReadAnswer
    ensures reads { Reads (language_of kind) (min limit nesting_limit) text.now nodes.old nodes.new
        literals.old literals.new result }
{
    read_bytes(alloc, kind, text, nodes, literals, limit_from(limit))
}

/// Says what the bytes are in the language with this number, with at most `limit` nested
/// descriptions around one another, and writes the nodes and literals.
// Both calls share this function, so that the readers have one caller and are inlined there.
#[inline(never)]
fn read_bytes(
    alloc: Global,
    kind: u32,
    text: &[u8],
    nodes: &mut [RawNode],
    literals: &mut [u8],
    limit: u8,
) -> ReadAnswer
    requires { limit ≤ nesting_limit }
    ensures { Reads (language_of kind) limit text.now nodes.old nodes.new literals.old literals.new
        result }
{
    let Some(language) = from_number(kind) else {
        return ReadAnswer::plain(UNKNOWN_KIND, 0);
    };
    let Ok(text) = text_of(text) else {
        return ReadAnswer::plain(NOT_UTF8, 0);
    };
    match read_within(alloc, language, limit, text, nodes, literals) {
        Ok(report) => ReadAnswer {
            status: ACCEPTED,
            value: report.value,
            nodes: report.nodes,
            literals: report.literals,
            written: report.written,
            bytes: report.bytes,
        },
        Err(BorrowedParseError::Invalid(fault)) => ReadAnswer::plain(REFUSED, fault.start),
        Err(BorrowedParseError::Memory(_)) => ReadAnswer::plain(NO_MEMORY, 0),
    }
}
