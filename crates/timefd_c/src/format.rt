//! The functions that C calls to write a moment by a text.

ghost use Rattle.std.specs.Prelude.{◌≡◌, ◌≤◌, min};
ghost use Rattle.timefd_language.specs.Grammar.{nesting_limit};
ghost use Rattle.timefd_c.specs.Formats.{Formats, FormatsBy};
ghost use Rattle.timefd_c.specs.Languages.{language_of};

use crate::answer::{ACCEPTED, NO_MEMORY, NOT_UTF8, REFUSED, UNKNOWN_KIND};
use crate::format_answer::FormatAnswer;
use crate::moment::MomentFields;
use crate::numbers::{from_number, limit_from};
use crate::whole::write_bytes;
use std::alloc::Global;
use timefd_c_nodes::reading::text_of;
use timefd_date_moment::Moment;
use timefd_description::{FormatTextError, format_text_within};
use timefd_parse::{Language, NESTING_LIMIT};

/// Writes the moment by a text of the language with this number, to the front of the buffer if all
/// that the text writes fits. The value is the length of that in bytes.
#[unsafe(no_mangle)]
pub extern "C" fn timefd_format(
    alloc: Global,
    kind: u32,
    text: &[u8],
    moment: &MomentFields,
    buffer: &mut [u8],
) -> FormatAnswer
    ensures formats { Formats (language_of kind) nesting_limit text.now moment.now buffer.old buffer.new result }
{
    format_bytes(alloc, kind, NESTING_LIMIT, text, moment, buffer)
}

/// Does what `timefd_format` does, with at most `limit` nested descriptions around one another: a text that nests
/// deeper is refused. A limit above `NESTING_LIMIT` counts as `NESTING_LIMIT`.
#[unsafe(no_mangle)]
pub extern "C" fn timefd_format_within(
    alloc: Global,
    kind: u32,
    limit: u32,
    text: &[u8],
    moment: &MomentFields,
    buffer: &mut [u8],
) -> FormatAnswer
    ensures formats { Formats (language_of kind) (min limit nesting_limit) text.now moment.now buffer.old
        buffer.new result }
{
    format_bytes(alloc, kind, limit_from(limit), text, moment, buffer)
}

// Both calls share this function, so that there is one caller of the formatter.
#[inline(never)]
fn format_bytes(
    alloc: Global,
    kind: u32,
    limit: u8,
    text: &[u8],
    moment: &MomentFields,
    buffer: &mut [u8],
) -> FormatAnswer
    requires { limit ≤ nesting_limit }
    ensures formats { Formats (language_of kind) limit text.now moment.now buffer.old buffer.new result }
{
    match moment.moment() {
        Ok(moment) => format_by(alloc, from_number(kind), limit, text, moment, buffer),
        Err(range) => FormatAnswer::out_of_range(range),
    }
}

fn format_by(
    alloc: Global,
    language: Option<Language>,
    limit: u8,
    bytes: &[u8],
    moment: Moment,
    buffer: &mut [u8],
) -> FormatAnswer
    requires { limit ≤ nesting_limit }
    ensures formats { FormatsBy language limit bytes.now moment buffer.old buffer.new result }
{
    let Some(language) = language else {
        return FormatAnswer::silent(UNKNOWN_KIND, 0);
    };
    let Ok(text) = text_of(bytes) else {
        return FormatAnswer::silent(NOT_UTF8, 0);
    };
    match format_text_within(alloc, language, limit, text, moment) {
        Ok(shown) => FormatAnswer {
            written: write_bytes(&shown, buffer),
            ..FormatAnswer::silent(ACCEPTED, shown.len())
        },
        Err(FormatTextError::Fault(fault)) => FormatAnswer::silent(REFUSED, fault.start),
        Err(FormatTextError::Unshown(unshown)) => FormatAnswer::unshown(unshown),
        Err(FormatTextError::Memory(_)) => FormatAnswer::silent(NO_MEMORY, 0),
    }
}
