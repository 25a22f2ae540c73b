//! The function that C calls to convert a format of another language.

ghost use Rattle.timefd_c.specs.FormatConversions.{ConvertsBytes, ConvertsFormat, Gives, dialect_of};

use crate::answer::{NO_MEMORY, NOT_UTF8, UNKNOWN_KIND};
use crate::convert_answer::ConvertAnswer;
use crate::numbers::dialect_from;
use crate::whole::write_whole;
use std::alloc::Global;
use timefd_c_nodes::reading::text_of;
use timefd_lang_dialect::{Converted, Dialect, DialectError, to_version_three};

/// Converts a format of the dialect with this number to a text of version 3 that writes the same,
/// and writes that text to the front of the buffer if all of it fits.
#[unsafe(no_mangle)]
pub extern "C" fn timefd_convert_format(
    alloc: Global,
    dialect: u32,
    format: &[u8],
    buffer: &mut [u8],
) -> ConvertAnswer
    ensures converts { ConvertsFormat (dialect_of dialect) format.now buffer.old buffer.new result }
{
    match dialect_from(dialect) {
        Some(dialect) => convert_bytes(alloc, dialect, format, buffer),
        None => ConvertAnswer::silent(UNKNOWN_KIND, 0),
    }
}

fn convert_bytes(alloc: Global, dialect: Dialect, format: &[u8], buffer: &mut [u8]) -> ConvertAnswer
    ensures converts { ConvertsBytes dialect format.now buffer.old buffer.new result }
{
    let Ok(format) = text_of(format) else {
        return ConvertAnswer::silent(NOT_UTF8, 0);
    };
    let found = to_version_three(alloc, dialect, format);
    answer_found(&found, buffer)
}

/// The answer for the result of a conversion. The text is written if there is one.
fn answer_found(found: &Result<Converted, DialectError>, buffer: &mut [u8]) -> ConvertAnswer
    ensures gives { Gives found.now buffer.old buffer.new result }
{
    match found {
        Ok(converted) => {
            let written = write_whole(&converted.text, buffer);
            ConvertAnswer::converted(converted, written)
        }
        Err(DialectError::Refused(refusal)) => ConvertAnswer::refused(*refusal),
        Err(DialectError::Memory(_)) => ConvertAnswer::silent(NO_MEMORY, 0),
    }
}
