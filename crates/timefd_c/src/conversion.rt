//! Conversions between languages, for C.

ghost use Rattle.std.specs.Prelude.{◌≡◌};
ghost use Rattle.timefd_c.specs.Conversions.{ConvertsBetween, ConvertsTo};

use crate::answer::{ACCEPTED, NO_CONVERSION, NOT_UTF8, TextAnswer, UNKNOWN_KIND};
use crate::whole::write_whole;
use std::alloc::Global;
use timefd_c_nodes::reading::text_of;
use timefd_lang_convert::{Conversion, conversion_between, convert_by};
use timefd_parse::Language;

/// Converts a text of one language to another, if both exist and there is a conversion, and writes
/// the result to the front of the buffer if all of it fits.
pub fn convert_between(
    alloc: Global,
    from: Option<Language>,
    to: Option<Language>,
    text: &[u8],
    buffer: &mut [u8],
) -> TextAnswer
    ensures converts { ConvertsBetween from to text.now buffer.old buffer.new result }
{
    let Some(from) = from else {
        return TextAnswer::plain(UNKNOWN_KIND, 0);
    };
    let Some(to) = to else {
        return TextAnswer::plain(UNKNOWN_KIND, 0);
    };
    match conversion_between(from, to) {
        Some(conversion) => convert_bytes(alloc, conversion, text, buffer),
        None => TextAnswer::plain(NO_CONVERSION, 0),
    }
}

/// Converts a text by this conversion, and writes the result to the front of the buffer if all of
/// it fits.
fn convert_bytes(
    alloc: Global,
    conversion: Conversion,
    text: &[u8],
    buffer: &mut [u8],
) -> TextAnswer
    ensures converts { ConvertsTo conversion text.now buffer.old buffer.new result }
{
    let Ok(text) = text_of(text) else {
        return TextAnswer::plain(NOT_UTF8, 0);
    };
    match convert_by(alloc, conversion, text) {
        Ok(converted) => TextAnswer {
            status: ACCEPTED,
            value: converted.len(),
            sentence_len: 0,
            written: write_whole(&converted, buffer),
        },
        Err(error) => TextAnswer::of_error(error),
    }
}
