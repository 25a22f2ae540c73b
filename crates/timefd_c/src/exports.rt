//! The functions that C calls.

ghost use Rattle.std.specs.Prelude.{◌≡◌, ◌≢◌, ◌<◌, ◌≤◌, ◌++◌, ℕ, length, take, drop};
ghost use Rattle.std.specs.Str.{IsCharBoundary};
ghost use Rattle.timefd_c.specs.Answers.{Judges, IfRefused};
ghost use Rattle.timefd_c.specs.Languages.{language_of};
ghost use Rattle.timefd_c.specs.Conversions.{Converts, ConvertsBetween, Modernizes};

use crate::answer::{ACCEPTED, NOT_UTF8, REFUSED, TextAnswer};
use crate::conversion::convert_between;
use crate::numbers::from_number;
use crate::verdict::{TextVerdict, verdict_on};
use crate::whole::write_whole;
use std::alloc::Global;
use timefd_c_nodes::reading::text_of;
use timefd_lift::{v1_to_v2_borrowed, v2_to_v3};

/// Says what the bytes are as a text of the language with this number: 1, 2 and 3 are the versions
/// of the format descriptions, and 4 is strftime.
#[unsafe(no_mangle)]
pub extern "C" fn timefd_judge(alloc: Global, kind: u32, text: &[u8]) -> TextAnswer
    ensures judges { Judges (language_of kind) text.now result }
    ensures no_sentence { (result.sentence_len ≡ 0) × (result.written ≡ 0) }
{
    verdict_on(alloc, from_number(kind), text).answer()
}

/// Says what `timefd_judge` says, and writes the sentence of the fault to the front of the buffer:
/// as many of its characters as fit.
#[unsafe(no_mangle)]
pub extern "C" fn timefd_check(
    alloc: Global,
    kind: u32,
    text: &[u8],
    sentence: &mut [u8],
) -> TextAnswer
    ensures judges { Judges (language_of kind) text.now result }

    // The length of the sentence, as much of it as fits, and then what the buffer held before.
    ensures full_len { IfRefused (language_of kind) text.now result (λ full.
        result.sentence_len ≡ length full) }
    ensures front { IfRefused (language_of kind) text.now result (λ full.
        sentence.new ≡ take result.written full ++ drop result.written sentence.old) }

    // The written part fits, ends between two characters, and no longer one does.
    ensures room { result.written ≤ length sentence.old }
    ensures whole { IfRefused (language_of kind) text.now result (λ full.
        IsCharBoundary full result.written) }
    ensures most { IfRefused (language_of kind) text.now result (λ full. (i : ℕ) →
        result.written < i → i ≤ length sentence.old → ¬ (IsCharBoundary full i)) }

    // If nothing is refused, nothing is written.
    ensures kept { result.status ≢ REFUSED → sentence.new ≡ sentence.old }
    ensures no_sentence { result.status ≢ REFUSED
        → (result.sentence_len ≡ 0) × (result.written ≡ 0) }
{
    let verdict = verdict_on(alloc, from_number(kind), text);
    let TextVerdict::Refused(fault) = verdict else {
        return verdict.answer();
    };
    let excerpt = fault.write_sentence(sentence);
    TextAnswer {
        status: REFUSED,
        value: fault.start,
        sentence_len: excerpt.len,
        written: excerpt.written,
    }
}

/// Converts a text of version 1 to a text of version 2 with the same items, and writes that to the
/// front of the buffer if all of it fits. The value is its length in bytes.
#[unsafe(no_mangle)]
pub extern "C" fn timefd_v1_to_v2(alloc: Global, text: &[u8], buffer: &mut [u8]) -> TextAnswer
    ensures converts { Converts text.now buffer.old buffer.new result }
{
    let Ok(text) = text_of(text) else {
        return TextAnswer::plain(NOT_UTF8, 0);
    };
    match v1_to_v2_borrowed(alloc, text) {
        Ok(converted) => TextAnswer {
            status: ACCEPTED,
            value: converted.len(),
            sentence_len: 0,
            written: write_whole(&converted, buffer),
        },
        Err(error) => TextAnswer::of_error(error),
    }
}

/// Converts a text of version 2 to a text of version 3 with the same items, and writes that to the
/// front of the buffer if all of it fits. The value is its length in bytes.
#[unsafe(no_mangle)]
pub extern "C" fn timefd_v2_to_v3(alloc: Global, text: &[u8], buffer: &mut [u8]) -> TextAnswer
    ensures converts { Modernizes text.now buffer.old buffer.new result }
{
    let Ok(text) = text_of(text) else {
        return TextAnswer::plain(NOT_UTF8, 0);
    };
    match v2_to_v3(alloc, text) {
        Ok(modern) => TextAnswer {
            status: ACCEPTED,
            value: modern.len(),
            sentence_len: 0,
            written: write_whole(&modern, buffer),
        },
        Err(error) => TextAnswer::of_error(error),
    }
}

/// Converts a text of the language with one number to the language with another, and writes the
/// result to the front of the buffer if all of it fits. The value is its length in bytes.
#[unsafe(no_mangle)]
pub extern "C" fn timefd_convert(
    alloc: Global,
    from: u32,
    to: u32,
    text: &[u8],
    buffer: &mut [u8],
) -> TextAnswer
    ensures converts { ConvertsBetween (language_of from) (language_of to) text.now buffer.old
        buffer.new result }
{
    convert_between(alloc, from_number(from), from_number(to), text, buffer)
}
