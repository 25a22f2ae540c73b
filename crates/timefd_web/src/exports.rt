//! The functions that the page calls.

ghost use Rattle.std.specs.Prelude.{◌≡◌, ◌⊎◌, ◌<◌, ◌≤◌, ◌++◌, drop, length};
ghost use Rattle.timefd_web.specs.Answers.{Answers, IsAnswer, IsReadSaid, IsSaid, ReadAnswers, language_of};

use crate::answer::{REPORTED, ReportAnswer};
use crate::fields::MomentParts;
use crate::reading::reading_of;
use crate::report::report_of;
use crate::silence::Silence;
use std::alloc::Global;
use timefd_parse::{DescriptionVersion, Language};

/// Writes a report on the bytes, as a text of the language with this number, and on what they write
/// of the moment, to the front of the buffer if all of it fits. The numbers 1, 2 and 3 are the
/// versions of the format descriptions, and 4 is strftime.
#[unsafe(no_mangle)]
pub extern "C" fn timefd_web_report(
    alloc: Global,
    number: u32,
    text: &[u8],
    fields: &MomentParts,
    buffer: &mut [u8],
    answer: &mut ReportAnswer,
)
    ensures answers { Answers number text.now fields.now buffer.old buffer.new answer.new }
{
    let said = said(alloc, number, text, fields);
    *answer = given(&said, buffer);
}

/// Writes what a text shows by a description of the language with this number to the front of the
/// buffer if all of it fits.
#[unsafe(no_mangle)]
pub extern "C" fn timefd_web_read(
    alloc: Global,
    number: u32,
    description: &[u8],
    text: &[u8],
    buffer: &mut [u8],
    answer: &mut ReportAnswer,
)
    ensures answers { ReadAnswers number description.now text.now buffer.old buffer.new answer.new }
{
    let said = read_said(alloc, number, description, text);
    *answer = given(&said, buffer);
}

/// Writes the object to the buffer and returns its length, or the reason why there is none.
pub fn given(said: &Result<Vec<u8>, Silence>, buffer: &mut [u8]) -> ReportAnswer
    ensures { IsAnswer said.now buffer.old buffer.new result }
{
    match said {
        Ok(object) => {
            write_bytes(object, buffer);
            ReportAnswer {
                status: REPORTED,
                len: object.len(),
            }
        }
        Err(silence) => ReportAnswer {
            status: silence.status(),
            len: 0,
        },
    }
}

#[tactic(auto, using(crate::proofs::AnswerLemmas::reported))]
fn said(alloc: Global, number: u32, bytes: &[u8], fields: &MomentParts) -> Result<Vec<u8>, Silence>
    ensures { IsSaid number bytes.now fields.now result }
{
    let Some(language) = from_number(number) else {
        return Err(Silence::NoLanguage);
    };
    let Ok(text) = str::from_utf8(bytes) else {
        return Err(Silence::NotUtf8);
    };
    let Ok(moment) = fields.moment() else {
        return Err(Silence::OutOfRange);
    };
    match report_of(alloc, language, moment, text) {
        Ok(object) => Ok(object),
        Err(_) => Err(Silence::NoMemory),
    }
}

#[tactic(auto, using(crate::proofs::AnswerLemmas::read))]
fn read_said(
    alloc: Global,
    number: u32,
    description: &[u8],
    text: &[u8],
) -> Result<Vec<u8>, Silence>
    ensures { IsReadSaid number description.now text.now result }
{
    let Some(language) = from_number(number) else {
        return Err(Silence::NoLanguage);
    };
    let Ok(description) = str::from_utf8(description) else {
        return Err(Silence::NotUtf8);
    };
    let Ok(text) = str::from_utf8(text) else {
        return Err(Silence::NotUtf8);
    };
    match reading_of(alloc, language, description, text) {
        Ok(object) => Ok(object),
        Err(_) => Err(Silence::NoMemory),
    }
}

fn from_number(number: u32) -> Option<Language>
    ensures { result ≡ language_of number }
{
    match number {
        1 => Some(Language::Version(DescriptionVersion::One)),
        2 => Some(Language::Version(DescriptionVersion::Two)),
        3 => Some(Language::Version(DescriptionVersion::Three)),
        4 => Some(Language::Strftime),
        _ => None,
    }
}

// Writes the bytes to the front of the buffer if all of them fit.
fn write_bytes(bytes: &[u8], buffer: &mut [u8])
    ensures whole { length bytes.now ≤ length buffer.old
        → buffer.new ≡ bytes.now ++ drop (length bytes.now) buffer.old }
    ensures too_short { length buffer.old < length bytes.now → buffer.new ≡ buffer.old }
{
    if bytes.len() <= buffer.len() {
        buffer[..bytes.len()].copy_from_slice(bytes);
    }
}
