//! The functions that the page calls for formats of other languages, and for texts whose description
//! is looked for.

ghost use Rattle.timefd_web.specs.OtherAnswers.{ConvertAnswers, FormatAnswers, GuessAnswers, IsConvertSaid, IsFormatSaid, IsGuessSaid};

use crate::answer::ReportAnswer;
use crate::converting::conversion_of;
use crate::exports::given;
use crate::formats::format_for;
use crate::guessing::guesses_of;
use crate::silence::Silence;
use std::alloc::Global;
use timefd_lang_dialect::Dialect;

/// Writes what a format of the dialect with this name is in version 3 to the front of the buffer if all
/// of it fits.
#[unsafe(no_mangle)]
pub extern "C" fn timefd_web_convert(
    alloc: Global,
    name: &[u8],
    format: &[u8],
    buffer: &mut [u8],
    answer: &mut ReportAnswer,
)
    ensures answers { ConvertAnswers name.now format.now buffer.old buffer.new answer.new }
{
    let said = convert_said(alloc, name, format);
    *answer = given(&said, buffer);
}

/// Writes what a description of version 3 is as a format of the dialect with this name to the front of
/// the buffer if all of it fits.
#[unsafe(no_mangle)]
pub extern "C" fn timefd_web_format_for(
    alloc: Global,
    name: &[u8],
    description: &[u8],
    buffer: &mut [u8],
    answer: &mut ReportAnswer,
)
    ensures answers { FormatAnswers name.now description.now buffer.old buffer.new answer.new }
{
    let said = format_said(alloc, name, description);
    *answer = given(&said, buffer);
}

/// Writes the descriptions that the lines of a text may be written by to the front of the buffer if all
/// of it fits.
#[unsafe(no_mangle)]
pub extern "C" fn timefd_web_guess(
    alloc: Global,
    texts: &[u8],
    buffer: &mut [u8],
    answer: &mut ReportAnswer,
)
    ensures answers { GuessAnswers texts.now buffer.old buffer.new answer.new }
{
    let said = guess_said(alloc, texts);
    *answer = given(&said, buffer);
}

#[tactic(auto, using(crate::proofs::OtherAnswerLemmas::converts, crate::proofs::OtherAnswerLemmas::unnamed))]
fn convert_said(alloc: Global, name: &[u8], format: &[u8]) -> Result<Vec<u8>, Silence>
    ensures { IsConvertSaid name.now format.now result }
{
    let Ok(name) = str::from_utf8(name) else {
        return Err(Silence::NotUtf8);
    };
    let Some(dialect) = Dialect::named(name) else {
        return Err(Silence::NoLanguage);
    };
    let Ok(format) = str::from_utf8(format) else {
        return Err(Silence::NotUtf8);
    };
    match conversion_of(alloc, dialect, format) {
        Ok(object) => Ok(object),
        Err(_) => Err(Silence::NoMemory),
    }
}

#[tactic(auto, using(crate::proofs::OtherAnswerLemmas::formats, crate::proofs::OtherAnswerLemmas::unnamed))]
fn format_said(alloc: Global, name: &[u8], description: &[u8]) -> Result<Vec<u8>, Silence>
    ensures { IsFormatSaid name.now description.now result }
{
    let Ok(name) = str::from_utf8(name) else {
        return Err(Silence::NotUtf8);
    };
    let Some(dialect) = Dialect::named(name) else {
        return Err(Silence::NoLanguage);
    };
    let Ok(description) = str::from_utf8(description) else {
        return Err(Silence::NotUtf8);
    };
    match format_for(alloc, dialect, description) {
        Ok(object) => Ok(object),
        Err(_) => Err(Silence::NoMemory),
    }
}

#[tactic(auto, using(crate::proofs::OtherAnswerLemmas::guesses))]
fn guess_said(alloc: Global, texts: &[u8]) -> Result<Vec<u8>, Silence>
    ensures { IsGuessSaid texts.now result }
{
    let Ok(text) = str::from_utf8(texts) else {
        return Err(Silence::NotUtf8);
    };
    match guesses_of(alloc, text) {
        Ok(object) => Ok(object),
        Err(_) => Err(Silence::NoMemory),
    }
}
