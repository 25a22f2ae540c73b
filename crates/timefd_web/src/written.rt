//! What a text writes of a moment.

ghost use Rattle.std.specs.Prelude.{List, IfOk};
ghost use Rattle.timefd_parse.specs.Tree.{Tree, trees};
ghost use Rattle.timefd_date_format.specs.Written.{written_all};
ghost use Rattle.timefd_parse.specs.Grammar.{nesting_limit};
ghost use Rattle.timefd_parse.specs.Language.{SpellsIn};
ghost use Rattle.timefd_web.specs.Reports.{IsTextOf, IsWritten};

use std::alloc::{AllocError, Global};
use timefd_date_moment::Moment;
use timefd_description::{FormatTextError, format_text};
use timefd_parse::Language;

/// What a text that a language accepts writes of the moment. `None` says that a component shows
/// nothing of it, or that the result isn't UTF-8.
#[tactic(auto, using(crate::proofs::WrittenLemmas::shown_text, crate::proofs::WrittenLemmas::shows_nothing, crate::proofs::WrittenLemmas::not_faulty))]
pub fn written_of(
    alloc: Global,
    language: Language,
    moment: Moment,
    text: &str,
) -> Result<Option<String>, AllocError>
    requires { (list : List Tree) × SpellsIn language nesting_limit text.now list }
    ensures { (list : List Tree) → SpellsIn language nesting_limit text.now list
        → IfOk result (IsWritten (written_all moment (trees list))) }
{
    match format_text(alloc, language, text, moment) {
        Ok(bytes) => text_of(alloc, &bytes),
        Err(FormatTextError::Unshown(_)) => Ok(None),
        Err(FormatTextError::Memory(error)) => Err(error),
        Err(FormatTextError::Fault(_)) => unreachable!(),
    }
}

// The bytes as text. `None` says that they aren't UTF-8.
fn text_of(alloc: Global, bytes: &[u8]) -> Result<Option<String>, AllocError>
    ensures { IfOk result (IsTextOf bytes.now) }
{
    match str::from_utf8(bytes) {
        Ok(text) => Ok(Some(String::from_str(alloc, text)?)),
        Err(_) => Ok(None),
    }
}
