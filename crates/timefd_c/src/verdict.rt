//! What bytes are in a language.

ghost use Rattle.std.specs.Prelude.{◌≡◌, ◌≢◌, [], List, Some, None, IsFalse, IsSome, IsUtf8};
ghost use Rattle.timefd_lang_component.specs.Tree.{Tree};
ghost use Rattle.timefd_parse.specs.Faults.{Fault};
ghost use Rattle.timefd_parse.specs.Language.{takes_memory};
ghost use Rattle.timefd_c.specs.Answers.{answer_of};
ghost use Rattle.timefd_c.specs.Languages.{SpellsIn, FaultIn, amount};
ghost use Rattle.timefd_c.specs.Verdicts.{Says, Accepts, Refuses, IsAccepted};

use crate::answer::{ACCEPTED, NO_MEMORY, NOT_UTF8, REFUSED, TextAnswer, UNKNOWN_KIND};
use std::alloc::Global;
use timefd_c_nodes::reading::text_of;
use timefd_parse::{
    BorrowedFault, BorrowedParseError, Language, NESTING_LIMIT, amount_all_borrowed,
};

/// What bytes are as a text of a language.
#[derive(Clone, Copy)]
pub enum TextVerdict<'a> {
    /// A description: how many items it has, or in version 3 how many bytes it reserves.
    Accepted(usize),
    /// Not a description, because of this fault.
    Refused(BorrowedFault<'a>),
    /// Not UTF-8.
    NotUtf8,
    /// Memory ran out. Then the bytes are a text without a fault.
    NoMemory,
    /// There is no such language.
    UnknownKind,
}

impl<'a> TextVerdict<'a> {
    /// The answer for this verdict, without a sentence.
    #[inline(always)]
    pub fn answer(&self) -> TextAnswer
        ensures { result ≡ answer_of self.now }
    {
        match self {
            TextVerdict::Accepted(amount) => TextAnswer::plain(ACCEPTED, *amount),
            TextVerdict::Refused(fault) => TextAnswer::plain(REFUSED, fault.start),
            TextVerdict::NotUtf8 => TextAnswer::plain(NOT_UTF8, 0),
            TextVerdict::NoMemory => TextAnswer::plain(NO_MEMORY, 0),
            TextVerdict::UnknownKind => TextAnswer::plain(UNKNOWN_KIND, 0),
        }
    }
}

/// What the bytes are in the language, if there is one.
#[inline(always)]
pub fn verdict_on(alloc: Global, language: Option<Language>, bytes: &[u8]) -> TextVerdict<'_>
    // What the verdict says is true.
    ensures says { Says language bytes.now result }

    // What is true is said: a description unless memory runs out, and a fault always.
    ensures spelled { (list : List Tree) → IsUtf8 bytes.now → SpellsIn language bytes.now list
        → Accepts (amount language list) result }
    ensures faulty { (f : Fault) → IsUtf8 bytes.now → FaultIn language bytes.now f
        → Refuses f result }
    ensures no_text { IsSome language → ¬ (IsUtf8 bytes.now) → result ≡ TextVerdict.NotUtf8 }
    ensures no_language { language ≡ None → result ≡ TextVerdict.UnknownKind }

    // The empty text takes no memory, and no text does in the languages without nesting.
    ensures empty { IsSome language → bytes.now ≡ [] → IsAccepted result }
    ensures memory { (l : Language) → language ≡ Some l → IsFalse (takes_memory l)
        → result ≢ TextVerdict.NoMemory }
{
    let Some(language) = language else {
        return TextVerdict::UnknownKind;
    };
    let Ok(text) = text_of(bytes) else {
        return TextVerdict::NotUtf8;
    };
    text_verdict(alloc, language, text)
}

// What the text is in the language.
#[inline(always)]
fn text_verdict(alloc: Global, language: Language, text: &str) -> TextVerdict<'_>
    ensures says { Says (Some language) text.now result }
    ensures spelled { (list : List Tree) → SpellsIn (Some language) text.now list
        → Accepts (amount (Some language) list) result }
    ensures faulty { (f : Fault) → FaultIn (Some language) text.now f → Refuses f result }
    ensures empty { text.now ≡ [] → IsAccepted result }
    ensures memory { IsFalse (takes_memory language) → result ≢ TextVerdict.NoMemory }
{
    match amount_all_borrowed(alloc, language, NESTING_LIMIT, text) {
        Ok(amount) => TextVerdict::Accepted(amount),
        Err(BorrowedParseError::Invalid(fault)) => TextVerdict::Refused(fault),
        Err(BorrowedParseError::Memory(_)) => TextVerdict::NoMemory,
    }
}
