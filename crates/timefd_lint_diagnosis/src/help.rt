//! What to write instead of what is at fault.

ghost use Rattle.std.specs.Prelude.{◌≡◌, IfOk, MatchOption, option_map};
ghost use Rattle.timefd_language.specs.Bytes.{is_version_three};
ghost use Rattle.timefd_lang_fault.specs.BorrowedFaults.{to_borrowed_fault};
ghost use Rattle.timefd_language.specs.Spans.{IsSpanned};
ghost use Rattle.timefd_lint_diagnosis.specs.Helps.{IsHelpFor, IsWordsHelp, nearest_in};

use crate::cure::{advice, strftime_advice};
use crate::nearest::nearest;
use crate::words::words_at;
use std::alloc::{AllocError, Global};
use timefd_lang_fault::{Code, Slot};
use timefd_parse::{BorrowedFault, DescriptionVersion, Language, Rule};

/// What helps against a fault.
#[derive(Clone, Copy)]
pub enum Help {
    /// Words that are allowed there.
    Words {
        /// What the word at fault should have been.
        slot: Slot,
        /// All that are allowed.
        allowed: &'static [&'static str],
        /// The nearest of them, if one is near.
        nearest: Option<&'static str>,
    },
    /// This key has to go, or the other one that refuses it.
    LeaveOut(&'static str),
    /// What to do, in words.
    Advice(&'static str),
}

impl Help {
    /// The nearest of the words that are allowed, if one is near.
    pub fn nearest(self) -> Option<&'static str>
        ensures { option_map (λ w. w.now) result ≡ nearest_in self }
    {
        match self {
            Help::Words { nearest, .. } => nearest,
            Help::LeaveOut(_) | Help::Advice(_) => None,
        }
    }
}

/// What helps against a fault of a text. An `Err` says that memory ran out.
pub fn help_against(
    alloc: Global,
    language: Language,
    text: &str,
    fault: BorrowedFault<'_>,
) -> Result<Help, AllocError>
    requires { IsSpanned language text.now fault }
    ensures help { IfOk result (IsHelpFor language text.now (to_borrowed_fault fault.entry)) }
{
    match language {
        Language::Version(version) => version_help(alloc, version, text, fault),
        Language::Strftime => Ok(Help::Advice(strftime_advice(Code::of(fault.rule)))),
    }
}

fn version_help(
    alloc: Global,
    version: DescriptionVersion,
    text: &str,
    fault: BorrowedFault<'_>,
) -> Result<Help, AllocError>
    requires { IsSpanned (Language.Version version) text.now fault }
    ensures { IfOk result (IsHelpFor (Language.Version version) text.now (to_borrowed_fault fault.entry)) }
{
    match fault.rule {
        Rule::UnknownName(name) => words_help(alloc, version, Slot::Name, name),
        Rule::UnknownLetter(letter) => words_help(alloc, version, Slot::Name, letter),
        Rule::UnknownKey(word, name) => words_help(alloc, version, Slot::Key(name), word),
        Rule::UnknownValue(word, key) => words_help(alloc, version, Slot::Value(key), word),
        Rule::InvalidModifier(_) => Ok(Help::Advice(advice(version, Code::InvalidModifier))),
        Rule::RefusedModifier(key, _) => Ok(Help::LeaveOut(key)),
        Rule::UnclosedBracket
        | Rule::MissingName
        | Rule::MissingModifier(_)
        | Rule::InvalidEscape
        | Rule::UnescapedBracket
        | Rule::MissingSpace
        | Rule::MissingDescription
        | Rule::MissingAlternative
        | Rule::NestedTooDeep
        | Rule::SeveralDescriptions
        | Rule::OptionalItem
        | Rule::FirstItem
        | Rule::UnsupportedFlag
        | Rule::UnsupportedLetter
        | Rule::NestedInComponent
        | Rule::DuplicateModifier(_) => Ok(Help::Advice(advice(version, Code::of(fault.rule)))),
    }
}

fn words_help(
    alloc: Global,
    version: DescriptionVersion,
    slot: Slot,
    word: &str,
) -> Result<Help, AllocError>
    ensures { IfOk result (IsWordsHelp (is_version_three version) slot word.now) }
{
    let lowered = word.to_ascii_lowercase(alloc)?;
    let allowed = words_at(slot, version);
    Ok(Help::Words {
        slot,
        allowed,
        nearest: nearest(alloc, allowed, &lowered)?,
    })
}
