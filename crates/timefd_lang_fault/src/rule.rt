//! The rules that a text can break, what should have been there instead, and what is reported for each.

ghost use Rattle.std.specs.Prelude.{◌≡◌};
ghost use Rattle.timefd_lang_fault.specs.RuleKinds.{kind_of, rule_kind};
ghost use Rattle.timefd_lang_fault.specs.Slots.{wanted_by};

use crate::key::Key;
use crate::name::Name;
use crate::refuser::Refuser;

/// The rule that a text breaks, with the word or the key that its sentence quotes.
#[derive(Clone, Copy)]
pub enum Rule<'a> {
    /// A bracket has to be closed.
    UnclosedBracket,
    /// A bracket begins with the name of a component. This is the word that is there instead.
    UnknownName(&'a str),
    /// A letter of strftime is one of its table. This is what is there instead.
    UnknownLetter(&'a str),
    /// A modifier is a key, a colon and a value. This is what isn't, where the name of the bracket or
    /// the key isn't known.
    InvalidModifier(&'a str),
    /// A key is one of those that its component takes. This is the word that is there instead, and the
    /// name of the bracket.
    UnknownKey(&'a str, Name),
    /// A value is one of those of its key. This is the word that is there instead, and the key.
    UnknownValue(&'a str, Key),
    /// A bracket has a name.
    MissingName,
    /// A component has each modifier that it needs. This is the key of the missing one.
    MissingModifier(&'static str),
    /// A backslash, or the percent sign of strftime, is followed by something that it takes.
    InvalidEscape,
    /// In version 3 a `]` that closes nothing has a backslash before it.
    UnescapedBracket,
    /// White space precedes a nested description.
    MissingSpace,
    /// `optional` has a nested description.
    MissingDescription,
    /// `first` has at least one nested description.
    MissingAlternative,
    /// Descriptions are nested no deeper than the limit.
    NestedTooDeep,
    /// `optional` has no more than one nested description.
    SeveralDescriptions,
    /// `optional` is used only in version 3.
    OptionalItem,
    /// `first` is used only in version 3.
    FirstItem,
    /// A flag of strftime is one that is read.
    UnsupportedFlag,
    /// A letter of strftime is one that is read.
    UnsupportedLetter,
    /// No other component than `optional` and `first` has a nested description.
    NestedInComponent,
    /// In version 3 a key is given only once. This one is given twice.
    DuplicateModifier(&'static str),
    /// A key isn't used with a value that refuses it: the key, and with what it is used.
    RefusedModifier(&'static str, Refuser),
}

/// What a word at fault should have been.
#[derive(Clone, Copy)]
pub enum Slot {
    /// The name of a bracket.
    Name,
    /// A key of the bracket with this name.
    Key(Name),
    /// What this key is set to.
    Value(Key),
}

impl<'a> Rule<'a> {
    /// The variant of `InvalidFormatDescription` that reports the rule, with its words.
    pub fn kind(self) -> FaultKind<'a>
        ensures { kind_of result ≡ rule_kind self.entry }
    {
        match self {
            Rule::UnclosedBracket => FaultKind::UnclosedBracket,
            Rule::UnknownName(name) => FaultKind::InvalidName(name),
            Rule::UnknownLetter(letter) => FaultKind::InvalidName(letter),
            Rule::InvalidModifier(word) => FaultKind::InvalidModifier(word),
            Rule::UnknownKey(word, _) => FaultKind::InvalidModifier(word),
            Rule::UnknownValue(word, _) => FaultKind::InvalidModifier(word),
            Rule::MissingName => FaultKind::MissingName,
            Rule::MissingModifier(key) => FaultKind::MissingModifier(key),
            Rule::InvalidEscape => FaultKind::Expected("valid escape sequence"),
            Rule::UnescapedBracket => FaultKind::Expected("right bracket to be escaped"),
            Rule::MissingSpace => {
                FaultKind::Expected("whitespace before nested format description")
            }
            Rule::MissingDescription => FaultKind::Expected("nested format description"),
            Rule::MissingAlternative => {
                FaultKind::Expected("at least one nested format description")
            }
            Rule::NestedTooDeep => FaultKind::NotSupported("highly-nested format description", ""),
            Rule::SeveralDescriptions => FaultKind::NotSupported(
                "more than one nested format description",
                "`optional` components",
            ),
            Rule::OptionalItem => {
                FaultKind::NotSupported("optional item", "runtime-parsed format descriptions")
            }
            Rule::FirstItem => {
                FaultKind::NotSupported("'first' item", "runtime-parsed format descriptions")
            }
            Rule::UnsupportedFlag => FaultKind::NotSupported("modifier", ""),
            Rule::UnsupportedLetter => FaultKind::NotSupported("component", ""),
            Rule::NestedInComponent => {
                FaultKind::NotSupported("nested format descriptions", "on this component")
            }
            Rule::DuplicateModifier(key) => FaultKind::DuplicateModifier(key),
            Rule::RefusedModifier(key, refuser) => {
                FaultKind::InvalidCombination(key, refuser.context())
            }
        }
    }

    /// What should have been there, if that is known: a name, a key or a value.
    pub fn wanted(self) -> Option<Slot>
        ensures { result ≡ wanted_by self.entry }
    {
        match self {
            Rule::UnknownName(_) => Some(Slot::Name),
            Rule::UnknownKey(_, name) => Some(Slot::Key(name)),
            Rule::UnknownValue(_, key) => Some(Slot::Value(key)),
            Rule::UnknownLetter(_)
            | Rule::InvalidModifier(_)
            | Rule::UnclosedBracket
            | Rule::MissingName
            | Rule::MissingModifier(_)
            | Rule::InvalidEscape
            | Rule::UnescapedBracket
            | Rule::MissingSpace
            | Rule::MissingDescription
            | Rule::MissingAlternative
            | Rule::NestedTooDeep
            | Rule::SeveralDescriptions
            | Rule::OptionalItem
            | Rule::FirstItem
            | Rule::UnsupportedFlag
            | Rule::UnsupportedLetter
            | Rule::NestedInComponent
            | Rule::DuplicateModifier(_)
            | Rule::RefusedModifier(_, _) => None,
        }
    }
}

/// What is reported for a broken rule: `InvalidFormatDescription` without the index. Each variant
/// holds the fields of its counterpart in their order.
#[derive(Clone, Copy)]
pub enum FaultKind<'a> {
    /// `UnclosedOpeningBracket`.
    UnclosedBracket,
    /// `InvalidComponentName`, with the name as it is written.
    InvalidName(&'a str),
    /// `InvalidModifier`, with the text at fault as it is written.
    InvalidModifier(&'a str),
    /// `MissingComponentName`.
    MissingName,
    /// `MissingRequiredModifier`, with the modifier's key.
    MissingModifier(&'static str),
    /// `Expected`, with what was expected.
    Expected(&'static str),
    /// `NotSupported`, with what isn't supported, and in what, or an empty text.
    NotSupported(&'static str, &'static str),
    /// `DuplicateModifier`, with the modifier's key.
    DuplicateModifier(&'static str),
    /// `InvalidModifierCombination`, with the modifier's key, and with what it isn't valid.
    InvalidCombination(&'static str, &'static str),
}
