//! The stable names of faults.

ghost use Rattle.std.specs.Prelude.{◌≡◌};
ghost use Rattle.timefd_lang_fault.specs.RuleKinds.{rule_kind};
ghost use Rattle.timefd_lang_fault.specs.Codes as spec;

use crate::rule::Rule;

/// What a fault is, whatever word of the text it is about.
#[derive(Clone, Copy)]
pub enum Code {
    /// A bracket has no end.
    UnclosedBracket,
    /// A bracket has an unknown name, or a directive of strftime an unknown letter.
    UnknownName,
    /// A word isn't a modifier of its component, or isn't a key and a value.
    InvalidModifier,
    /// A bracket has no name.
    MissingName,
    /// A component lacks a modifier that it has to have.
    MissingModifier,
    /// A backslash, or a percent sign of strftime, isn't followed by anything that it takes.
    InvalidEscape,
    /// A `]` closes nothing, and version 3 needs a backslash before it.
    UnescapedBracket,
    /// A nested description touches the word before it.
    MissingSpace,
    /// `optional` has no nested description.
    MissingDescription,
    /// `first` has no nested description.
    MissingAlternative,
    /// Descriptions are nested too deep.
    NestedTooDeep,
    /// `optional` has more than one nested description.
    SeveralDescriptions,
    /// `optional` is used in a version without it.
    OptionalItem,
    /// `first` is used in a version without it.
    FirstItem,
    /// A flag of strftime that is not read.
    UnsupportedFlag,
    /// A letter of strftime that is not read.
    UnsupportedLetter,
    /// A component has a nested description, and takes none.
    NestedInComponent,
    /// A bracket has a key twice, but version 3 takes it once.
    DuplicateModifier,
    /// A key is used with a value of another key that refuses it.
    RefusedModifier,
}

impl Code {
    /// The code of a rule that is broken.
    pub fn of(rule: Rule<'_>) -> Code
        ensures { result ≡ spec.code_of (rule_kind rule.entry) }
    {
        match rule {
            Rule::UnclosedBracket => Code::UnclosedBracket,
            Rule::UnknownName(_) | Rule::UnknownLetter(_) => Code::UnknownName,
            Rule::InvalidModifier(_) | Rule::UnknownKey(_, _) | Rule::UnknownValue(_, _) => {
                Code::InvalidModifier
            }
            Rule::MissingName => Code::MissingName,
            Rule::MissingModifier(_) => Code::MissingModifier,
            Rule::InvalidEscape => Code::InvalidEscape,
            Rule::UnescapedBracket => Code::UnescapedBracket,
            Rule::MissingSpace => Code::MissingSpace,
            Rule::MissingDescription => Code::MissingDescription,
            Rule::MissingAlternative => Code::MissingAlternative,
            Rule::NestedTooDeep => Code::NestedTooDeep,
            Rule::SeveralDescriptions => Code::SeveralDescriptions,
            Rule::OptionalItem => Code::OptionalItem,
            Rule::FirstItem => Code::FirstItem,
            Rule::UnsupportedFlag => Code::UnsupportedFlag,
            Rule::UnsupportedLetter => Code::UnsupportedLetter,
            Rule::NestedInComponent => Code::NestedInComponent,
            Rule::DuplicateModifier(_) => Code::DuplicateModifier,
            Rule::RefusedModifier(_, _) => Code::RefusedModifier,
        }
    }

    /// All codes, in the order of the enum.
    pub fn all() -> &'static [Code]
        ensures { result.now ≡ spec.all }
    {
        &[
            Code::UnclosedBracket,
            Code::UnknownName,
            Code::InvalidModifier,
            Code::MissingName,
            Code::MissingModifier,
            Code::InvalidEscape,
            Code::UnescapedBracket,
            Code::MissingSpace,
            Code::MissingDescription,
            Code::MissingAlternative,
            Code::NestedTooDeep,
            Code::SeveralDescriptions,
            Code::OptionalItem,
            Code::FirstItem,
            Code::UnsupportedFlag,
            Code::UnsupportedLetter,
            Code::NestedInComponent,
            Code::DuplicateModifier,
            Code::RefusedModifier,
        ]
    }

    /// The name of the code, which stays the same whatever the fault's sentence says.
    pub fn name(self) -> &'static str
        ensures { result.now ≡ spec.name_of self }
    {
        match self {
            Code::UnclosedBracket => "unclosed-bracket",
            Code::UnknownName => "unknown-name",
            Code::InvalidModifier => "invalid-modifier",
            Code::MissingName => "missing-name",
            Code::MissingModifier => "missing-modifier",
            Code::InvalidEscape => "invalid-escape",
            Code::UnescapedBracket => "unescaped-bracket",
            Code::MissingSpace => "missing-space",
            Code::MissingDescription => "missing-description",
            Code::MissingAlternative => "missing-alternative",
            Code::NestedTooDeep => "nested-too-deep",
            Code::SeveralDescriptions => "several-descriptions",
            Code::OptionalItem => "optional-item",
            Code::FirstItem => "first-item",
            Code::UnsupportedFlag => "unsupported-flag",
            Code::UnsupportedLetter => "unsupported-letter",
            Code::NestedInComponent => "nested-in-component",
            Code::DuplicateModifier => "duplicate-modifier",
            Code::RefusedModifier => "refused-modifier",
        }
    }
}

/// No two codes have the same name.
pub fn names_differ()
    ensures { spec.NamesDiffer }
{}

/// Each code is one of those that `all` returns.
#[tactic(auto, using(crate::proofs::CodeLemmas::all_are_there))]
pub fn all_are_there()
    ensures { spec.AllAreThere }
{}
