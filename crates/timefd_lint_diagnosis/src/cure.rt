//! What to do against a fault, in words.

ghost use Rattle.std.specs.Prelude.{◌≡◌};
ghost use Rattle.timefd_lint_diagnosis.specs.Advice as spec;

use timefd_lang_fault::Code;
use timefd_parse::DescriptionVersion;

/// What helps against a fault of a version.
pub fn advice(version: DescriptionVersion, code: Code) -> &'static str
    ensures { result.now ≡ spec.advice version code }
{
    match code {
        Code::UnclosedBracket => unclosed(version),
        Code::UnknownName => "write another word",
        Code::InvalidModifier => "a modifier is a key, a colon and a value, with no white space",
        Code::MissingName => nameless(version),
        Code::MissingModifier =>
            "say how many bytes are ignored, from 1 to 65535, as in `[ignore count:2]`",
        Code::InvalidEscape =>
            "a backslash goes before `[`, `]` or another backslash only: write two for a literal one",
        Code::UnescapedBracket => "write `\\]` for a literal bracket",
        Code::MissingSpace => "put a space before this bracket",
        Code::MissingDescription =>
            "put what is optional into brackets, as in `[optional [:[second]]]`",
        Code::MissingAlternative =>
            "put each alternative into brackets, as in `[first [[day]] [[ordinal]]]`",
        Code::NestedTooDeep => "descriptions nest at most 127 deep",
        Code::SeveralDescriptions => "put all that is optional into one description",
        Code::OptionalItem =>
            "`parse` and `parse_borrowed` take optional items only in version 3; `format_description!` and `parse_owned` always do",
        Code::FirstItem =>
            "`parse` and `parse_borrowed` take alternatives only in version 3; `format_description!` and `parse_owned` always do",
        Code::UnsupportedFlag => "only `optional` and `first` take nested descriptions",
        Code::UnsupportedLetter => "only `optional` and `first` take nested descriptions",
        Code::NestedInComponent => "only `optional` and `first` take nested descriptions",
        Code::DuplicateModifier => "leave out one of the two",
        Code::RefusedModifier => "write another word",
    }
}

fn unclosed(version: DescriptionVersion) -> &'static str
    ensures { result.now ≡ spec.unclosed version }
{
    match version {
        DescriptionVersion::One => "close it with `]`, or write `[[` for a literal bracket",
        DescriptionVersion::Two | DescriptionVersion::Three => {
            "close it with `]`, or write `\\[` for a literal bracket"
        }
    }
}

fn nameless(version: DescriptionVersion) -> &'static str
    ensures { result.now ≡ spec.nameless version }
{
    match version {
        DescriptionVersion::One => "name a component, or write `[[` for a literal bracket",
        DescriptionVersion::Two | DescriptionVersion::Three => {
            "name a component, or write `\\[` for a literal bracket"
        }
    }
}

/// What helps against a fault of strftime.
pub fn strftime_advice(code: Code) -> &'static str
    ensures { result.now ≡ spec.strftime_advice code }
{
    match code {
        Code::InvalidEscape => "a letter has to follow, or write `%%` for a literal percent sign",
        Code::UnsupportedFlag => "leave out the `O`: the letter after it is read without it",
        Code::UnsupportedLetter => {
            "names of time zones aren't known: `%z` writes the offset from UTC"
        }
        Code::UnknownName
        | Code::UnclosedBracket
        | Code::InvalidModifier
        | Code::MissingName
        | Code::MissingModifier
        | Code::UnescapedBracket
        | Code::MissingSpace
        | Code::MissingDescription
        | Code::MissingAlternative
        | Code::NestedTooDeep
        | Code::SeveralDescriptions
        | Code::OptionalItem
        | Code::FirstItem
        | Code::NestedInComponent
        | Code::DuplicateModifier
        | Code::RefusedModifier => {
            "the letters are aAbBcCdDeFgGhHIjklmMnpPrRsStTuUVwWxXyYz, and `%%` is a percent sign"
        }
    }
}
