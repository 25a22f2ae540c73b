//! What each error means, and what to write instead.

ghost use Rattle.std.specs.Prelude.{◌≡◌};
ghost use Rattle.timefd_lint.specs.ErrorPages as spec;

use crate::error_code::ErrorCode;
use timefd_lint_diagnosis::Code;

/// What an error is, in a few words.
pub fn summary(code: ErrorCode) -> &'static str
    ensures { result.now ≡ spec.summary code }
{
    match code {
        ErrorCode::Fault(code) => fault_summary(code),
        ErrorCode::NotText => "bytes that aren't UTF-8",
        ErrorCode::Unreadable => "a file that can't be read",
        ErrorCode::Unwritable => "a file that can't be replaced",
        ErrorCode::ByteOrderMark => "a byte-order mark before the first line",
        ErrorCode::UnknownLanguage => "a comment that names no language",
        ErrorCode::UnknownCode => "a comment that allows what isn't an error or a warning",
    }
}

fn fault_summary(code: Code) -> &'static str
    ensures { result.now ≡ spec.fault_summary code }
{
    match code {
        Code::UnclosedBracket => "a bracket that isn't closed",
        Code::UnknownName => "a name that no component has",
        Code::InvalidModifier => "a modifier that the component doesn't take",
        Code::MissingName => "a bracket without a name",
        Code::MissingModifier => "a component without a modifier that it needs",
        Code::InvalidEscape => "an escape that isn't one",
        Code::UnescapedBracket => "a closing bracket that closes nothing",
        Code::MissingSpace => "no space before a nested description",
        Code::MissingDescription => "`optional` without a description",
        Code::MissingAlternative => "`first` without an alternative",
        Code::NestedTooDeep => "descriptions nested too deep",
        Code::SeveralDescriptions => "`optional` with more than one description",
        Code::OptionalItem => "`optional` before version 3",
        Code::FirstItem => "`first` before version 3",
        Code::UnsupportedFlag => "a flag that isn't read",
        Code::UnsupportedLetter => "a letter that isn't read",
        Code::NestedInComponent => "a description nested in a component",
        Code::DuplicateModifier => "a key that is given twice",
        Code::RefusedModifier => "a modifier that another one refuses",
    }
}

/// What the error means, with an example, and what to write instead.
pub fn explanation(code: ErrorCode) -> &'static str
    ensures { result.now ≡ spec.explanation code }
{
    match code {
        ErrorCode::Fault(code) => fault_explanation(code),
        ErrorCode::NotText => "Save the file as UTF-8. The other lines are looked at.",
        ErrorCode::Unreadable => {
            "The message says why: there is no such file, it is a folder, or you may not read it. The other files are looked at."
        }
        ErrorCode::Unwritable => {
            "The new text is written to `FILE.timefd_lint`, which then takes the file's place. Remove that file if an earlier run has left it, and see that you may write in its folder. The old file is as it was."
        }
        ErrorCode::ByteOrderMark => {
            "Save the file without it. It is a literal of the first description, and hides a comment mark."
        }
        ErrorCode::UnknownLanguage => {
            "`// timefd: strftme` names no language, and checks nothing. Write one of 1, 2, 3, strftime, python, c, gnu, chrono, jiff, ruby, java, go and moment."
        }
        ErrorCode::UnknownCode => {
            "`// timefd: allow unknwn-name` names no error and no warning of a format, and allows nothing. Write the codes that reports show, with commas or spaces between them."
        }
    }
}

fn fault_explanation(code: Code) -> &'static str
    ensures { result.now ≡ spec.fault_explanation code }
{
    match code {
        Code::UnclosedBracket => {
            "`due [day` ends inside a bracket. Write `due [day]`. For a bracket as text write `[[` in version 1, `\\[` in versions 2 and 3."
        }
        Code::UnknownName => {
            "`[mnth]` isn't a component. Write `[month]`: the help has the nearest name. In strftime no directive has the letter."
        }
        Code::InvalidModifier => {
            "`[day padding:zro]` has a value that `padding` doesn't take. Write `[day padding:zero]`: the help has all keys or values. A word without a colon isn't a modifier."
        }
        Code::MissingName => {
            "`[]` isn't a component. Write a name. For a bracket as text write `[[` in version 1, `\\[` in versions 2 and 3."
        }
        Code::MissingModifier => {
            "`[ignore]` doesn't say how many bytes it skips. Write `[ignore count:2]`."
        }
        Code::InvalidEscape => {
            "`a\\b` has a backslash before a letter; versions 2 and 3 allow it only before a bracket or a backslash. Write `a\\\\b`. In strftime write a percent sign as `%%`."
        }
        Code::UnescapedBracket => {
            "`[day]]` has one bracket too many. Leave it out, or write `[day]\\]` where it is text."
        }
        Code::MissingSpace => "`[optional[day]]` lacks a space. Write `[optional [day]]`.",
        Code::MissingDescription => {
            "`[optional]` has nothing that is optional. Put it into brackets: `[optional [[day]]]`."
        }
        Code::MissingAlternative => {
            "`[first]` has nothing to choose from. Put each alternative into brackets: `[first [[day]] [[month]]]`."
        }
        Code::NestedTooDeep => "Descriptions are nested deeper than version 3 allows. Nest fewer.",
        Code::SeveralDescriptions => {
            "`[optional [a] [b]]` has two. Put all into one pair of brackets: `[optional [ab]]`."
        }
        Code::OptionalItem => {
            "In versions 1 and 2 `parse` and `parse_borrowed` refuse `[optional [x]]`; `format_description!` and `parse_owned` take it. Leave it out, call one of these, or use version 3."
        }
        Code::FirstItem => {
            "In versions 1 and 2 `parse` and `parse_borrowed` refuse `[first [x]]`; `format_description!` and `parse_owned` take it. Leave it out, call one of these, or use version 3."
        }
        Code::UnsupportedFlag => "`%Od` has the flag `O`. Leave it out: write `%d`.",
        Code::UnsupportedLetter => {
            "`%Z` is the name of a time zone. Write `%z`, the offset from UTC."
        }
        Code::NestedInComponent => {
            "`[day [x]]` has text inside a component. Leave it out, or write it after the bracket: `[day]x`."
        }
        Code::DuplicateModifier => {
            "`[day padding:zero padding:none]` has `padding` twice. Leave one out. In versions 1 and 2 the last one counts."
        }
        Code::RefusedModifier => {
            "`[month repr:long padding:none]` pads a name. Leave `padding` out, or write `repr:numerical`."
        }
    }
}
