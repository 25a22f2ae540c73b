//! The codes of errors.

ghost use Rattle.std.specs.Prelude.{◌≡◌};
ghost use Rattle.timefd_lint.specs.ErrorCodes as spec;
ghost use Rattle.timefd_lint.specs.Rules as rules;

use timefd_lint_diagnosis::Code;

/// What kind of error it is.
#[derive(Clone, Copy)]
pub enum ErrorCode {
    /// A fault of a description.
    Fault(Code),
    /// A line or a literal isn't UTF-8.
    NotText,
    /// A file can't be read.
    Unreadable,
    /// A file can't be replaced.
    Unwritable,
    /// A file begins with a byte-order mark.
    ByteOrderMark,
    /// A comment should name a language, and names none.
    UnknownLanguage,
    /// A comment should name the code of an error or a warning, and names none.
    UnknownCode,
}

impl ErrorCode {
    /// The name that reports show, as `not-text`.
    pub fn name(self) -> &'static str
        ensures { result.now ≡ spec.name_of self }
    {
        match self {
            ErrorCode::Fault(code) => code.name(),
            ErrorCode::NotText => "not-text",
            ErrorCode::Unreadable => "unreadable",
            ErrorCode::Unwritable => "unwritable",
            ErrorCode::ByteOrderMark => "byte-order-mark",
            ErrorCode::UnknownLanguage => "unknown-language",
            ErrorCode::UnknownCode => "unknown-code",
        }
    }

    /// The codes that aren't faults of a description.
    pub fn others() -> &'static [ErrorCode]
        ensures { result.now ≡ rules.others }
    {
        &[
            ErrorCode::NotText,
            ErrorCode::Unreadable,
            ErrorCode::Unwritable,
            ErrorCode::ByteOrderMark,
            ErrorCode::UnknownLanguage,
            ErrorCode::UnknownCode,
        ]
    }

    /// The code with this name. `None` if there is none.
    pub fn named(name: &str) -> Option<ErrorCode>
        ensures { result ≡ spec.named name.now }
    {
        match name {
            "not-text" => Some(ErrorCode::NotText),
            "unreadable" => Some(ErrorCode::Unreadable),
            "unwritable" => Some(ErrorCode::Unwritable),
            "byte-order-mark" => Some(ErrorCode::ByteOrderMark),
            "unknown-language" => Some(ErrorCode::UnknownLanguage),
            "unknown-code" => Some(ErrorCode::UnknownCode),
            _ => match fault_named(name) {
                Some(code) => Some(ErrorCode::Fault(code)),
                None => None,
            },
        }
    }
}

/// The code of the fault with this name.
fn fault_named(name: &str) -> Option<Code>
    ensures { result ≡ spec.fault_named name.now }
{
    match name {
        "unclosed-bracket" => Some(Code::UnclosedBracket),
        "unknown-name" => Some(Code::UnknownName),
        "invalid-modifier" => Some(Code::InvalidModifier),
        "missing-name" => Some(Code::MissingName),
        "missing-modifier" => Some(Code::MissingModifier),
        "invalid-escape" => Some(Code::InvalidEscape),
        "unescaped-bracket" => Some(Code::UnescapedBracket),
        "missing-space" => Some(Code::MissingSpace),
        "missing-description" => Some(Code::MissingDescription),
        "missing-alternative" => Some(Code::MissingAlternative),
        "nested-too-deep" => Some(Code::NestedTooDeep),
        "several-descriptions" => Some(Code::SeveralDescriptions),
        "optional-item" => Some(Code::OptionalItem),
        "first-item" => Some(Code::FirstItem),
        "unsupported-flag" => Some(Code::UnsupportedFlag),
        "unsupported-letter" => Some(Code::UnsupportedLetter),
        "nested-in-component" => Some(Code::NestedInComponent),
        "duplicate-modifier" => Some(Code::DuplicateModifier),
        "refused-modifier" => Some(Code::RefusedModifier),
        _ => None,
    }
}

/// Each name is read back as its code, so no two codes share a name.
pub fn names_are_read()
    ensures { spec.NamesAreRead }
{}
