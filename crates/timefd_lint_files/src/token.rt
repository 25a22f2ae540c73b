//! The parts of a pattern of a `.gitignore` file.

ghost use Rattle.std.specs.Prelude.{◌≡◌};
ghost use Rattle.timefd_lint_files.specs.Matching as spec;

use crate::class::ByteClass;

/// A part of a pattern.
#[derive(Debug, PartialEq, Eq, Drop)]
pub enum PatternToken {
    /// This byte.
    Byte(u8),
    /// `?`: any byte but `/`.
    Any,
    /// `[a-z]`: a byte of this class but `/`.
    OneOf(ByteClass),
    /// `*`: any bytes but `/`, or none.
    Star,
    /// `**/`: any folders, each with the `/` after it, or none.
    Folders,
    /// `**` after a `/`, at the end: any bytes.
    Rest,
    /// Matches nothing. It is a backslash at the end, a class that isn't closed, or one with a named class in
    /// it, as `[[:alpha:]]`, which isn't supported here.
    Nothing,
}

/// A token, and what follows it.
#[derive(Drop)]
pub struct TokenStep<'a> {
    pub token: PatternToken,
    pub rest: &'a [u8],
}

impl PatternToken {
    /// Whether the token also matches no byte at all.
    pub fn takes_none(&self) -> bool
        ensures { result ≡ spec.takes_none self.now }
    {
        match self {
            PatternToken::Byte(_)
            | PatternToken::Any
            | PatternToken::OneOf(_)
            | PatternToken::Nothing => false,
            PatternToken::Star | PatternToken::Folders | PatternToken::Rest => true,
        }
    }

    /// Whether this token matches a prefix that begins with `byte`, and the tokens after it match the rest.
    /// `fits` says whether the tokens after it match all bytes after `byte`. `goes_on` says whether this
    /// token matches at least one more of those bytes, and the tokens after it match the rest.
    pub fn takes(&self, byte: u8, fits: bool, goes_on: bool) -> bool
        ensures { result ≡ spec.takes self.now byte fits goes_on }
    {
        match self {
            PatternToken::Byte(own) => byte == *own && fits,
            PatternToken::Any => byte != b'/' && fits,
            PatternToken::OneOf(class) => byte != b'/' && class.has(byte) && fits,
            PatternToken::Star => byte != b'/' && (goes_on || fits),
            PatternToken::Folders => goes_on || (byte == b'/' && fits),
            PatternToken::Rest => goes_on || fits,
            PatternToken::Nothing => false,
        }
    }
}
