//! The last name of a path.

ghost use Rattle.std.specs.Prelude.{◌≡◌};
ghost use Rattle.timefd_lint_files.specs.FileNames as spec;

use crate::token::PatternToken;

/// What follows the last `/`, or the whole path if it has none.
#[tactic(auto, using(crate::proofs::FileNameLemmas::after_slash, crate::proofs::FileNameLemmas::one_byte, crate::proofs::FileNameLemmas::no_slash, crate::proofs::FileNameLemmas::none_yet))]
pub fn file_name(path: &[u8]) -> &[u8]
    ensures { result.now ≡ spec.file_name path.now }
{
    let mut from = path.len();
    'bytes: while from > 0 {
        if path[from - 1] == b'/' {
            return &path[from..];
        }
        from -= 1;
    }
    path
}

impl PatternToken {
    /// Whether the token matches within a name: it never matches a `/`.
    fn is_within_name(&self) -> bool
        ensures { result ≡ spec.is_within_name self.now }
    {
        match self {
            PatternToken::Byte(byte) => *byte != b'/',
            PatternToken::Any
            | PatternToken::OneOf(_)
            | PatternToken::Star
            | PatternToken::Nothing => true,
            PatternToken::Folders | PatternToken::Rest => false,
        }
    }

    fn is_folders(&self) -> bool
        ensures { result ≡ spec.is_folders self.now }
    {
        match self {
            PatternToken::Folders => true,
            PatternToken::Byte(_)
            | PatternToken::Any
            | PatternToken::OneOf(_)
            | PatternToken::Star
            | PatternToken::Rest
            | PatternToken::Nothing => false,
        }
    }
}

/// Whether each of these tokens matches within a name.
fn are_within_name(tokens: &[PatternToken]) -> bool
    ensures { result ≡ spec.are_within_name tokens.now }
{
    for token in tokens {
        if !token.is_within_name() {
            return false;
        }
    }
    true
}

/// Whether the tokens match a name in any folder: `**/`, and then tokens that match within a name.
pub fn are_of_name(tokens: &[PatternToken]) -> bool
    ensures { result ≡ spec.are_of_name tokens.now }
{
    match tokens {
        [] => false,
        [first, after @ ..] => first.is_folders() && are_within_name(after),
    }
}
