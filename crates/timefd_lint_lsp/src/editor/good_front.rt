//! The pieces of a text that precede the construct at fault.

ghost use Rattle.std.specs.Prelude.{◌≡◌, ◌++◌, MatchOption};
ghost use Rattle.timefd_language.specs.declared.description_version.Language as spec_language;
ghost use Rattle.timefd_lint_lsp.specs.Editor.GoodFronts.{BeginsNoPiece, IsGoodFront};
ghost use Rattle.timefd_parse.specs.FirstPiece.{EndsWith, IsAfterFirst};

use std::alloc::Global;
use timefd_items::DescriptionBuilder;
use timefd_language::strftime::next_strftime_piece;
use timefd_parse::{DescriptionVersion, Language, NESTING_LIMIT, next_piece};

/// All pieces that a text begins with, up to its end or up to what isn't one.
#[tactic(auto, using(crate::proofs::EditorLemmas::GoodFrontLemmas::reaches_first, crate::proofs::EditorLemmas::GoodFrontLemmas::reaches_more, crate::proofs::EditorLemmas::GoodFrontLemmas::ends_with, crate::proofs::EditorLemmas::GoodFrontLemmas::good_front))]
pub fn good_front<'a>(alloc: Global, language: Language, text: &'a str) -> &'a str
    ensures { IsGoodFront language text.now result.now }
{
    let mut rest = text;
    'pieces: while let Some(after) = after_piece(alloc, language, rest) {
        rest = after;
    }
    before(text, rest)
}

// The part of a text before `rest`, which it ends with.
fn before<'a>(text: &'a str, rest: &'a str) -> &'a str
    requires { EndsWith text.now rest.now }
    ensures { result.now ++ rest.now ≡ text.now }
{
    text.split_at(text.len() - rest.len()).0
}

// What follows the piece that a text begins with; `None` if it begins with none.
fn after_piece<'a>(alloc: Global, language: Language, text: &'a str) -> Option<&'a str>
    ensures { MatchOption result (BeginsNoPiece language text.now)
        (λ rest. IsAfterFirst language text.now rest.now) }
{
    match language {
        Language::Version(version) => after_version_piece(alloc, version, text),
        Language::Strftime => after_directive(text),
    }
}

#[tactic(auto, using(crate::proofs::EditorLemmas::GoodFrontLemmas::at_end, crate::proofs::EditorLemmas::GoodFrontLemmas::first_of_version, crate::proofs::EditorLemmas::GoodFrontLemmas::broken))]
fn after_version_piece<'a>(
    alloc: Global,
    version: DescriptionVersion,
    text: &'a str,
) -> Option<&'a str>
    ensures { MatchOption result (BeginsNoPiece (spec_language.Language.Version version) text.now)
        (λ rest. IsAfterFirst (spec_language.Language.Version version) text.now rest.now) }
{
    let mut builder = DescriptionBuilder::new(alloc);
    match next_piece::<false>(&mut builder, version, text, NESTING_LIMIT, 0) {
        Ok(Some((_, rest))) => Some(rest),
        Ok(None) => None,
        Err(_refused) => None,
    }
}

#[tactic(auto, using(crate::proofs::EditorLemmas::GoodFrontLemmas::first_of_strftime, crate::proofs::EditorLemmas::GoodFrontLemmas::ill))]
fn after_directive<'a>(text: &'a str) -> Option<&'a str>
    ensures { MatchOption result (BeginsNoPiece spec_language.Language.Strftime text.now)
        (λ rest. IsAfterFirst spec_language.Language.Strftime text.now rest.now) }
{
    match next_strftime_piece(text) {
        Ok(Some((_, rest))) => Some(rest),
        Ok(None) => None,
        Err(_refused) => None,
    }
}
