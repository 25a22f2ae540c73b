//! The first piece of a text, as it is written.

ghost use Rattle.std.specs.Prelude.{◌≡◌, ◌<◌, ◌++◌, [], List, length, IfOk, IfSome, MatchOption, MatchResult};
ghost use Rattle.std.specs.Result.{IfErr};
ghost use Rattle.timefd_lang_component.specs.Tree.{Tree};
ghost use Rattle.timefd_lang_fault.specs.BorrowedFaults.{IsBorrowedOf, IsRefusal};
ghost use Rattle.timefd_language.specs.Grammar.{nesting_limit};
ghost use Rattle.timefd_language.specs.Spans.{HasSpan};
ghost use Rattle.timefd_parse.specs.FirstPiece.{BeginsList, EndsWith, IsAfterFirst, IsFirst};
ghost use Rattle.timefd_parse.specs.Language.{SpellsIn, FaultIn};
ghost use Rattle.timefd_language.specs.declared.description_version.Language as spec_language;

use crate::parsing::NESTING_LIMIT;
use crate::read::next_piece;
use std::alloc::Global;
use timefd_items::DescriptionBuilder;
use timefd_lang_fault::BorrowedParseError;
use timefd_lang_fault::borrowed_parse_error::borrowed;
use timefd_language::Language;
use timefd_language::description_version::DescriptionVersion;
use timefd_language::strftime::after_first_directive;

/// The first piece of a text, as it is written, and what follows it. A piece is a literal up to the
/// next escape or bracket, an escape, a `]`, a bracket with all that it holds, or a directive of
/// strftime. `None` for the empty text.
///
/// The error is the fault of a text that doesn't begin with a piece. It takes no memory.
pub fn first_piece<'a>(
    alloc: Global,
    language: Language,
    text: &'a str,
) -> Result<Option<(&'a str, &'a str)>, BorrowedParseError<'a>>
    // The piece and what follows it make up the text.
    ensures joined { IfOk result (λ first. IfSome first
        (λ parts. parts.0.now ++ parts.1.now ≡ text.now)) }
    ensures shorter { IfOk result (λ first. IfSome first
        (λ parts. length parts.1.now < length text.now)) }

    // The piece spells one tree, and the reader continues after it.
    ensures found { IfOk result (λ first. MatchOption first (text.now ≡ [])
        (λ parts. IsFirst language text.now parts.0.now parts.1.now)) }
    ensures fault { IfErr result (IsBorrowedOf (FaultIn language nesting_limit text.now)) }
    ensures span { IfErr result (HasSpan language text.now) }

    // If the text spells a list of trees, the piece spells the first and the rest spells the others.
    ensures spelled { (list : List Tree) → SpellsIn language nesting_limit text.now list
        → MatchResult result (λ first. MatchOption first (list ≡ [])
        (λ parts. BeginsList language parts.0.now parts.1.now list)) (λ _. ⊥) }
    ensures memory { IfErr result IsRefusal }
{
    match after_first(alloc, language, text) {
        Ok(Some(rest)) => Ok(Some((in_front(text, rest), rest))),
        Ok(None) => Ok(None),
        Err(error) => Err(error),
    }
}

/// The part of the text before `rest`, which it ends with.
pub fn in_front<'a>(text: &'a str, rest: &'a str) -> &'a str
    requires { EndsWith text.now rest.now }
    ensures { result.now ++ rest.now ≡ text.now }
{
    text.split_at(text.len() - rest.len()).0
}

/// What follows the first piece of a text, if it has one.
fn after_first<'a>(
    alloc: Global,
    language: Language,
    text: &'a str,
) -> Result<Option<&'a str>, BorrowedParseError<'a>>
    ensures found { IfOk result (λ rest. MatchOption rest (text.now ≡ [])
        (λ after. IsAfterFirst language text.now after.now)) }
    ensures fault { IfErr result (IsBorrowedOf (FaultIn language nesting_limit text.now)) }
    ensures span { IfErr result (HasSpan language text.now) }
    ensures memory { IfErr result IsRefusal }
{
    match language {
        Language::Version(version) => after_piece(alloc, version, text),
        Language::Strftime => after_directive(text),
    }
}

/// What follows the first piece of a text of this version, if it has one.
#[inline(never)]
fn after_piece<'a>(
    alloc: Global,
    version: DescriptionVersion,
    text: &'a str,
) -> Result<Option<&'a str>, BorrowedParseError<'a>>
    ensures found { IfOk result (λ rest. MatchOption rest (text.now ≡ [])
        (λ after. IsAfterFirst (spec_language.Language.Version version) text.now after.now)) }
    ensures fault { IfErr result
        (IsBorrowedOf (FaultIn (spec_language.Language.Version version) nesting_limit text.now)) }
    ensures span { IfErr result (HasSpan (spec_language.Language.Version version) text.now) }
    ensures memory { IfErr result IsRefusal }
{
    let mut builder = DescriptionBuilder::new(alloc);
    match next_piece::<false>(&mut builder, version, text, NESTING_LIMIT, 0) {
        Ok(Some((_, rest))) => Ok(Some(rest)),
        Ok(None) => Ok(None),
        Err(error) => Err(borrowed(error, text.len())),
    }
}

/// What follows the first piece of a text of strftime, if it has one.
fn after_directive<'a>(text: &'a str) -> Result<Option<&'a str>, BorrowedParseError<'a>>
    ensures found { IfOk result (λ rest. MatchOption rest (text.now ≡ [])
        (λ after. IsAfterFirst spec_language.Language.Strftime text.now after.now)) }
    ensures fault { IfErr result
        (IsBorrowedOf (FaultIn spec_language.Language.Strftime nesting_limit text.now)) }
    ensures span { IfErr result (HasSpan spec_language.Language.Strftime text.now) }
    ensures memory { IfErr result IsRefusal }
{
    match after_first_directive(text) {
        Ok(rest) => Ok(rest),
        Err(fault) => Err(BorrowedParseError::Invalid(fault)),
    }
}
