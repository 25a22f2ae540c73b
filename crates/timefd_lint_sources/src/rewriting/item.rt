//! An item like `[optional [..]]` or `[first [..] [..]]`, with what it nests converted.

ghost use Rattle.std.specs.Prelude.{◌≡◌, IfOk, IfSome, None, Some, string_bytes};
ghost use Rattle.timefd_parse.specs.Tree.{Text};
ghost use Rattle.timefd_parse.specs.BracketParts.{BeginsNested};
ghost use Rattle.timefd_lint_sources.specs.Rewriting.Aside.{AreNestsConverted, IsItemConverted, IsNestConverted};

use std::alloc::{AllocError, Global};
use timefd_language::text::{Class, Start, cut, start_of};
use timefd_lint_rewrite::{Layout, lay_out};
use timefd_parse::{DescriptionVersion, ParseError, bracket_name, first_nested};

/// The item that a text begins with, with what it nests converted, and what follows it. `None` if it begins with none, or a
/// description in it can't be converted. An `Err` says that memory ran out.
#[tactic(auto, using(crate::proofs::RewritingLemmas::AsideLemmas::is_item))]
pub fn item_converted<'a>(
    alloc: Global,
    version: DescriptionVersion,
    layout: Layout,
    text: &'a str,
) -> Result<Option<(String, &'a str)>, AllocError>
    ensures { IfOk result (λ item. IfSome item
        (λ parts. IsItemConverted version layout text.now (string_bytes parts.0) parts.1.now)) }
{
    let Some((name, nested)) = bracket_name(text) else {
        return Ok(None);
    };
    match nests_converted(alloc, version, layout, nested)? {
        Some((others, rest)) => {
            let item = format!(in alloc; "[{name}{others}")?;
            Ok(Some((item, rest)))
        }
        None => Ok(None),
    }
}

// The nested descriptions that a text goes on with and the `]` after them, converted, and what follows.
#[tactic(auto, using(crate::proofs::RewritingLemmas::AsideLemmas::at_first, crate::proofs::RewritingLemmas::AsideLemmas::more_nests, crate::proofs::RewritingLemmas::AsideLemmas::closed))]
fn nests_converted<'a>(
    alloc: Global,
    version: DescriptionVersion,
    layout: Layout,
    text: &'a str,
) -> Result<Option<(String, &'a str)>, AllocError>
    ensures { IfOk result (λ nests. IfSome nests
        (λ parts. AreNestsConverted version layout text.now (string_bytes parts.0) parts.1.now)) }
{
    let mut new = String::new(alloc);
    let mut left = text;
    'nested: while let Some((inner, after)) = first_nested(alloc, version, left) {
        let Some(one) = nest_converted(alloc, version, layout, left, inner)? else {
            return Ok(None);
        };
        new.push_str(&one)?;
        left = after;
    }
    let (white, closing) = cut(left, Class::White);
    match start_of(closing) {
        Start::Closing(rest) => {
            new.push_str(white)?;
            new.push_str("]")?;
            Ok(Some((new, rest)))
        }
        _ => Ok(None),
    }
}

// The nested description that a text begins with, converted. `None` if it can't be.
#[tactic(auto, using(crate::proofs::RewritingLemmas::AsideLemmas::is_nest))]
fn nest_converted(
    alloc: Global,
    version: DescriptionVersion,
    layout: Layout,
    text: &str,
    inner: &str,
) -> Result<Option<String>, AllocError>
    ensures { (after : Text) → BeginsNested version text.now inner.now after → IfOk result (λ one. IfSome one
        (λ new. IsNestConverted version layout text.now inner.now (string_bytes new) after)) }
{
    let (white, _) = cut(text, Class::White);
    match lay_out(alloc, layout, inner) {
        Ok(answer) => Ok(Some(format!(in alloc; "{white}[{answer}]")?)),
        Err(ParseError::Invalid(_fault)) => Ok(None),
        Err(ParseError::Memory(error)) => Err(error),
    }
}
