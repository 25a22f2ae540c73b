//! Descriptions with `[optional [..]]` and `[first [..] [..]]`, converted: an item is set aside, with a mark at its
//! position, while the text around it is converted.

ghost use Rattle.std.specs.Prelude.{◌≡◌, IfOk, IfSome, None, Some, string_bytes, true};
ghost use Rattle.timefd_parse.specs.Tree.{Text};
ghost use Rattle.timefd_lint_rewrite.specs.Layouts.{IsConverted};
ghost use Rattle.timefd_lint_sources.specs.Rewriting.Aside as spec;

use crate::opening::{item_index, opened_all};
use crate::rewriting::item::item_converted;
use std::alloc::{AllocError, Global};
use timefd_lang_convert::Conversion;
use timefd_lint_rewrite::{Layout, lay_out};
use timefd_parse::{
    BorrowedParseError, DescriptionVersion, Language, NESTING_LIMIT, ParseError,
    amount_all_borrowed,
};

/// At most so many items are set aside from one description.
pub const ITEM_LIMIT: u64 = 100;

/// What a text of this version with items becomes. `None` if nothing is known that its new version takes. An `Err` says that
/// memory ran out.
pub fn converted_around(
    alloc: Global,
    version: DescriptionVersion,
    layout: Layout,
    text: &str,
) -> Result<Option<String>, AllocError>
    ensures { IfOk result (λ answer. IfSome answer
        (λ new. spec.IsConvertedAround version layout text.now (string_bytes new))) }
{
    let Some(target) = target_of(layout) else {
        return Ok(None);
    };
    if has_mark(text.as_bytes()) {
        return Ok(None);
    }
    let Some(answer) = converted_within(alloc, version, layout, ITEM_LIMIT, text)? else {
        return Ok(None);
    };
    if is_taken(alloc, target, &answer)? {
        Ok(Some(answer))
    } else {
        Ok(None)
    }
}

// What a text becomes from which at most `most` items are set aside. `None` if one of them isn't converted.
#[cycle(aside)]
#[tactic(auto, using(crate::proofs::RewritingLemmas::AsideLemmas::at_once, crate::proofs::RewritingLemmas::AsideLemmas::one_more))]
fn converted_within(
    alloc: Global,
    version: DescriptionVersion,
    layout: Layout,
    most: u64,
    text: &str,
) -> Result<Option<String>, AllocError>
    ensures { IfOk result (λ answer. IfSome answer
        (λ new. spec.IsConvertedWithin most version layout text.now (string_bytes new))) }
{
    match lay_out(alloc, layout, text) {
        Ok(answer) => Ok(Some(answer)),
        Err(ParseError::Memory(error)) => Err(error),
        Err(ParseError::Invalid(_fault)) => {
            if most == 0 {
                Ok(None)
            } else {
                one_set_aside(alloc, version, layout, most - 1, text)
            }
        }
    }
}

// What a text becomes from which one item and at most `most` others are set aside.
#[cycle(aside)]
#[tactic(auto, using(crate::proofs::RewritingLemmas::AsideLemmas::set_aside, crate::proofs::RewritingLemmas::AsideLemmas::cut_at))]
fn one_set_aside(
    alloc: Global,
    version: DescriptionVersion,
    layout: Layout,
    most: u64,
    text: &str,
) -> Result<Option<String>, AllocError>
    ensures { IfOk result (λ answer. IfSome answer
        (λ new. spec.IsSetAside (spec.IsConvertedWithin most version layout) most version layout text.now
        (string_bytes new))) }
{
    let Some(index) = item_index(alloc, version, text)? else {
        return Ok(None);
    };
    let (front, after) = text.split_at(index);
    let Some((item, rest)) = item_converted(alloc, version, layout, after)? else {
        return Ok(None);
    };
    let mark = format!(in alloc; "\u{1}{most};")?;
    let marked = format!(in alloc; "{front}{mark}{rest}")?;
    let Some(around) = converted_within(alloc, version, layout, most, &marked)? else {
        return Ok(None);
    };
    match around.split_once(mark.as_str()) {
        Some((before, after)) => Ok(Some(format!(in alloc; "{before}{item}{after}")?)),
        None => Ok(None),
    }
}

fn has_mark(text: &[u8]) -> bool
    ensures { result ≡ spec.has_mark text.now }
{
    text.iter().any(|byte| *byte == 1)
}

// The version that a layout converts to. `None` if it converts nothing.
fn target_of(layout: Layout) -> Option<DescriptionVersion>
    ensures { result ≡ spec.target_of layout }
{
    match layout {
        Layout::Least(conversion) | Layout::Normal(conversion) => Some(version_after(conversion)),
        Layout::Fixed(_, _) => None,
    }
}

fn version_after(conversion: Conversion) -> DescriptionVersion
    ensures { result ≡ spec.version_after conversion }
{
    match conversion {
        Conversion::OneToTwo => DescriptionVersion::Two,
        Conversion::OneToThree
        | Conversion::TwoToThree
        | Conversion::ThreeToThree
        | Conversion::StrftimeToThree => DescriptionVersion::Three,
    }
}

// Whether a version takes a text where items are taken.
fn is_taken(alloc: Global, version: DescriptionVersion, text: &str) -> Result<bool, AllocError>
    ensures { IfOk result (λ is. is ≡ true → spec.IsTaken version text.now) }
{
    let opened = opened_all(alloc, version, text)?;
    match amount_all_borrowed(alloc, Language::Version(version), NESTING_LIMIT, &opened) {
        Ok(_) => Ok(true),
        Err(BorrowedParseError::Invalid(_fault)) => Ok(false),
        Err(BorrowedParseError::Memory(error)) => Err(error),
    }
}
