//! Brackets that `parse` refuses in versions 1 and 2: `[optional [..]]`, `[first [..] [..]]`.

ghost use Rattle.std.specs.Prelude.{◌≡◌, ◌≤◌, IfSome, MatchOption, length};
ghost use Rattle.timefd_parse.specs.Tree.{Text};
ghost use Rattle.timefd_lint_sources.specs.Items.{HasEnd, IsClosing, IsItem};

use std::alloc::Global;
use timefd_language::text::{Class, Start, cut, start_of};
use timefd_parse::{DescriptionVersion, bracket_name, first_nested};

/// A bracket with a name and nested descriptions, and nothing else.
#[derive(Clone, Copy)]
pub struct Item<'a> {
    /// The first of its descriptions.
    pub first: &'a str,
    /// What follows the `]` of the first description.
    pub after: &'a str,
    /// What follows the bracket.
    pub rest: &'a str,
}

/// The item that a text begins with, if it begins with one. No memory is allocated.
#[tactic(auto, using(crate::proofs::ItemLemmas::is_item))]
pub fn item_of<'a>(alloc: Global, version: DescriptionVersion, text: &'a str) -> Option<Item<'a>>
    ensures found { IfSome result (λ item. IsItem version text.now item.first.now item.after.now item.rest.now) }
    ensures all { (first after rest : Text) → IsItem version text.now first after rest
        → MatchOption result ⊥ (λ item. (item.first.now ≡ first) × (item.after.now ≡ after)
        × (item.rest.now ≡ rest)) }
{
    let Some((_, nested)) = bracket_name(text) else {
        return None;
    };
    let Some((first, after)) = first_nested(alloc, version, nested) else {
        return None;
    };
    match after_bracket(alloc, version, after) {
        Some(rest) => Some(Item { first, after, rest }),
        None => None,
    }
}

// What follows the rest of a bracket: more nested descriptions, and its `]`.
fn after_bracket<'a>(alloc: Global, version: DescriptionVersion, text: &'a str) -> Option<&'a str>
    ensures found { IfSome result (λ rest. HasEnd version text.now rest.now) }
    ensures all { (rest : Text) → HasEnd version text.now rest
        → MatchOption result ⊥ (λ found. found.now ≡ rest) }
{
    let mut left = text;
    'nested: while let Some((_, after)) = first_nested(alloc, version, left) {
        left = after;
    }
    after_closing(left)
}

// What follows the `]` that a text begins with, after white bytes.
fn after_closing(text: &str) -> Option<&str>
    ensures found { IfSome result (λ rest. IsClosing text.now rest.now) }
    ensures all { (rest : Text) → IsClosing text.now rest → MatchOption result ⊥ (λ found. found.now ≡ rest) }
{
    let (_, closing) = cut(text, Class::White);
    match start_of(closing) {
        Start::Closing(rest) => Some(rest),
        _ => None,
    }
}
