//! What a bracket holds, one part after another: its name, its modifiers, its nested descriptions.

ghost use Rattle.std.specs.Prelude.{ℕ, ◌≡◌, ◌∷◌, ◌++◌, List, IfSome, MatchOption, ◌<◌, length};
ghost use Rattle.timefd_lang_component.specs.Tree.{Tree};
ghost use Rattle.timefd_language.specs.Bytes.{right};
ghost use Rattle.timefd_language.specs.Grammar.{Spells, nesting_limit};
ghost use Rattle.timefd_parse.specs.BracketParts.{BeginsModified, BeginsNamed, BeginsNested, FindsModifiers, FindsNested, NamesHeads};
ghost use Rattle.timefd_parse.specs.FirstPiece.{EndsWith};

pub mod verdict;

use crate::head::modifier::{Modifier, read_modifier};
use crate::leading::in_front;
use crate::parsing::NESTING_LIMIT;
use crate::read::members;
use std::alloc::Global;
use timefd_items::DescriptionBuilder;
use timefd_language::description_version::DescriptionVersion;
use timefd_language::text::{Class, Start, cut, start_of};

/// The name of the bracket that a text begins with, and what follows the name. `None` if the text
/// doesn't begin with `[`, or no word follows the `[` and its white bytes.
pub fn bracket_name(text: &str) -> Option<(&str, &str)>
    ensures found { IfSome result (λ parts. BeginsNamed text.now parts.0.now parts.1.now) }
    ensures shorter { IfSome result (λ parts. length parts.1.now < length text.now) }
    ensures heads { NamesHeads text.now result }
{
    let Start::Opening(inside) = start_of(text) else {
        return None;
    };
    let (_, named) = cut(inside, Class::White);
    let (name, rest) = cut(named, Class::Word);
    if name.is_empty() {
        return None;
    }
    Some((name, rest))
}

/// The modifier after the white bytes that a text begins with, and what follows it. `None` if there
/// are no white bytes or no modifier, as after the last modifier of a bracket.
pub fn first_modifier(text: &str) -> Option<(Modifier<'_>, &str)>
    ensures found { IfSome result (λ parts. BeginsModified text.now parts.0 parts.1.now) }
    ensures shorter { IfSome result (λ parts. length parts.1.now < length text.now) }
    ensures modifiers { FindsModifiers text.now result }
{
    let (white, word) = cut(text, Class::White);
    if white.is_empty() {
        return None;
    }
    match read_modifier(DescriptionVersion::Three, None, word) {
        Ok(modifier) => modifier,
        Err(_) => None,
    }
}

/// The nested description that a text begins with, after any white bytes: its text without the
/// brackets, and what follows its `]`. `None` if the text doesn't begin with one. It takes no
/// memory.
pub fn first_nested<'a>(
    alloc: Global,
    version: DescriptionVersion,
    text: &'a str,
) -> Option<(&'a str, &'a str)>
    ensures found { IfSome result (λ parts. BeginsNested version text.now parts.0.now parts.1.now) }
    ensures shorter { IfSome result (λ parts. length parts.1.now < length text.now) }
    ensures nested { FindsNested version text.now result }
{
    let (_, after) = cut(text, Class::White);
    let Start::Opening(inside) = start_of(after) else {
        return None;
    };
    let mut builder = DescriptionBuilder::new(alloc);
    match members::<false>(&mut builder, version, inside, NESTING_LIMIT, 1) {
        Ok((_, end)) => closed(inside, end),
        Err(_) => None,
    }
}

// The part of the text before `end`, and what follows the `]` that `end` begins with.
fn closed<'a>(text: &'a str, end: &'a str) -> Option<(&'a str, &'a str)>
    requires { EndsWith text.now end.now }
    ensures closed { IfSome result (λ parts. (parts.0.now ++ end.now ≡ text.now)
        × (end.now ≡ right ∷ parts.1.now)) }
    ensures found { (rest : List ℕ) → end.now ≡ right ∷ rest → MatchOption result ⊥
        (λ parts. (parts.0.now ++ end.now ≡ text.now) × (parts.1.now ≡ rest)) }
{
    match start_of(end) {
        Start::Closing(rest) => Some((in_front(text, end), rest)),
        _ => None,
    }
}
