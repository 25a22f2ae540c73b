//! The pieces of an accepted text, each with what it is.

ghost use Rattle.std.specs.Prelude.{◌≡◌, ◌<◌, ◌≤◌, ◌++◌, [], ◌∷◌, List, length, IfOk, IfSome, IsTrue, MatchOption};
ghost use Rattle.timefd_lang_component.specs.Reserved.{reserve_all};
ghost use Rattle.timefd_lang_component.specs.Tree.{Tree, trees};
ghost use Rattle.timefd_language.specs.Grammar.{nesting_limit};
ghost use Rattle.timefd_lang_node_list.specs.Nodes.{kept_bytes};
ghost use Rattle.timefd_lang_node_list.specs.Item.Meaning.{item_tree};
ghost use Rattle.timefd_language.specs.Strings.{is_of_strings};
ghost use Rattle.timefd_parse.specs.FirstPiece.{BeginsList};
ghost use Rattle.timefd_parse.specs.Language.{SpellsIn};
ghost use Rattle.timefd_parse.specs.Read.{LeadsOn};
ghost use Rattle.timefd_lint_explain.specs.Shown.{AreShown, IsShown, Shows, SpellsOne, texts};

use crate::piece::{Shown, item_piece, piece_of};
use std::alloc::{AllocError, Global};
use timefd_items::DescriptionBuilder;
use timefd_parse::{
    BorrowedFormatItem, DescriptionVersion, Language, NESTING_LIMIT, Piece, first_piece, next_piece,
};

// Room for the pieces of a short text.
const ROOM: usize = 8;

/// The pieces of a text that a language accepts, in order. An `Err` says that memory ran out.
pub fn pieces_of<'a>(
    alloc: Global,
    language: Language,
    text: &'a str,
) -> Result<Vec<Shown<'a>>, AllocError>
    // The pieces spell the items that the text spells, one each, and show them.
    ensures shows { (list : List Tree) → SpellsIn language nesting_limit text.now list
        → IfOk result (λ shown. Shows language text.now list shown.items) }

    // Together the texts of the pieces are at most as long as the text.
    ensures within { IfOk result (λ shown. length (texts shown.items) ≤ length text.now) }
{
    let mut shown = Vec::with_capacity(alloc, ROOM)?;
    let mut rest = text;
    'pieces: while let Some((piece, after)) = first_shown(alloc, language, rest)? {
        shown.push(piece)?;
        rest = after;
    }
    Ok(shown)
}

// The first piece of a text, with what it is, and what follows it. `None` if the text begins with no piece.
// A literal or a component of a version is read once; the end of any other piece is found before it is parsed.
fn first_shown<'a>(
    alloc: Global,
    language: Language,
    text: &'a str,
) -> Result<Option<(Shown<'a>, &'a str)>, AllocError>
    ensures joined { IfOk result (λ first. IfSome first
        (λ parts. parts.0.text.now ++ parts.1.now ≡ text.now)) }
    ensures shorter { IfOk result (λ first. IfSome first
        (λ parts. length parts.1.now < length text.now)) }
    ensures spelled { (list : List Tree) → SpellsIn language nesting_limit text.now list
        → IfOk result (λ first. MatchOption first ((list ≡ []) × (text.now ≡ []))
        (λ parts. BeginsList language parts.0.text.now parts.1.now list)) }
    ensures shows { (tree : Tree) → IfOk result (λ first. IfSome first
        (λ parts. SpellsIn language nesting_limit parts.0.text.now (tree ∷ []) → IsShown parts.0 tree)) }
{
    if text.is_empty() {
        return Ok(None);
    }
    if let Language::Version(version) = language {
        if let Some((leaf, after)) = first_leaf(alloc, version, text) {
            let piece = text.split_at(text.len() - after.len()).0;
            return Ok(Some((item_piece(alloc, piece, &leaf)?, after)));
        }
    }
    match first_of(alloc, language, text) {
        Some((piece, after)) => Ok(Some((piece_of(alloc, language, piece)?, after))),
        None => Ok(None),
    }
}

// The literal or the component that a text begins with, and what follows it. `None` if it begins with
// neither. It takes no memory.
fn first_leaf<'a>(
    alloc: Global,
    version: DescriptionVersion,
    text: &'a str,
) -> Option<(BorrowedFormatItem<'a>, &'a str)>
    ensures leads { IfSome result (λ parts.
        LeadsOn version nesting_limit 0 text.now (item_tree parts.0) parts.1.now) }
    ensures string { IfSome result (λ parts. IsTrue (is_of_strings parts.0)) }
{
    let mut builder = DescriptionBuilder::new(alloc);
    match next_piece::<false>(&mut builder, version, text, NESTING_LIMIT, 0) {
        Ok(Some((Piece::Literal(literal), after))) => {
            Some((BorrowedFormatItem::StringLiteral(literal), after))
        }
        Ok(Some((Piece::Component(component, _), after))) => {
            Some((BorrowedFormatItem::Component(component), after))
        }
        _ => None,
    }
}

// The first piece of a text, and what follows it. `None` if the text begins with no piece.
fn first_of<'a>(alloc: Global, language: Language, text: &'a str) -> Option<(&'a str, &'a str)>
    ensures joined { IfSome result (λ parts. parts.0.now ++ parts.1.now ≡ text.now) }
    ensures shorter { IfSome result (λ parts. length parts.1.now < length text.now) }
    ensures one { IfSome result (λ parts. SpellsOne language parts.0.now) }
    ensures spelled { (list : List Tree) → SpellsIn language nesting_limit text.now list
        → MatchOption result ((list ≡ []) × (text.now ≡ []))
        (λ parts. BeginsList language parts.0.now parts.1.now list) }
{
    match first_piece(alloc, language, text) {
        Ok(first) => first,
        Err(_) => None,
    }
}

/// How many bytes the pieces reserve together, at most `usize::MAX`.
pub fn bytes_of(pieces: &[Shown<'_>]) -> usize
    ensures { (list : List Tree) → AreShown pieces.now list
        → result ≡ kept_bytes (reserve_all (trees list)) }
{
    let mut bytes: usize = 0;
    'pieces: for at in 0..pieces.len() {
        bytes = bytes.saturating_add(pieces[at].bytes);
    }
    bytes
}
