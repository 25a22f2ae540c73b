//! The tree of an accepted text, with a line for each node.

ghost use Rattle.std.specs.Prelude.{ℕ, ◌≡◌, ◌≤◌, ◌<◌, ◌+◌, ◌^◌, List, [], ◌∷◌, ◌++◌, length, IfOk, OnOk};
ghost use Rattle.timefd_lang_component.specs.Reserved.{reserve, reserve_all};
ghost use Rattle.timefd_lang_component.specs.Tree.{Text, Tree, pack, trees};
ghost use Rattle.timefd_language.specs.Grammar.{Spells, nesting_limit};
ghost use Rattle.timefd_language.specs.Head.{Head, IsHead, head_text};
ghost use Rattle.timefd_language.specs.declared.description_version.DescriptionVersion.TheVariants.{Three};
ghost use Rattle.timefd_lang_node_list.specs.Nodes.{kept_bytes};
ghost use Rattle.timefd_parse.specs.Language.{SpellsIn};
ghost use Rattle.timefd_lint_explain.specs.Examples.{Examples};
ghost use Rattle.timefd_lint_explain.specs.Inside.{EndsHead, Nests, held_parts};
ghost use Rattle.timefd_lint_explain.specs.Parts.{Adds, all_parts, capped, described, description};
ghost use Rattle.timefd_lint_explain.specs.Parts as spec;
ghost use Rattle.timefd_lint_explain.specs.Shown.{IsShown};
ghost use Rattle.timefd_lint_explain.specs.Stands.{AddsAt, DescriptionStands, HeldStand, PieceStands, PiecesStand, around};

use crate::members::push_members;
use crate::node::{Location, NodeKind, ShownNode, node_of};
use crate::piece::{Shown, What};
use crate::pieces::{bytes_of, pieces_of};
use std::alloc::{AllocError, Global};
use timefd_parse::{
    BorrowedParseError, DescriptionVersion, Language, NESTING_LIMIT, amount_all_borrowed,
    bracket_name, first_modifier, first_nested,
};

/// Appends the nodes of a text that begins at byte index `begins`, in `depth` brackets, and returns how many
/// bytes the text reserves.
#[cycle(tree)]
pub fn push_pieces(
    alloc: Global,
    nodes: &mut Vec<ShownNode>,
    language: Language,
    depth: usize,
    begins: usize,
    text: &str,
) -> Result<usize, AllocError>
    // The bytes are the sum for the items that the text spells.
    ensures sum { (list : List Tree) → SpellsIn language nesting_limit text.now list
        → IfOk result (λ bytes. bytes ≡ kept_bytes (reserve_all (trees list))) }

    // All nodes have their examples, if those that were there before have them.
    ensures examples { OnOk result (Examples nodes.old.items → Examples nodes.new.items) }

    // The nodes show the parts of what the text spells.
    ensures parts { (d : ℕ) (list : List Tree) → depth ≡ capped d
        → SpellsIn language nesting_limit text.now list
        → OnOk result (Adds (all_parts d (trees list)) nodes.old.items nodes.new.items) }

    // The nodes have the byte ranges of the pieces.
    ensures positions { (list : List Tree) → begins + length text.now < 2 ^ 64
        → SpellsIn language nesting_limit text.now list
        → OnOk result (AddsAt (PiecesStand language (trees list) begins text.now)
        nodes.old.items nodes.new.items) }
{
    let pieces = pieces_of(alloc, language, text)?;
    let shown = pieces.as_slice();
    let mut start = begins;
    'pieces: for at in 0..shown.len() {
        push_piece(alloc, nodes, language, depth, start, &shown[at])?;
        start = start.saturating_add(shown[at].text.len());
    }
    Ok(bytes_of(shown))
}

// Appends the node of a piece, and the nodes of what it holds.
#[cycle(tree)]
#[tactic(auto, using(crate::proofs::ExampleLemmas::examples_more))]
fn push_piece(
    alloc: Global,
    nodes: &mut Vec<ShownNode>,
    language: Language,
    depth: usize,
    start: usize,
    piece: &Shown<'_>,
) -> Result<(), AllocError>
    ensures examples { OnOk result (Examples nodes.old.items → Examples nodes.new.items) }
    ensures parts { (d : ℕ) (tree : Tree) → depth ≡ capped d
        → SpellsIn language nesting_limit piece.now.text.now (tree ∷ []) → IsShown piece.now tree
        → OnOk result (Adds (spec.parts d tree) nodes.old.items nodes.new.items) }
    ensures positions { (tree : Tree) → start + length piece.now.text.now < 2 ^ 64
        → SpellsIn language nesting_limit piece.now.text.now (tree ∷ []) → IsShown piece.now tree
        → OnOk result (AddsAt (PieceStands tree start piece.now.text.now)
        nodes.old.items nodes.new.items) }
{
    let Shown { text, bytes, what } = piece;
    let location = Location { depth, start, text };
    nodes.push(node_of(alloc, language, location, *bytes, what)?)?;
    let inside = depth.saturating_add(1);
    match what {
        What::Optional(_) => push_nested(alloc, nodes, inside, start, text),
        What::First => push_nested(alloc, nodes, inside, start, text),
        What::Several => push_members(alloc, nodes, inside, start, text),
        What::Literal(_) => Ok(()),
        What::Component(_) => Ok(()),
    }
}

// Appends the nodes of the descriptions in a bracket.
#[cycle(tree)]
fn push_nested(
    alloc: Global,
    nodes: &mut Vec<ShownNode>,
    depth: usize,
    start: usize,
    text: &str,
) -> Result<(), AllocError>
    ensures examples { OnOk result (Examples nodes.old.items → Examples nodes.new.items) }
    ensures parts { (d : ℕ) (tree : Tree) → depth ≡ capped d
        → Spells Three nesting_limit 0 text.now (tree ∷ []) → Nests tree
        → OnOk result (Adds (held_parts d tree) nodes.old.items nodes.new.items) }
    ensures positions { (tree : Tree) → start + length text.now < 2 ^ 64
        → Spells Three nesting_limit 0 text.now (tree ∷ []) → Nests tree
        → OnOk result (AddsAt (HeldStand tree start text.now) nodes.old.items nodes.new.items) }
{
    let mut rest = after_head(text);
    'nested: while let Some((inner, after)) = first_nested(alloc, DescriptionVersion::Three, rest) {
        // The nested description has a bracket on each side.
        let before = text.len().saturating_sub(after.len() + inner.len() + 1);
        push_described(alloc, nodes, depth, start.saturating_add(before), inner)?;
        rest = after;
    }
    Ok(())
}

// What follows the name and the modifiers of a bracket.
fn after_head(text: &str) -> &str
    ensures within { length result.now ≤ length text.now }
    ensures after { (h : Head) (after : Text) → IsHead h → EndsHead after
        → text.now ≡ head_text h ++ after → result.now ≡ after }
{
    let Some((_, modifiers)) = bracket_name(text) else {
        return text;
    };
    let mut rest = modifiers;
    'modifiers: while let Some((_, after)) = first_modifier(rest) {
        rest = after;
    }
    rest
}

// Appends the nodes of a description in brackets. `begins` is the position after its opening bracket.
#[cycle(tree)]
fn push_described(
    alloc: Global,
    nodes: &mut Vec<ShownNode>,
    depth: usize,
    begins: usize,
    inner: &str,
) -> Result<(), AllocError>
    ensures examples { OnOk result (Examples nodes.old.items → Examples nodes.new.items) }
    ensures parts { (d : ℕ) (list : List Tree) → depth ≡ capped d
        → Spells Three nesting_limit 0 inner.now list
        → OnOk result (Adds (described d (pack list)) nodes.old.items nodes.new.items) }
    ensures positions { (at : ℕ) (list : List Tree) → begins ≡ at + 1 → at + length inner.now + 2 < 2 ^ 64
        → Spells Three nesting_limit 0 inner.now list
        → OnOk result (AddsAt (DescriptionStands (pack list) at inner.now)
        nodes.old.items nodes.new.items) }
{
    push_description(alloc, nodes, depth, begins, inner)?;
    let language = Language::Version(DescriptionVersion::Three);
    let inside = depth.saturating_add(1);
    push_pieces(alloc, nodes, language, inside, begins, inner)?;
    Ok(())
}

// Appends the node of a description in brackets.
#[tactic(auto, using(crate::proofs::ExampleLemmas::examples_more))]
fn push_description(
    alloc: Global,
    nodes: &mut Vec<ShownNode>,
    depth: usize,
    begins: usize,
    inner: &str,
) -> Result<(), AllocError>
    ensures examples { OnOk result (Examples nodes.old.items → Examples nodes.new.items) }
    ensures parts { (d : ℕ) (list : List Tree) → depth ≡ capped d
        → Spells Three nesting_limit 0 inner.now list
        → OnOk result (Adds (description d (pack list) ∷ []) nodes.old.items nodes.new.items) }
    ensures positions { (at : ℕ) → begins ≡ at + 1 → at + length inner.now + 2 < 2 ^ 64
        → OnOk result (AddsAt (λ spans. spans ≡ around at inner.now ∷ [])
        nodes.old.items nodes.new.items) }
{
    let node = ShownNode {
        depth,
        start: begins.saturating_sub(1),
        end: begins.saturating_add(inner.len()).saturating_add(1),
        bytes: reserved(alloc, inner)?,
        kind: NodeKind::Description,
        words: String::from_str(alloc, "description")?,
        example: String::new(alloc),
    };
    Ok(nodes.push(node)?)
}

// How many bytes a description of version 3 reserves: 0 if the text isn't one.
fn reserved(alloc: Global, text: &str) -> Result<usize, AllocError>
    ensures { (list : List Tree) → Spells Three nesting_limit 0 text.now list
        → IfOk result (λ bytes. bytes ≡ reserve (pack list)) }
{
    let language = Language::Version(DescriptionVersion::Three);
    match amount_all_borrowed(alloc, language, NESTING_LIMIT, text) {
        Ok(bytes) => Ok(bytes),
        Err(BorrowedParseError::Invalid(_)) => Ok(0),
        Err(BorrowedParseError::Memory(error)) => Err(error),
    }
}
