//! The nodes of the items that a composite letter of strftime means.

ghost use Rattle.std.specs.Prelude.{ℕ, ◌≡◌, [], ◌∷◌, IsTrue, OnOk};
ghost use Rattle.timefd_lang_component.specs.Tree.{Trees, compound, trees};
ghost use Rattle.timefd_lang_node_list.specs.Item.Meaning.{item_trees};
ghost use Rattle.timefd_language.specs.Strings.{are_of_strings};
ghost use Rattle.timefd_language.specs.Strftime.{SpellsStrftime};
ghost use Rattle.timefd_lint_explain.specs.Examples.{Examples};
ghost use Rattle.timefd_lint_explain.specs.Parts.{Adds, capped};
ghost use Rattle.timefd_lint_explain.specs.Parts as spec;
ghost use Rattle.timefd_lint_explain.specs.Stands.{AddsAt, members_at};

use crate::node::{Location, ShownNode, node_of};
use crate::piece::item_what;
use std::alloc::{AllocError, Global};
use timefd_items::item_bytes;
use timefd_parse::{
    BorrowedFormatItem, Language, ParseError, StrftimeTables, parse_strftime_borrowed,
};

/// Appends the nodes of the items that a composite letter means, all at the given depth. They have no text of
/// their own.
pub fn push_members(
    alloc: Global,
    nodes: &mut Vec<ShownNode>,
    depth: usize,
    start: usize,
    text: &str,
) -> Result<(), AllocError>
    ensures examples { OnOk result (Examples nodes.old.items → Examples nodes.new.items) }
    ensures parts { (d : ℕ) (ts : Trees) → depth ≡ capped d
        → SpellsStrftime text.now (compound ts ∷ [])
        → OnOk result (Adds (spec.members d ts) nodes.old.items nodes.new.items) }
    ensures positions { (ts : Trees) → SpellsStrftime text.now (compound ts ∷ [])
        → OnOk result (AddsAt (λ spans. spans ≡ members_at start ts) nodes.old.items nodes.new.items) }
{
    let tables = StrftimeTables::new();
    match parse_strftime_borrowed(alloc, &tables, text) {
        Ok(items) => push_composite(alloc, nodes, depth, start, &items),
        Err(ParseError::Invalid(_)) => Ok(()),
        Err(ParseError::Memory(error)) => Err(error),
    }
}

// Appends the nodes of what the first item means, if that is several items.
fn push_composite(
    alloc: Global,
    nodes: &mut Vec<ShownNode>,
    depth: usize,
    start: usize,
    items: &[BorrowedFormatItem<'_>],
) -> Result<(), AllocError>
    requires { IsTrue (are_of_strings items.now) }
    ensures examples { OnOk result (Examples nodes.old.items → Examples nodes.new.items) }
    ensures parts { (d : ℕ) (ts : Trees) → depth ≡ capped d
        → item_trees items.now ≡ compound ts ∷ []
        → OnOk result (Adds (spec.members d ts) nodes.old.items nodes.new.items) }
    ensures positions { (ts : Trees) → item_trees items.now ≡ compound ts ∷ []
        → OnOk result (AddsAt (λ spans. spans ≡ members_at start ts) nodes.old.items nodes.new.items) }
{
    if items.is_empty() {
        return Ok(());
    }
    let item = &items[0];
    if let BorrowedFormatItem::Compound(members) = *item {
        return push_items(alloc, nodes, depth, start, members);
    }
    Ok(())
}

#[tactic(auto, using(crate::proofs::ExampleLemmas::examples_more))]
fn push_items(
    alloc: Global,
    nodes: &mut Vec<ShownNode>,
    depth: usize,
    start: usize,
    members: &[BorrowedFormatItem<'_>],
) -> Result<(), AllocError>
    requires { IsTrue (are_of_strings members.now) }
    ensures examples { OnOk result (Examples nodes.old.items → Examples nodes.new.items) }
    ensures parts { (d : ℕ) → depth ≡ capped d
        → OnOk result (Adds (spec.members d (trees (item_trees members.now)))
        nodes.old.items nodes.new.items) }
    ensures positions { OnOk result (AddsAt (λ spans. spans ≡ members_at start (trees (item_trees members.now)))
        nodes.old.items nodes.new.items) }
{
    let location = Location {
        depth,
        start,
        text: "",
    };
    for member in members {
        let what = item_what(alloc, member)?;
        let bytes = item_bytes(member);
        nodes.push(node_of(alloc, Language::Strftime, location, bytes, &what)?)?;
    }
    Ok(())
}
