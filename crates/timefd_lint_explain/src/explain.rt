//! Shows an accepted description as its nodes, and as lines.

ghost use Rattle.std.specs.Prelude.{◌≡◌, List, IfOk, string_bytes};
ghost use Rattle.timefd_lang_component.specs.Reserved.{reserve_all};
ghost use Rattle.timefd_lang_component.specs.Tree.{Tree, trees};
ghost use Rattle.timefd_language.specs.Grammar.{nesting_limit};
ghost use Rattle.timefd_lang_node_list.specs.Nodes.{kept_bytes};
ghost use Rattle.timefd_parse.specs.Language.{SpellsIn};
ghost use Rattle.timefd_lint_explain.specs.Examples.{Examples};
ghost use Rattle.timefd_lint_explain.specs.Lines.{IsExplained, IsTree};
ghost use Rattle.timefd_lint_explain.specs.Parts.{AreParts, all_parts};
ghost use Rattle.timefd_lint_explain.specs.Stands.{NodesStand};

use crate::line::{push_lines, push_number};
use crate::node::ShownNode;
use crate::tree::push_pieces;
use std::alloc::{AllocError, Global};
use timefd_lint_drawing::Origin;
use timefd_lint_drawing::shown::push_safe;
use timefd_parse::Language;

// Room for the nodes of a short text.
const NODES: usize = 8;

// Room for the lines of a short text.
const ROOM: usize = 512;

/// What is shown for a text.
#[derive(Drop)]
pub struct Explanation {
    /// The nodes of the text, each before those that it holds.
    pub nodes: Vec<ShownNode>,
    /// How many bytes the text reserves.
    pub bytes: usize,
}

/// The nodes of a text that a language accepts. An `Err` says that memory ran out.
pub fn explanation_of(
    alloc: Global,
    language: Language,
    text: &str,
) -> Result<Explanation, AllocError>
    // The bytes are the sum for the items that the text spells.
    ensures sum { (list : List Tree) → SpellsIn language nesting_limit text.now list
        → IfOk result (λ found. found.bytes ≡ kept_bytes (reserve_all (trees list))) }

    // Each node shows one part of what the text spells, in order.
    ensures parts { (list : List Tree) → SpellsIn language nesting_limit text.now list
        → IfOk result (λ found. AreParts (all_parts 0 (trees list)) found.nodes.items) }

    // The nodes have the byte ranges of these parts.
    ensures positions { (list : List Tree) → SpellsIn language nesting_limit text.now list
        → IfOk result (λ found. NodesStand language (trees list) text.now found.nodes.items) }

    // Each node, however deep, has its example.
    ensures examples { IfOk result (λ found. Examples found.nodes.items) }
{
    let mut nodes = Vec::with_capacity(alloc, NODES)?;
    let bytes = push_pieces(alloc, &mut nodes, language, 0, 0, text)?;
    Ok(Explanation { nodes, bytes })
}

/// Shows a text that a language accepts: a line for each of its nodes, with the bytes that it reserves, an
/// example, the text that it came from and what it is; and the sum of the bytes. An `Err` says that memory
/// ran out.
pub fn explained(
    alloc: Global,
    language: Language,
    origin: Origin<'_>,
    text: &str,
) -> Result<String, AllocError>
    ensures { IfOk result (λ tree. IsExplained language origin.entry.file.now origin.entry.line text.now
        (string_bytes tree)) }
{
    let Explanation { nodes, bytes } = explanation_of(alloc, language, text)?;
    tree_of(alloc, origin, text, &nodes, bytes)
}

fn tree_of(
    alloc: Global,
    origin: Origin<'_>,
    text: &str,
    nodes: &[ShownNode],
    bytes: usize,
) -> Result<String, AllocError>
    ensures { IfOk result (λ tree. IsTree origin.entry.file.now origin.entry.line text.now nodes.now bytes
        (string_bytes tree)) }
{
    let mut out = String::with_capacity(alloc, text.len().saturating_add(ROOM))?;
    push_safe(alloc, &mut out, origin.file)?;
    write!(out, ":{}: ", origin.line)?;
    push_safe(alloc, &mut out, text)?;
    out.push_str("\n")?;
    push_lines(alloc, &mut out, text, nodes)?;
    push_number(&mut out, bytes)?;
    out.push_str("in all\n")?;
    Ok(out)
}
