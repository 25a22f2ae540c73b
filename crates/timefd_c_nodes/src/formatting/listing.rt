//! Nodes as a list of version 3, which a reader of dates goes through.

ghost use Rattle.std.specs.List.{list_all};
ghost use Rattle.std.specs.Prelude.{◌≡◌, ◌∷◌, ◌+◌, ◌<◌, ◌≤◌, [], IfOk, None, OnOk, length, take, true};
ghost use Rattle.std.specs.Str as std;
ghost use Rattle.timefd_c_nodes.specs.Formatting.Literals as spec;
ghost use Rattle.timefd_c_nodes.specs.Formatting.Nodes.{node_fault, node_trees};
ghost use Rattle.timefd_c_nodes.specs.Formatting.Parts.{role, role_in};
ghost use Rattle.timefd_lang_component.specs.Tree.{compound, trees};
ghost use Rattle.timefd_lang_node_list.specs.NodeTrees.{HasRoom, list_trees};
ghost use Rattle.timefd_lang_node_list.specs.Nodes.{arity, grown};

use crate::RawNode;
use crate::formatting::part::{WritingPart, members, part_of};
use std::alloc::{AllocError, Global};
use timefd_lang_node_list::node_list::NodeList;

/// Whether each literal of nodes is UTF-8 by itself.
pub fn are_texts(nodes: &[RawNode], literals: &[u8]) -> bool
    ensures { result ≡ list_all (λ n. spec.is_text (role_in literals.now n)) nodes.now }
{
    nodes.iter().all(|node| is_text(node, literals))
}

fn is_text(node: &RawNode, literals: &[u8]) -> bool
    ensures { result ≡ spec.is_text (role_in literals.now node.now) }
{
    match part_of(node, literals) {
        Some(part) => is_textual(part),
        None => true,
    }
}

fn is_textual(part: WritingPart<'_>) -> bool
    ensures { result ≡ spec.is_textual (role part.entry) }
{
    match part {
        WritingPart::Literal(bytes) => are_utf8(bytes),
        WritingPart::Component(_)
        | WritingPart::Compound(_)
        | WritingPart::Optional(_)
        | WritingPart::First(_) => true,
    }
}

#[tactic(auto, using(crate::proofs::FormattingLemmas::ListLemmas::are_utf8, crate::proofs::FormattingLemmas::ListLemmas::are_no_utf8))]
fn are_utf8(bytes: &[u8]) -> bool
    ensures { result ≡ std.is_utf8 bytes.now }
{
    match str::from_utf8(bytes) {
        Ok(_) => true,
        Err(_) => false,
    }
}

/// All trees that nodes are, as one compound. An `Err` says that memory ran out.
#[tactic(auto, using(crate::proofs::FormattingLemmas::ListLemmas::all_listed))]
pub fn listed<'l>(
    alloc: Global,
    nodes: &[RawNode],
    literals: &'l [u8],
) -> Result<NodeList<'l>, AllocError>
    requires sound { node_fault literals.now nodes.now ≡ None }
    requires texts { list_all (λ n. spec.is_text (role_in literals.now n)) nodes.now ≡ true }
    ensures { IfOk result (λ list. list_trees list
        ≡ compound (trees (node_trees literals.now nodes.now)) ∷ []) }
{
    let mut list = NodeList::with_capacity(alloc, nodes.len())?;
    let mut count: usize = 0;
    'nodes: for at in 0..nodes.len() {
        count = add(&mut list, count, nodes, literals, at)?;
    }
    compound_of(list, count)
}

/// Adds a node to the list of the nodes in front of it, and returns how many trees there are then.
#[tactic(auto, using(crate::proofs::FormattingLemmas::ListLemmas::counted_on))]
fn add<'l>(
    list: &mut NodeList<'l>,
    count: usize,
    nodes: &[RawNode],
    literals: &'l [u8],
    at: usize,
) -> Result<usize, AllocError>
    requires sound { node_fault literals.now nodes.now ≡ None }
    requires texts { list_all (λ n. spec.is_text (role_in literals.now n)) nodes.now ≡ true }
    requires there { at < length nodes.now }
    requires trees { list_trees list.old ≡ node_trees literals.now (take at nodes.now) }
    requires count { count ≡ length (list_trees list.old) }
    requires few { count ≤ at }
    ensures trees { OnOk result (list_trees list.new
        ≡ node_trees literals.now (take (at + 1) nodes.now)) }
    ensures count { IfOk result (λ n. n ≡ length (list_trees list.new)) }
    ensures few { IfOk result (λ n. n ≤ at + 1) }
{
    let part = part_at(nodes, literals, at);
    list.reserve(1)?;
    put(list, part);
    Ok(count - members(part) + 1)
}

/// The node with this index.
#[tactic(auto, using(crate::proofs::FormattingLemmas::CutLemmas::at_is_there, crate::proofs::FormattingLemmas::CutLemmas::at_members, crate::proofs::FormattingLemmas::CutLemmas::at_grown, crate::proofs::FormattingLemmas::CutLemmas::at_textual))]
fn part_at<'l>(nodes: &[RawNode], literals: &'l [u8], at: usize) -> WritingPart<'l>
    requires sound { node_fault literals.now nodes.now ≡ None }
    requires texts { list_all (λ n. spec.is_text (role_in literals.now n)) nodes.now ≡ true }
    requires there { at < length nodes.now }
    ensures members { arity (role result) ≤ length (node_trees literals.now (take at nodes.now)) }
    ensures trees { node_trees literals.now (take (at + 1) nodes.now)
        ≡ grown (node_trees literals.now (take at nodes.now))
        (record { role = role result; nodes = 0; bytes = 0 }) }
    ensures text { spec.is_textual (role result) ≡ true }
{
    part_of(&nodes[at], literals).unwrap()
}

/// Adds a node whose members are the last trees.
#[tactic(auto, using(crate::proofs::FormattingLemmas::ListLemmas::text_grown, crate::proofs::FormattingLemmas::ListLemmas::component_grown))]
fn put<'l>(list: &mut NodeList<'l>, part: WritingPart<'l>)
    requires members { arity (role part) ≤ length (list_trees list.old) }
    requires text { spec.is_textual (role part) ≡ true }
    requires room { HasRoom list.old 1 }
    ensures { list_trees list.new ≡ grown (list_trees list.old)
        (record { role = role part.entry; nodes = 0; bytes = 0 }) }
{
    match part {
        WritingPart::Literal(bytes) => list.literal(text_in(bytes)),
        WritingPart::Component(component) => {
            list.component(component);
        }
        WritingPart::Compound(count) => list.compound(count),
        WritingPart::Optional(format) => list.optional(format),
        WritingPart::First(count) => list.first(count),
    }
}

#[tactic(auto, using(crate::proofs::FormattingLemmas::ListLemmas::are_text))]
fn text_in(bytes: &[u8]) -> &str
    requires { std.is_utf8 bytes.now ≡ true }
    ensures { result.now ≡ bytes.now }
{
    str::from_utf8(bytes).unwrap()
}

/// The `count` trees of a list as one.
#[tactic(auto, using(crate::proofs::FormattingLemmas::ListLemmas::whole_compound))]
fn compound_of<'l>(list: NodeList<'l>, count: usize) -> Result<NodeList<'l>, AllocError>
    requires { count ≡ length (list_trees list) }
    ensures { IfOk result (λ whole. list_trees whole
        ≡ compound (trees (list_trees list.entry)) ∷ []) }
{
    let mut list = list;
    list.reserve(1)?;
    list.compound(count);
    Ok(list)
}
