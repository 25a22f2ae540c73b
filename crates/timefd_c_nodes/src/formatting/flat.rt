//! Descriptions without optional parts and alternatives: the components and texts in turn, by which a date is
//! read faster than by nodes.

ghost use Rattle.std.specs.List.{list_all};
ghost use Rattle.std.specs.Prelude.{◌≡◌, ◌+◌, ◌<◌, ◌++◌, ◌∷◌, [], IfSome, IsUtf8, None, true};
ghost use Rattle.timefd_c_nodes.specs.Formatting.Flat.{ReadAs, Takes};
ghost use Rattle.timefd_c_nodes.specs.Formatting.Literals.{is_text};
ghost use Rattle.timefd_c_nodes.specs.Formatting.Nodes.{node_fault, node_trees};
ghost use Rattle.timefd_c_nodes.specs.Formatting.Parts.{role_in};

use crate::RawNode;
use crate::formatting::part::{WritingPart, part_of};
use std::alloc::Global;
use timefd_lang_node_list::Leaf;

/// The components and texts that nodes are, or have as members in turn, one after another. `None` says that the
/// nodes are something else, or that memory ran out.
#[tactic(auto, using(crate::proofs::FormattingLemmas::FlatLemmas::none_in_front, crate::proofs::FormattingLemmas::FlatLemmas::sound_all, crate::proofs::FormattingLemmas::FlatLemmas::texts_all, crate::proofs::FormattingLemmas::FlatLemmas::reads_all))]
pub fn leaves_of<'l>(alloc: Global, nodes: &[RawNode], literals: &'l [u8]) -> Option<Vec<Leaf<'l>>>
    ensures sound { IfSome result (λ leaves. node_fault literals.now nodes.now ≡ None) }
    ensures texts { IfSome result (λ leaves.
        list_all (λ n. is_text (role_in literals.now n)) nodes.now ≡ true) }
    ensures reads { IfSome result (λ leaves. ReadAs (node_trees literals.now nodes.now) leaves.items) }
{
    let mut leaves = Vec::with_capacity(alloc, nodes.len()).ok()?;
    // How many parts the nodes in front are: members of a compound are one.
    let mut parts = 0;
    'nodes: for at in 0..nodes.len() {
        parts = take_node(&nodes[at], literals, parts, &mut leaves)?;
    }
    Some(leaves)
}

/// How many parts there are after a node, where there are `parts` in front of it. A leaf is added to the leaves.
#[inline(always)]
#[tactic(auto, using(crate::proofs::FormattingLemmas::FlatLemmas::takes_leaf, crate::proofs::FormattingLemmas::FlatLemmas::takes_members))]
fn take_node<'l>(
    node: &RawNode,
    literals: &'l [u8],
    parts: usize,
    leaves: &mut Vec<Leaf<'l>>,
) -> Option<usize>
    requires few { parts < 18446744073709551615 }
    ensures { IfSome result (λ after. Takes literals.now node.now parts leaves.old.items after leaves.new.items) }
{
    match part_of(node, literals)? {
        WritingPart::Literal(bytes) => {
            let text = text_of(bytes)?;
            add_leaf(Leaf::Literal(text), parts, leaves)
        }
        WritingPart::Component(component) => {
            add_leaf(Leaf::Component(component.modern()), parts, leaves)
        }
        WritingPart::Compound(count) => {
            if count > parts {
                return None;
            }
            Some(parts - count + 1)
        }
        WritingPart::Optional(_) | WritingPart::First(_) => None,
    }
}

#[inline(always)]
fn add_leaf<'l>(leaf: Leaf<'l>, parts: usize, leaves: &mut Vec<Leaf<'l>>) -> Option<usize>
    requires few { parts < 18446744073709551615 }
    ensures one { IfSome result (λ after. after ≡ parts + 1) }
    ensures added { IfSome result (λ after. leaves.new.items ≡ leaves.old.items ++ leaf.entry ∷ []) }
{
    match leaves.push(leaf) {
        Ok(()) => Some(parts + 1),
        Err(_) => None,
    }
}

#[inline(always)]
fn text_of(bytes: &[u8]) -> Option<&str>
    ensures same { IfSome result (λ text. text.now ≡ bytes.now) }
    ensures utf8 { IfSome result (λ text. IsUtf8 bytes.now) }
{
    match str::from_utf8(bytes) {
        Ok(text) => Some(text),
        Err(_) => None,
    }
}
