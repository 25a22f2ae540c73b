//! From nodes to a tree with owned parts.

ghost use Rattle.std.specs.Prelude.{◌≡◌, ◌≤◌, [], IfOk, OnOk, length, map};
ghost use Rattle.timefd_items.specs.Meaning.{inner_tree};
ghost use Rattle.timefd_lang_node_list.specs.Nodes.{Fit, arity, before, ending, grown_by, made, part};
ghost use Rattle.timefd_lang_component.specs.Tree as spec;

use crate::format_description_v3::copies::owned_optional;
use crate::format_description_v3::inner::FormatDescriptionV3Inner;
use std::alloc::{AllocError, Global};
use timefd_lang_node_list::node::Node;

/// The trees that the nodes are. An `Err` says that memory ran out.
pub fn all_trees<'a>(
    alloc: Global,
    nodes: &[Node<'a>],
) -> Result<Vec<FormatDescriptionV3Inner<'a>>, AllocError>
    requires { Fit [] (map part nodes.now) }
    ensures { IfOk result (λ made. map inner_tree made.items ≡ grown_by [] (map part nodes.now)) }
{
    let mut trees = Vec::new(alloc);
    'nodes: for at in 0..nodes.len() {
        let tree = one_tree(alloc, &nodes[at], &mut trees)?;
        trees.push(tree)?;
    }
    Ok(trees)
}

/// The tree of a node, whose members are taken off the end of the trees before it.
fn one_tree<'a>(
    alloc: Global,
    node: &Node<'a>,
    trees: &mut Vec<FormatDescriptionV3Inner<'a>>,
) -> Result<FormatDescriptionV3Inner<'a>, AllocError>
    requires { arity (part node.now).role ≤ length trees.old.items }
    ensures tree { IfOk result (λ tree. inner_tree tree ≡ made (part node.now).role
        (ending (arity (part node.now).role) (map inner_tree trees.old.items))) }
    ensures taken { OnOk result (map inner_tree trees.new.items ≡ before (arity (part node.now).role)
        (map inner_tree trees.old.items)) }
{
    match node {
        &Node::Literal(text) => Ok(FormatDescriptionV3Inner::BorrowedLiteral(text)),
        Node::OwnedLiteral(text) => {
            Ok(FormatDescriptionV3Inner::OwnedLiteral(String::from_str(alloc, text)?))
        }
        Node::Component(component, _) => Ok(FormatDescriptionV3Inner::from(*component)),
        Node::Compound(members) => compound(trees, members.count),
        Node::Optional { format, .. } => owned_optional(alloc, *format, take_last(trees)),
        Node::First(members) => first(trees, members.count),
    }
}

/// The compound of the last `count` trees, which are taken off.
fn compound<'a>(
    trees: &mut Vec<FormatDescriptionV3Inner<'a>>,
    count: usize,
) -> Result<FormatDescriptionV3Inner<'a>, AllocError>
    requires { count ≤ length trees.old.items }
    ensures tree { IfOk result (λ tree. inner_tree tree ≡ spec.compound
        (spec.trees (ending count (map inner_tree trees.old.items)))) }
    ensures taken { OnOk result (map inner_tree trees.new.items ≡ before count
        (map inner_tree trees.old.items)) }
{
    let items = trees.split_off(trees.len() - count)?;
    Ok(compound_of(items))
}

/// The last `count` trees as alternatives, which are taken off.
fn first<'a>(
    trees: &mut Vec<FormatDescriptionV3Inner<'a>>,
    count: usize,
) -> Result<FormatDescriptionV3Inner<'a>, AllocError>
    requires { count ≤ length trees.old.items }
    ensures tree { IfOk result (λ tree. inner_tree tree ≡ spec.first
        (spec.trees (ending count (map inner_tree trees.old.items)))) }
    ensures taken { OnOk result (map inner_tree trees.new.items ≡ before count
        (map inner_tree trees.old.items)) }
{
    let items = trees.split_off(trees.len() - count)?;
    Ok(first_of(items))
}

fn compound_of<'a>(items: Vec<FormatDescriptionV3Inner<'a>>) -> FormatDescriptionV3Inner<'a>
    ensures { inner_tree result ≡ spec.compound (spec.trees (map inner_tree items.entry.items)) }
{
    FormatDescriptionV3Inner::OwnedCompound(items)
}

fn first_of<'a>(items: Vec<FormatDescriptionV3Inner<'a>>) -> FormatDescriptionV3Inner<'a>
    ensures { inner_tree result ≡ spec.first (spec.trees (map inner_tree items.entry.items)) }
{
    FormatDescriptionV3Inner::OwnedFirst(items)
}

/// Takes the last tree off.
fn take_last<'a>(trees: &mut Vec<FormatDescriptionV3Inner<'a>>) -> FormatDescriptionV3Inner<'a>
    requires { 1 ≤ length trees.old.items }
    ensures taken { inner_tree result ≡ spec.pack (ending 1 (map inner_tree trees.old.items)) }
    ensures left { map inner_tree trees.new.items ≡ before 1 (map inner_tree trees.old.items) }
{
    trees.take_last()
}
