//! Reads by components and literals, one after another. Most descriptions of version 3 are just that: their
//! leaves are found once, and then used for as many texts as wanted.

ghost use Rattle.std.specs.Prelude.{◌≡◌, IfOk, IfSome, map};
ghost use Rattle.timefd_lang_component.specs.Tree.{compound, trees};
ghost use Rattle.timefd_lang_node_list.specs.LeafMeaning.{leaf_tree};
ghost use Rattle.timefd_lang_node_list.specs.Views.{member_trees, view_tree};
ghost use Rattle.timefd_date_moment.specs.Fields.Reads as spec;
ghost use Rattle.timefd_date_moment.specs.Fields.Reads.{Gives, at};

use crate::fields::fault::FieldFault;
use crate::fields::fields::Fields;
use crate::fields::part::{read_front, read_literal};
use std::alloc::{AllocError, Global};
use timefd_lang_node_list::{Leaf, Members, Shape, View};

/// The components and literals of a description of version 3, if it is just a sequence of them. `None` for
/// any other description. An `Err` says that memory ran out.
pub fn leaves_in_turn<'v>(
    alloc: Global,
    view: View<'v, '_>,
) -> Result<Option<Vec<Leaf<'v>>>, AllocError>
    ensures { IfOk result (λ found. IfSome found
        (λ leaves. view_tree view.entry ≡ compound (trees (map leaf_tree leaves.items)))) }
{
    match view.shape() {
        Shape::Compound(members) => member_leaves(alloc, members),
        Shape::Component(_) | Shape::Literal(_) | Shape::Optional { .. } | Shape::First(_) => {
            Ok(None)
        }
    }
}

fn member_leaves<'v>(
    alloc: Global,
    members: Members<'v, '_>,
) -> Result<Option<Vec<Leaf<'v>>>, AllocError>
    ensures { IfOk result (λ found. IfSome found
        (λ leaves. member_trees members.entry ≡ map leaf_tree leaves.items)) }
{
    let mut leaves = Vec::new(alloc);
    'members: for member in members.in_turn() {
        match leaf_of(member) {
            Some(leaf) => leaves.push(leaf)?,
            None => return Ok(None),
        }
    }
    Ok(Some(leaves))
}

fn leaf_of<'v>(view: View<'v, '_>) -> Option<Leaf<'v>>
    ensures { IfSome result (λ leaf. view_tree view.entry ≡ leaf_tree leaf) }
{
    match view.shape() {
        Shape::Component(component) => Some(Leaf::Component(component)),
        Shape::Literal(text) => Some(Leaf::Literal(text)),
        Shape::Compound(_) | Shape::Optional { .. } | Shape::First(_) => None,
    }
}

/// Reads components and literals, one after another, and returns what follows them.
pub(crate) fn read_all<'t>(
    leaves: &[Leaf<'_>],
    rest: &'t [u8],
    fields: &mut Fields,
) -> Result<&'t [u8], FieldFault>
    ensures { Gives (spec.read_all (trees (map leaf_tree leaves.now)) (at rest.now fields.old))
        fields.new result }
{
    let mut left = rest;
    'leaves: for leaf in leaves {
        match read_leaf(*leaf, left, fields) {
            Ok(after) => left = after,
            Err(fault) => return Err(fault),
        }
    }
    Ok(left)
}

#[inline(always)]
fn read_leaf<'t>(
    leaf: Leaf<'_>,
    rest: &'t [u8],
    fields: &mut Fields,
) -> Result<&'t [u8], FieldFault>
    ensures { Gives (spec.read (leaf_tree leaf.entry) (at rest.now fields.old)) fields.new result }
{
    match leaf {
        Leaf::Component(component) => read_front(component, rest, fields),
        Leaf::Literal(text) => read_literal(text.as_bytes(), rest, fields),
    }
}
