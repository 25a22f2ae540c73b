//! From a tree that a caller has made to a description.

ghost use Rattle.std.specs.Prelude.{◌≡◌, ◌<◌, ◌≤◌, ◌↔◌, [], map, IfOk, IfSome, IsOk};
ghost use Rattle.std.specs.Result.{IfErr};
ghost use Rattle.timefd_items.specs.Meaning.{inner_tree};
ghost use Rattle.timefd_lang_component.specs.Reserved.{reserve, tree_count};
ghost use Rattle.timefd_lang_component.specs.Tree.{compound, is_none, no_trees, trees};

use crate::format_description_v3::FormatDescriptionV3;
use crate::format_description_v3::content::Content;
use crate::format_description_v3::inner::FormatDescriptionV3Inner;
use std::alloc::Global;
use timefd_lang_node_list::node_list::NodeList;

/// Why a tree was not made a description.
#[derive(Debug, Clone, Copy, PartialEq, Eq)]
pub enum OpaqueCause {
    /// The bytes that it reserves don't fit a `usize`.
    TooManyBytes,
    /// Memory ran out.
    Memory,
}

/// A tree that was not made a description, and why.
#[derive(Debug, Drop)]
pub struct NotOpaque<'a> {
    /// The tree, as it was passed in.
    pub tree: FormatDescriptionV3Inner<'a>,
    /// Why it wasn't made a description.
    pub cause: OpaqueCause,
}

impl<'a> FormatDescriptionV3Inner<'a> {
    ghost use Rattle.timefd_items.specs.Description.{description_tree};
    ghost use Rattle.timefd_lang_node_list.specs.NodeTrees.{HasRoom, list_trees};

    /// The description of this tree. An `Err` gives the same tree back: the call checks first
    /// whether its reserved bytes fit a `usize`, then whether there is memory, and only then takes
    /// the tree apart. The compound of nothing takes no memory.
    pub fn into_opaque(self, alloc: Global) -> Result<FormatDescriptionV3<'a>, NotOpaque<'a>>
        ensures ok { IfOk result (λ description. description_tree description ≡ inner_tree
            self.entry) }
        ensures fits { IfOk result (λ description. reserve (inner_tree self.entry) ≤ usize.MAX) }
        ensures kept { IfErr result (λ refused. inner_tree refused.tree ≡ inner_tree self.entry) }
        ensures too_many { IfErr result
            (λ refused. (refused.cause ≡ OpaqueCause.TooManyBytes) ↔
            (usize.MAX < reserve (inner_tree self.entry))) }
        ensures empty { inner_tree self.entry ≡ compound no_trees → IsOk result }
    {
        if self.bytes_within(usize::MAX).is_none() {
            return Err(NotOpaque {
                tree: self,
                cause: OpaqueCause::TooManyBytes,
            });
        }
        if self.is_empty_compound() {
            return Ok(FormatDescriptionV3::empty(alloc));
        }
        match self.room(alloc) {
            Some(mut list) => {
                self.flatten(&mut list);
                Ok(FormatDescriptionV3 { list })
            }
            None => Err(NotOpaque {
                tree: self,
                cause: OpaqueCause::Memory,
            }),
        }
    }

    fn is_empty_compound(&self) -> bool
        ensures { result ≡ is_none (inner_tree self.now) }
    {
        match self.content() {
            Content::Compound(items) => are_none(items),
            _ => false,
        }
    }

    /// An empty list with room for the nodes of this tree, if there is memory for them. If their
    /// number doesn't fit a `usize`, the greatest room is asked for, which no memory has.
    fn room(&self, alloc: Global) -> Option<NodeList<'a>>
        ensures empty { IfSome result (λ list. list_trees list ≡ []) }
        ensures room { IfSome result (λ list. HasRoom list (tree_count (inner_tree self.now))) }
    {
        match self.nodes_within(usize::MAX) {
            Some(count) => NodeList::with_capacity(alloc, count).ok(),
            None => {
                let _ = NodeList::with_capacity(alloc, usize::MAX);
                None
            }
        }
    }
}

fn are_none(items: &[FormatDescriptionV3Inner<'_>]) -> bool
    ensures { result ≡ is_none (compound (trees (map inner_tree items.now))) }
{
    items.is_empty()
}
