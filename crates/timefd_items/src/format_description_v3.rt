//! A description of version 3, whose reserved bytes are known.

ghost use Rattle.std.specs.Prelude.{◌-◌, ◌^◌, ◌≤◌, length};
ghost use Rattle.timefd_lang_node_list.specs.NodeTrees.{list_trees};
ghost use Rattle.timefd_lang_component.specs.Reserved.{reserve};
ghost use Rattle.timefd_lang_component.specs.Tree.{pack};

pub mod builder;
mod content;
mod copies;
mod debug;
mod flatten;
pub mod inner;
mod inner_trees;
pub mod opaque;
mod reserved;

use inner::FormatDescriptionV3Inner;
use std::alloc::{AllocError, Global};
use timefd_lang_node_list::View;
use timefd_lang_node_list::node_list::NodeList;

/// A description of version 3, as a formatter takes it: a tree whose reserved bytes fit a `usize`.
/// `FormatDescriptionV3Inner::into_opaque` makes one. It is `time`'s struct of that name.
#[derive(Drop)]
pub struct FormatDescriptionV3<'a> {
    // The one tree, or none for the compound of nothing.
    list: NodeList<'a>,
    ghost one: { length (list_trees list) ≤ 1 },
    ghost fits: { reserve (pack (list_trees list)) ≤ 2 ^ 64 - 1 },
}

impl<'a> FormatDescriptionV3<'a> {
    ghost use Rattle.std.specs.Prelude.{◌≡◌, IfOk};
    ghost use Rattle.timefd_items.specs.Description.{description_owners, description_tree, unused_parts};
    ghost use Rattle.timefd_items.specs.Meaning.{inner_tree};
    ghost use Rattle.timefd_lang_component.specs.Texts.{Renders};
    ghost use Rattle.timefd_lang_component.specs.Tree.{Text, compound, no_trees};
    ghost use Rattle.timefd_lang_node_list.specs.Views.{view_tree};

    fn empty(alloc: Global) -> Self
        ensures { description_tree result ≡ compound no_trees }
    {
        FormatDescriptionV3 {
            list: NodeList::new(alloc),
        }
    }

    /// The reserved bytes: how many bytes its longest rendering has.
    pub fn max_bytes_needed(&self) -> usize
        ensures reserved { result ≡ reserve (description_tree self.now) }
        ensures reached { (text : Text) × Renders (description_tree self.now) text
            × (length text ≡ result) }
        ensures longest { (text : Text) → Renders (description_tree self.now) text
            → length text ≤ result }
    {
        self.list.last_bytes()
    }

    /// The tree of the description, to look at in place. This call is this port's own.
    pub fn view(&self) -> View<'_, 'a>
        ensures { view_tree result ≡ description_tree self.now }
    {
        View::new(self.list.nodes())
    }

    /// A tree of the same meaning, to look at. An `Err` says that memory ran out.
    pub fn to_inner(&self, alloc: Global) -> Result<FormatDescriptionV3Inner<'a>, AllocError>
        ensures { IfOk result (λ tree. inner_tree tree ≡ description_tree self.now) }
    {
        match inner_trees::all_trees(alloc, self.list.nodes())?.pop() {
            Some(tree) => Ok(tree),
            None => Ok(FormatDescriptionV3Inner::OwnedCompound(Vec::new(alloc))),
        }
    }

    /// A description of the same meaning that borrows nothing, so it may outlive the text. An `Err`
    /// says that memory ran out.
    pub fn to_owned(&self, alloc: Global) -> Result<FormatDescriptionV3<'static>, AllocError>
        ensures same { IfOk result (λ copy. description_tree copy ≡ description_tree self.now) }
        ensures exact { IfOk result (λ copy. unused_parts copy ≡ 0) }
    {
        Ok(FormatDescriptionV3 {
            list: self.list.owned(alloc)?,
        })
    }

    /// A description of the same meaning, which borrows what this one borrows and owns what it owns.
    /// It takes one block of memory for its parts, exactly of their size, and one for each owned
    /// text. An `Err` says that memory ran out.
    pub fn clone(&self, alloc: Global) -> Result<Self, AllocError>
        ensures same { IfOk result (λ copy. description_tree copy ≡ description_tree self.now) }
        ensures owners { IfOk result (λ copy. description_owners copy ≡ description_owners self.now) }
        ensures exact { IfOk result (λ copy. unused_parts copy ≡ 0) }
    {
        Ok(FormatDescriptionV3 {
            list: self.list.copied(alloc)?,
        })
    }
}
