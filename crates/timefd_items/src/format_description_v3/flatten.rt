//! From a tree to nodes: their number, and the tree taken apart into them.

ghost use Rattle.std.specs.Prelude.{◌≡◌, ◌+◌, ◌≤◌, ◌∷◌, [], map, true, IsFalse, IsTrue};
ghost use Rattle.timefd_items.specs.Content.{content_tree};
ghost use Rattle.timefd_items.specs.Meaning.{inner_tree, owns};
ghost use Rattle.timefd_lang_node_list.specs.NodeTrees.{Adds, HasRoom};
ghost use Rattle.timefd_lang_component.specs.Reserved.{tree_count, trees_count, within};
ghost use Rattle.timefd_lang_component.specs.Tree.{trees};

use crate::format_description_v3::content::Content;
use crate::format_description_v3::inner::FormatDescriptionV3Inner;
use timefd_lang_node_list::node_list::NodeList;

fn and_one(nodes: usize, limit: usize) -> Option<usize>
    ensures { result ≡ within limit (1 + nodes) }
{
    if nodes < limit { Some(1 + nodes) } else { None }
}

impl<'a> FormatDescriptionV3Inner<'a> {
    /// How many nodes the tree takes, if they are at most `limit`.
    #[cycle(count)]
    pub(super) fn nodes_within(&self, limit: usize) -> Option<usize>
        ensures { result ≡ within limit (tree_count (inner_tree self.now)) }
    {
        match self.content() {
            Content::Component(_) | Content::Literal(_) => and_one(0, limit),
            Content::Compound(items) => and_one(Self::all_nodes_within(items, limit)?, limit),
            Content::Optional { format: _, item } => and_one(item.nodes_within(limit)?, limit),
            Content::First(items) => and_one(Self::all_nodes_within(items, limit)?, limit),
        }
    }

    #[cycle(count)]
    fn all_nodes_within(items: &[Self], limit: usize) -> Option<usize>
        ensures { result ≡ within limit (trees_count (trees (map inner_tree items.now))) }
    {
        let mut total: usize = 0;
        'items: for at in 0..items.len() {
            total += items[at].nodes_within(limit - total)?;
        }
        Some(total)
    }

    /// Adds this tree, for which there is room. Its strings are moved, and what it borrows stays
    /// borrowed.
    #[cycle(flatten)]
    pub(super) fn flatten(self, list: &mut NodeList<'a>)
        requires { HasRoom list.old (tree_count (inner_tree self)) }
        ensures { Adds list.old list.new (inner_tree self.entry ∷ []) }
    {
        if self.flatten_borrowed_parts(list) {
            return;
        }
        match self {
            FormatDescriptionV3Inner::OwnedLiteral(text) => list.owned_literal(text),
            FormatDescriptionV3Inner::OwnedCompound(items) => {
                let count = items.len();
                Self::flatten_all(items, list);
                list.compound(count);
            }
            FormatDescriptionV3Inner::OwnedOptional { format, item } => {
                Box::into_inner(item).flatten(list);
                list.optional(format);
            }
            FormatDescriptionV3Inner::OwnedFirst(items) => {
                let count = items.len();
                Self::flatten_all(items, list);
                list.first(count);
            }
            _ => unreachable!(),
        }
    }

    /// Adds this tree if it isn't an owned part, and returns whether it did.
    fn flatten_borrowed_parts(&self, list: &mut NodeList<'a>) -> bool
        requires { HasRoom list.old (tree_count (inner_tree self.now)) }
        ensures added { IsTrue result → Adds list.old list.new (inner_tree self.now ∷ []) }
        ensures left { IsFalse result → (list.new ≡ list.old) × (owns self.now ≡ true) }
    {
        match self.borrowed_content() {
            Some(content) => {
                content.flatten(list);
                true
            }
            None => false,
        }
    }

    #[cycle(flatten)]
    fn flatten_all(items: Vec<Self>, list: &mut NodeList<'a>)
        requires { HasRoom list.old (trees_count (trees (map inner_tree items.items))) }
        ensures { Adds list.old list.new (map inner_tree items.entry.items) }
    {
        'items: for item in items {
            item.flatten(list);
        }
    }
}

impl<'a> Content<'a, 'a> {
    /// Adds the tree of this content, for which there is room.
    #[cycle(flatten_borrowed)]
    fn flatten(self, list: &mut NodeList<'a>)
        requires { HasRoom list.old (tree_count (content_tree self)) }
        ensures { Adds list.old list.new (content_tree self.entry ∷ []) }
    {
        match self {
            Content::Component(component) => {
                list.component(component);
            }
            Content::Literal(text) => list.literal(text),
            Content::Compound(items) => {
                Self::flatten_all(items, list);
                list.compound(items.len());
            }
            Content::Optional { format, item } => {
                item.content().flatten(list);
                list.optional(format);
            }
            Content::First(items) => {
                Self::flatten_all(items, list);
                list.first(items.len());
            }
        }
    }

    #[cycle(flatten_borrowed)]
    fn flatten_all(items: &'a [FormatDescriptionV3Inner<'a>], list: &mut NodeList<'a>)
        requires { HasRoom list.old (trees_count (trees (map inner_tree items.now))) }
        ensures { Adds list.old list.new (map inner_tree items.now) }
    {
        'items: for at in 0..items.len() {
            items[at].content().flatten(list);
        }
    }
}
