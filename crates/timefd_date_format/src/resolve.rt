//! What a formatter writes for a description, resolved once: its nested parts one after another, without
//! those that no formatter writes.

ghost use Rattle.std.specs.Prelude.{◌≡◌, IfOk, map};
ghost use Rattle.timefd_lang_component.specs.Tree.{trees};
ghost use Rattle.timefd_date_format.specs.Written.{written, written_all};
ghost use Rattle.timefd_date_moment.specs.declared.moment.Moment.{Moment as Value};
ghost use Rattle.timefd_lang_node_list.specs.LeafMeaning.{leaf_tree};
ghost use Rattle.timefd_lang_node_list.specs.Views.{view_tree};

use std::alloc::{AllocError, Global};
use timefd_lang_node_list::{Leaf, View};

/// The components and literals that are written for a description, in order. An `Err` says that memory ran
/// out.
#[tactic(auto, using(crate::proofs::ResolveLemmas::none_found, crate::proofs::ResolveLemmas::one_found, crate::proofs::ResolveLemmas::all_found))]
pub fn written_leaves<'v>(alloc: Global, view: View<'v, '_>) -> Result<Vec<Leaf<'v>>, AllocError>
    ensures { IfOk result (λ found. (value : Value)
        → written_all value (trees (map leaf_tree found.items)) ≡ written value (view_tree view.entry)) }
{
    let mut found = Vec::new(alloc);
    let mut leaves = view.leaves();
    'leaves: while let Some((front, leaf)) = leaves.split_last() {
        found.push(leaf)?;
        leaves = front;
    }
    found.reverse();
    Ok(found)
}
