//! How long the text of nodes is.

ghost use Rattle.std.specs.Prelude.{◌≡◌, None};
ghost use Rattle.timefd_c_nodes.specs.Formatting.Nodes as spec;
ghost use Rattle.timefd_c_nodes.specs.Formatting.Nodes.{leaf_tree, node_trees};
ghost use Rattle.timefd_lang_component.specs.Tree.{trees};
ghost use Rattle.timefd_date_format.specs.Fronts.{IsLen};
ghost use Rattle.timefd_date_format.specs.Written.{written, written_all};

use crate::RawNode;
use crate::formatting::leaf::{WrittenLeaf, split_last};
use timefd_date_format::{Unshown, component_len, len_of_both};
use timefd_date_moment::Moment;

/// How many bytes nodes write of the moment, at most `usize::MAX`. An `Err` names the first component
/// that shows nothing.
pub(crate) fn text_len(moment: Moment, nodes: &[RawNode], literals: &[u8]) -> Result<usize, Unshown>
    requires { spec.node_fault literals.now nodes.now ≡ None }
    ensures { IsLen (written_all moment (trees (node_trees literals.now nodes.now))) result }
{
    let mut len = Ok(0);
    let mut left = nodes;
    'nodes: while let Some((front, leaf)) = split_last(left, literals) {
        len = len_of_both(leaf_len(moment, leaf), len);
        left = front;
    }
    len
}

fn leaf_len(moment: Moment, leaf: WrittenLeaf<'_>) -> Result<usize, Unshown>
    ensures { IsLen (written moment (leaf_tree leaf.entry)) result }
{
    match leaf {
        WrittenLeaf::Literal(bytes) => Ok(bytes.len()),
        WrittenLeaf::Component(component) => component_len(moment, component),
    }
}
