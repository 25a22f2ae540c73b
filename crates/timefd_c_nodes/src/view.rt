//! The nodes of a description of version 3.

ghost use Rattle.std.specs.Prelude.{◌≡◌, None, IfSome};
ghost use Rattle.timefd_lang_node_list.specs.Views.{view_tree, walked};
ghost use Rattle.timefd_c_nodes.specs.Writing.{IsPast, WritesWithin};

use crate::node::RawNode;
use crate::part::put_part;
use crate::position::WritePosition;
use timefd_items::View;

/// Writes the nodes and literals of a description from a position on, as far as there is room, and
/// returns the position after them. `None` says that a `usize` can't count them.
pub fn write_view(
    view: View<'_, '_>,
    from: WritePosition,
    nodes: &mut [RawNode],
    literals: &mut [u8],
) -> Option<WritePosition>
    ensures some { IfSome result (λ end. WritesWithin (walked (view_tree view.entry)) from end
        nodes.old nodes.new literals.old literals.new) }
    ensures none { result ≡ None → IsPast (walked (view_tree view.entry)) from }
{
    let mut at = from;
    'parts: for part in view.walk() {
        at = put_part(part, at, nodes, literals)?.end;
    }
    Some(at)
}
