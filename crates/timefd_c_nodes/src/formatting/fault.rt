//! Whether nodes are a description.

ghost use Rattle.std.specs.Prelude.{◌≡◌, ◌<◌};
ghost use Rattle.timefd_c_nodes.specs.Formatting.Nodes as spec;
ghost use Rattle.timefd_c_nodes.specs.Formatting.Parts.{role_in};

use crate::RawNode;
use crate::formatting::part::{members, part_of};

/// The index of the first node that is not part of a description: a number of it means nothing, its
/// bytes aren't all among the literals, or it takes more members than there are before it.
pub fn node_fault(nodes: &[RawNode], literals: &[u8]) -> Option<usize>
    ensures { result ≡ spec.node_fault literals.now nodes.now }
{
    let mut count: usize = 0;
    'nodes: for at in 0..nodes.len() {
        let node = &nodes[at];
        count = match count_after(node, literals, count) {
            Some(after) => after,
            None => return Some(at),
        };
    }
    None
}

/// How many trees there are after a node, if there are `count` before it.
fn count_after(node: &RawNode, literals: &[u8], count: usize) -> Option<usize>
    requires { count < 18446744073709551615 }
    ensures { result ≡ spec.count_after count (role_in literals.now node.now) }
{
    let taken = members(part_of(node, literals)?);
    if taken > count {
        return None;
    }
    Some(count - taken + 1)
}
