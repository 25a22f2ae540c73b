//! Nodes without members.

ghost use Rattle.std.specs.Prelude.{◌≡◌, ◌+◌, ◌≤◌, IfSome, None, length, true};
ghost use Rattle.timefd_c.specs.Fast.{IsLeafAppended, IsTextAppended};
ghost use Rattle.timefd_c.specs.Moments.{IsMoment, has_date, range_fault};

use crate::fast::component::append_component;
use crate::moment::MomentFields;
use timefd_c_nodes::RawNode;
use timefd_date_format::append_literal;
use timefd_date_moment::Moment;

// What a literal is, as a node says it.
const LITERAL: u8 = 1;

/// Appends what a node shows of the moment with these numbers, and returns how many bytes it takes.
#[inline(always)]
#[tactic(auto, using(crate::proofs::FastLemmas::StepLemmas::leaf_within))]
pub(crate) fn append_leaf(
    moment: &Moment,
    fields: &MomentFields,
    node: &RawNode,
    literals: &[u8],
    room: &mut [u8],
    at: usize,
) -> Option<usize>
    requires date { has_date fields.now ≡ true }
    requires range { range_fault fields.now ≡ None }
    requires moment { IsMoment fields.now moment.now }
    requires there { at + 33 ≤ length room.old }
    ensures appended { IfSome result (IsLeafAppended moment.now literals.now node.now room.old at room.new) }
    ensures within { IfSome result (λ len. at + len ≤ length room.new) }
{
    // A literal has no component.
    if node.component == 0 {
        return append_literal_of(moment, node, literals, room, at);
    }
    append_component(moment, fields, node, literals, room, at)
}

// Appends the bytes of a literal.
#[inline(always)]
#[tactic(auto, using(crate::proofs::FastLemmas::StepLemmas::literal_appended))]
fn append_literal_of(
    moment: &Moment,
    node: &RawNode,
    literals: &[u8],
    room: &mut [u8],
    at: usize,
) -> Option<usize>
    requires { at + 33 ≤ length room.old }
    ensures { IfSome result (IsLeafAppended moment.now literals.now node.now room.old at room.new) }
{
    if node.what != LITERAL {
        return None;
    }
    let start = node.start;
    if node.count == 1 {
        if start >= literals.len() {
            return None;
        }
        return append_text(&literals[start..start + 1], room, at);
    }
    if start > literals.len() || node.count > literals.len() - start {
        return None;
    }
    append_text(&literals[start..start + node.count], room, at)
}

// Appends bytes, and returns how many there are.
#[inline(always)]
#[tactic(auto, using(crate::proofs::FastLemmas::StepLemmas::both_appended, crate::proofs::FastLemmas::StepLemmas::text_appended))]
fn append_text(bytes: &[u8], room: &mut [u8], at: usize) -> Option<usize>
    requires { at + 33 ≤ length room.old }
    ensures { IfSome result (IsTextAppended bytes.now room.old at room.new) }
{
    if bytes.len() == 2 {
        let middle = append_literal(&bytes[..1], room, at)?;
        let _ = append_literal(&bytes[1..], room, middle)?;
        return Some(2);
    }
    let _ = append_literal(bytes, room, at)?;
    Some(bytes.len())
}
