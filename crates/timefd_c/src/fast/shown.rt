//! What components show of a moment, appended at once.

ghost use Rattle.std.specs.Prelude.{◌≡◌, ◌+◌, ◌-◌, ◌≤◌, IfSome, None, Some, length, true};
ghost use Rattle.timefd_c.specs.Fast.{IsLeafAppended};
ghost use Rattle.timefd_c.specs.Moments.{IsMoment, has_date, range_fault};
ghost use Rattle.timefd_c_nodes.specs.Decoding.{component_of};

use crate::fast::moment::moment_of;
use crate::moment::MomentFields;
use timefd_c_nodes::RawNode;
use timefd_date_format::append_quickly;
use timefd_date_moment::Moment;
use timefd_lang_component::Component;

/// Appends a year of four digits.
#[inline(always)]
pub(crate) fn append_year(
    moment: &Moment,
    fields: &MomentFields,
    node: &RawNode,
    component: &Component,
    literals: &[u8],
    room: &mut [u8],
    at: usize,
) -> Option<usize>
    requires date { has_date fields.now ≡ true }
    requires range { range_fault fields.now ≡ None }
    requires moment { IsMoment fields.now moment.now }
    requires what { node.now.what ≡ 2 }
    requires component { component_of node.now ≡ Some component.now }
    requires there { at + 32 ≤ length room.old }
    ensures { IfSome result (IsLeafAppended moment.now literals.now node.now room.old at room.new) }
{
    if fields.year < 0 || fields.year > 9_999 {
        return None;
    }
    append_shown(moment, fields, node, component, literals, room, at)
}

/// Appends the hours of the offset after their sign: three bytes.
#[inline(always)]
#[tactic(auto, using(crate::proofs::FastLemmas::StepLemmas::three_appended))]
pub(crate) fn append_hours(
    moment: &Moment,
    fields: &MomentFields,
    node: &RawNode,
    component: &Component,
    literals: &[u8],
    room: &mut [u8],
    at: usize,
) -> Option<usize>
    requires date { has_date fields.now ≡ true }
    requires range { range_fault fields.now ≡ None }
    requires moment { IsMoment fields.now moment.now }
    requires what { node.now.what ≡ 2 }
    requires component { component_of node.now ≡ Some component.now }
    requires there { at + 32 ≤ length room.old }
    ensures { IfSome result (IsLeafAppended moment.now literals.now node.now room.old at room.new) }
{
    let end = append_end(moment, fields, node, component, literals, room, at)?;
    if end == at + 3 { Some(3) } else { None }
}

/// Appends what this component of the node shows, and returns how many bytes it takes.
#[inline(always)]
pub(crate) fn append_shown(
    moment: &Moment,
    fields: &MomentFields,
    node: &RawNode,
    component: &Component,
    literals: &[u8],
    room: &mut [u8],
    at: usize,
) -> Option<usize>
    requires date { has_date fields.now ≡ true }
    requires range { range_fault fields.now ≡ None }
    requires moment { IsMoment fields.now moment.now }
    requires what { node.now.what ≡ 2 }
    requires component { component_of node.now ≡ Some component.now }
    requires there { at + 32 ≤ length room.old }
    ensures { IfSome result (IsLeafAppended moment.now literals.now node.now room.old at room.new) }
{
    let end = append_end(moment, fields, node, component, literals, room, at)?;
    Some(end - at)
}

// Appends what this component of the node shows, and returns where it ends. The moment is made of its numbers again:
// of what is made, only what the component shows is looked at.
#[inline(always)]
#[tactic(auto, using(crate::proofs::FastLemmas::StepLemmas::end_is_after))]
fn append_end(
    moment: &Moment,
    fields: &MomentFields,
    node: &RawNode,
    component: &Component,
    literals: &[u8],
    room: &mut [u8],
    at: usize,
) -> Option<usize>
    requires date { has_date fields.now ≡ true }
    requires range { range_fault fields.now ≡ None }
    requires moment { IsMoment fields.now moment.now }
    requires what { node.now.what ≡ 2 }
    requires component { component_of node.now ≡ Some component.now }
    requires there { at + 32 ≤ length room.old }
    ensures after { IfSome result (λ end. at ≤ end) }
    ensures shown { IfSome result (λ end. IsLeafAppended moment.now literals.now node.now room.old at room.new
        (end - at)) }
{
    let same = moment_of(fields);
    append_quickly(&same, component, room, at)
}
