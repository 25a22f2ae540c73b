//! The node of a component.

ghost use Rattle.std.specs.Prelude.{◌≡◌};
ghost use Rattle.timefd_c_nodes.specs.Encoding as spec;

use crate::fields::{cased, end, ignored, indexed, padded, period, signed, subsecond, timestamp};
use crate::node::{COMPONENT, RawNode};
use timefd_items::Component;

/// The node of a component; the node's index is `at`.
#[inline(always)]
pub fn component_node(component: Component, at: usize) -> RawNode
    ensures { result ≡ spec.component_node component at }
{
    let mut node = RawNode::blank(COMPONENT);
    make_component(&mut node, component, at);
    node
}

/// The bytes that a component reserves.
#[inline(always)]
pub fn component_bytes(component: Component) -> usize
    ensures { result ≡ (spec.component_table component).bytes }
{
    component_node(component, 0).bytes as usize
}

/// Makes a node that of a component; the node's index is `at`. The node is blank, except for the
/// number of the component, the numbers of its modifiers, and the bytes that it reserves. A
/// deprecated component has no number: no text has one.
// Each arm writes the component's fields right into the node. A copy would write all fields again.
#[inline(always)]
pub fn make_component(node: &mut RawNode, component: Component, at: usize)
    ensures { node.new ≡ spec.component_node component at }
{
    *node = RawNode {
        start: at,
        ..RawNode::blank(COMPONENT)
    };
    match component {
        Component::Day(m) => padded(node, 1, 2, m.padding),
        Component::MonthShort(m) => cased(node, 2, 3, m.case_sensitive),
        Component::MonthLong(m) => cased(node, 3, 9, m.case_sensitive),
        Component::MonthNumerical(m) => padded(node, 4, 2, m.padding),
        Component::Ordinal(m) => padded(node, 5, 3, m.padding),
        Component::WeekdayShort(m) => cased(node, 6, 3, m.case_sensitive),
        Component::WeekdayLong(m) => cased(node, 7, 9, m.case_sensitive),
        Component::WeekdaySunday(m) => indexed(node, 8, 1, m.one_indexed),
        Component::WeekdayMonday(m) => indexed(node, 9, 1, m.one_indexed),
        Component::WeekNumberIso(m) => padded(node, 10, 2, m.padding),
        Component::WeekNumberSunday(m) => padded(node, 11, 2, m.padding),
        Component::WeekNumberMonday(m) => padded(node, 12, 2, m.padding),
        Component::CalendarYearFullExtendedRange(m) => signed(
            node,
            13,
            7,
            m.padding,
            m.sign_is_mandatory,
        ),
        Component::CalendarYearFullStandardRange(m) => signed(
            node,
            14,
            5,
            m.padding,
            m.sign_is_mandatory,
        ),
        Component::CalendarYearCenturyExtendedRange(m) => signed(
            node,
            15,
            5,
            m.padding,
            m.sign_is_mandatory,
        ),
        Component::CalendarYearCenturyStandardRange(m) => signed(
            node,
            16,
            3,
            m.padding,
            m.sign_is_mandatory,
        ),
        Component::IsoYearFullExtendedRange(m) => signed(
            node,
            17,
            7,
            m.padding,
            m.sign_is_mandatory,
        ),
        Component::IsoYearFullStandardRange(m) => signed(
            node,
            18,
            5,
            m.padding,
            m.sign_is_mandatory,
        ),
        Component::IsoYearCenturyExtendedRange(m) => signed(
            node,
            19,
            5,
            m.padding,
            m.sign_is_mandatory,
        ),
        Component::IsoYearCenturyStandardRange(m) => signed(
            node,
            20,
            3,
            m.padding,
            m.sign_is_mandatory,
        ),
        Component::CalendarYearLastTwo(m) => padded(node, 21, 2, m.padding),
        Component::IsoYearLastTwo(m) => padded(node, 22, 2, m.padding),
        Component::Hour12(m) => padded(node, 23, 2, m.padding),
        Component::Hour24(m) => padded(node, 24, 2, m.padding),
        Component::Minute(m) => padded(node, 25, 2, m.padding),
        Component::Period(m) => period(node, 26, 2, m.is_uppercase, m.case_sensitive),
        Component::Second(m) => padded(node, 27, 2, m.padding),
        Component::Subsecond(m) => subsecond(node, 28, m.digits),
        Component::OffsetHour(m) => signed(node, 29, 3, m.padding, m.sign_is_mandatory),
        Component::OffsetMinute(m) => padded(node, 30, 2, m.padding),
        Component::OffsetSecond(m) => padded(node, 31, 2, m.padding),
        Component::Ignore(m) => ignored(node, 32, m.count.get()),
        Component::UnixTimestampSecond(m) => timestamp(node, 33, 15, m.sign_is_mandatory),
        Component::UnixTimestampMillisecond(m) => timestamp(node, 34, 18, m.sign_is_mandatory),
        Component::UnixTimestampMicrosecond(m) => timestamp(node, 35, 21, m.sign_is_mandatory),
        Component::UnixTimestampNanosecond(m) => timestamp(node, 36, 24, m.sign_is_mandatory),
        Component::End(m) => end(node, 37, m.trailing_input),
        Component::Month(_)
        | Component::Weekday(_)
        | Component::WeekNumber(_)
        | Component::Hour(_)
        | Component::UnixTimestamp(_)
        | Component::Year(_) => {},
    }
}
