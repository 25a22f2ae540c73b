//! Components that are read at once.

ghost use Rattle.std.specs.Prelude.{◌≡◌, IfSome, Some};
ghost use Rattle.timefd_c_nodes.specs.Decoding as decoded;
ghost use Rattle.timefd_lang_component.specs.Modern.{modern};

use crate::RawNode;
use timefd_lang_component::Component;
use timefd_modifier::{
    CalendarYearFullExtendedRange, CalendarYearFullStandardRange, Day, Hour24, Minute, MonthLong,
    MonthNumerical, MonthShort, Padding, Second,
};

/// The number of the padding with zeros.
const ZERO: u8 = 2;

/// The number of a flag that isn't set.
const NO: u8 = 1;

/// The number of a flag that is set.
const YES: u8 = 2;

/// The component of a node, if it is a number of two digits, a year of four without a sign, or the name of a month.
#[inline(always)]
pub fn number_of(node: &RawNode) -> Option<Component>
    ensures is { IfSome result (λ component. decoded.component_of node.now ≡ Some component) }
    ensures modern { IfSome result (λ component. modern component ≡ component) }
{
    if node.padding != ZERO {
        return month_of(node);
    }
    match node.component {
        1 => Some(Component::Day(Day {
            padding: Padding::Zero,
        })),
        4 => Some(Component::MonthNumerical(MonthNumerical {
            padding: Padding::Zero,
        })),
        13 | 14 => year_of(node),
        24 => Some(Component::Hour24(Hour24 {
            padding: Padding::Zero,
        })),
        25 => Some(Component::Minute(Minute {
            padding: Padding::Zero,
        })),
        27 => Some(Component::Second(Second {
            padding: Padding::Zero,
        })),
        _ => None,
    }
}

/// The month of a node, if it is a name.
#[inline(always)]
fn month_of(node: &RawNode) -> Option<Component>
    ensures is { IfSome result (λ component. decoded.component_of node.now ≡ Some component) }
    ensures modern { IfSome result (λ component. modern component ≡ component) }
{
    match node.component {
        2 => Some(Component::MonthShort(MonthShort {
            case_sensitive: case_of(node)?,
        })),
        3 => Some(Component::MonthLong(MonthLong {
            case_sensitive: case_of(node)?,
        })),
        _ => None,
    }
}

/// Whether a name is read in its own case only.
#[inline(always)]
fn case_of(node: &RawNode) -> Option<bool>
    ensures { IfSome result (λ flag. decoded.flag_of node.now.case_sensitive ≡ Some flag) }
{
    match node.case_sensitive {
        NO => Some(false),
        YES => Some(true),
        _ => None,
    }
}

/// The year of a node, if it has no sign.
#[inline(always)]
fn year_of(node: &RawNode) -> Option<Component>
    requires { node.now.padding ≡ 2 }
    ensures is { IfSome result (λ component. decoded.component_of node.now ≡ Some component) }
    ensures modern { IfSome result (λ component. modern component ≡ component) }
{
    if node.sign_is_mandatory != NO {
        return None;
    }
    match node.component {
        13 => Some(Component::CalendarYearFullExtendedRange(CalendarYearFullExtendedRange {
            padding: Padding::Zero,
            sign_is_mandatory: false,
        })),
        14 => Some(Component::CalendarYearFullStandardRange(CalendarYearFullStandardRange {
            padding: Padding::Zero,
            sign_is_mandatory: false,
        })),
        _ => None,
    }
}
