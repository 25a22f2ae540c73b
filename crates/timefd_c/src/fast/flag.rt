//! What has to be so for a component to be appended at once: its modifiers, by the numbers of its node, and what is known.

ghost use Rattle.std.specs.Prelude.{◌≡◌, IfSome, IsTrue, Some};
ghost use Rattle.timefd_c_nodes.specs.Decoding.{digits_of as digits_by, flag_of, padding_of};

use timefd_c_nodes::RawNode;
use timefd_modifier::{Padding, SubsecondDigits};

// The number of a flag that isn't set.
const UNSET: u8 = 1;

// The number of a flag that is set.
const SET: u8 = 2;

// What a component is, as a node says it.
const COMPONENT: u8 = 2;

// The number of the padding with zeros.
const ZEROS: u8 = 2;

/// The padding of a component, if it is filled with zeros.
#[inline(always)]
pub(crate) fn zeros_of(node: &RawNode) -> Option<Padding>
    ensures what { IfSome result (λ padding. node.now.what ≡ 2) }
    ensures padding { IfSome result (λ padding. padding_of node.now.padding ≡ Some padding) }
{
    if node.what != COMPONENT || node.padding != ZEROS {
        return None;
    }
    Some(Padding::Zero)
}

/// The sign of a component, if it is shown only where it has to be.
#[inline(always)]
pub(crate) fn unset_of(node: &RawNode) -> Option<bool>
    ensures { IfSome result (λ flag. flag_of node.now.sign_is_mandatory ≡ Some flag) }
{
    if node.sign_is_mandatory != UNSET {
        return None;
    }
    Some(false)
}

/// The sign of a component, if it is always shown.
#[inline(always)]
pub(crate) fn set_of(node: &RawNode) -> Option<bool>
    ensures { IfSome result (λ flag. flag_of node.now.sign_is_mandatory ≡ Some flag) }
{
    if node.sign_is_mandatory != SET {
        return None;
    }
    Some(true)
}

/// Whether a name is read in its own case only, if the node is a component.
#[inline(always)]
pub(crate) fn case_of(node: &RawNode) -> Option<bool>
    ensures what { IfSome result (λ flag. node.now.what ≡ 2) }
    ensures flag { IfSome result (λ flag. flag_of node.now.case_sensitive ≡ Some flag) }
{
    if node.what != COMPONENT {
        return None;
    }
    match node.case_sensitive {
        UNSET => Some(false),
        SET => Some(true),
        _ => None,
    }
}

/// The digits of a fraction, if the node is a component, and they are as few as it takes, or thousandths, millionths
/// or billionths.
#[inline(always)]
pub(crate) fn digits_of(node: &RawNode) -> Option<SubsecondDigits>
    ensures what { IfSome result (λ digits. node.now.what ≡ 2) }
    ensures digits { IfSome result (λ digits. digits_by node.now.digits ≡ Some digits) }
{
    if node.what != COMPONENT {
        return None;
    }
    match node.digits {
        3 => Some(SubsecondDigits::Three),
        6 => Some(SubsecondDigits::Six),
        9 => Some(SubsecondDigits::Nine),
        10 => Some(SubsecondDigits::OneOrMore),
        _ => None,
    }
}

/// Something if a part of the moment is known, of which a component shows a part.
#[inline(always)]
pub(crate) fn known(is_known: bool) -> Option<()>
    ensures { IfSome result (λ _. IsTrue is_known) }
{
    if is_known { Some(()) } else { None }
}
