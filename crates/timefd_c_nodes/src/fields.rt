//! The fields of a node that a component has. Each function writes them right into the node.

ghost use Rattle.std.specs.Prelude.{◌≡◌};
ghost use Rattle.timefd_lang_component.specs.Reserved.{digits_shown};
ghost use Rattle.timefd_c_nodes.specs.Encoding as spec;

use crate::node::{RawNode, flag_number};
use timefd_items::modifier::{Padding, SubsecondDigits, TrailingInput};

/// The number of a component, and the bytes that it reserves.
#[inline(always)]
pub fn numbered(node: &mut RawNode, component: u8, bytes: u32)
    ensures { node.new ≡ record node.old { component = component; bytes = bytes } }
{
    node.component = component;
    node.bytes = bytes;
}

/// The number of a component, the bytes that it reserves, and its padding.
#[inline(always)]
pub fn padded(node: &mut RawNode, component: u8, bytes: u32, padding: Padding)
    ensures { node.new ≡ record node.old {
      component = component;
      bytes = bytes;
      padding = spec.padding_number padding;
    } }
{
    node.padding = padding_number(padding);
    numbered(node, component, bytes);
}

/// The number, the bytes, the padding, and whether the sign is always written.
#[inline(always)]
pub fn signed(
    node: &mut RawNode,
    component: u8,
    bytes: u32,
    padding: Padding,
    sign_is_mandatory: bool,
)
    ensures { node.new ≡ record node.old {
      component = component;
      bytes = bytes;
      padding = spec.padding_number padding;
      sign_is_mandatory = spec.flag_number sign_is_mandatory;
    } }
{
    node.padding = padding_number(padding);
    node.sign_is_mandatory = flag_number(sign_is_mandatory);
    numbered(node, component, bytes);
}

/// The number, the bytes, and whether the sign is always written.
#[inline(always)]
pub fn timestamp(node: &mut RawNode, component: u8, bytes: u32, sign_is_mandatory: bool)
    ensures { node.new ≡ record node.old {
      component = component;
      bytes = bytes;
      sign_is_mandatory = spec.flag_number sign_is_mandatory;
    } }
{
    node.sign_is_mandatory = flag_number(sign_is_mandatory);
    numbered(node, component, bytes);
}

/// The number, the bytes, and whether it is read in its own case only.
#[inline(always)]
pub fn cased(node: &mut RawNode, component: u8, bytes: u32, case_sensitive: bool)
    ensures { node.new ≡ record node.old {
      component = component;
      bytes = bytes;
      case_sensitive = spec.flag_number case_sensitive;
    } }
{
    node.case_sensitive = flag_number(case_sensitive);
    numbered(node, component, bytes);
}

/// The number, the bytes, and whether days are counted from one.
#[inline(always)]
pub fn indexed(node: &mut RawNode, component: u8, bytes: u32, one_indexed: bool)
    ensures { node.new ≡ record node.old {
      component = component;
      bytes = bytes;
      one_indexed = spec.flag_number one_indexed;
    } }
{
    node.one_indexed = flag_number(one_indexed);
    numbered(node, component, bytes);
}

/// The number, the bytes, whether it is written in capitals, and whether it is read in its own case
/// only.
#[inline(always)]
pub fn period(
    node: &mut RawNode,
    component: u8,
    bytes: u32,
    is_uppercase: bool,
    case_sensitive: bool,
)
    ensures { node.new ≡ record node.old {
      component = component;
      bytes = bytes;
      is_uppercase = spec.flag_number is_uppercase;
      case_sensitive = spec.flag_number case_sensitive;
    } }
{
    node.is_uppercase = flag_number(is_uppercase);
    node.case_sensitive = flag_number(case_sensitive);
    numbered(node, component, bytes);
}

/// The number, the digits, and the bytes: the most digits that are shown.
#[inline(always)]
pub fn subsecond(node: &mut RawNode, component: u8, digits: SubsecondDigits)
    ensures { node.new ≡ record node.old {
      component = component;
      bytes = digits_shown digits;
      digits = spec.digits_number digits;
    } }
{
    let number = digits_number(digits);
    node.digits = number;
    numbered(node, component, u32::from(number.min(9)));
}

/// The number, and how many bytes a parser skips.
#[inline(always)]
pub fn ignored(node: &mut RawNode, component: u8, count: u16)
    ensures { node.new ≡ record node.old { component = component; bytes = 0; ignored = count } }
{
    node.ignored = count;
    numbered(node, component, 0);
}

/// The number, and what may follow the end.
#[inline(always)]
pub fn end(node: &mut RawNode, component: u8, trailing_input: TrailingInput)
    ensures { node.new ≡ record node.old {
      component = component;
      bytes = 0;
      trailing_input = spec.trailing_input_number trailing_input;
    } }
{
    node.trailing_input = trailing_input_number(trailing_input);
    numbered(node, component, 0);
}

#[inline(always)]
fn padding_number(padding: Padding) -> u8
    ensures { result ≡ spec.padding_number padding }
{
    match padding {
        Padding::Space => 1,
        Padding::Zero => 2,
        Padding::None => 3,
    }
}

#[inline(always)]
fn digits_number(digits: SubsecondDigits) -> u8
    ensures { result ≡ spec.digits_number digits }
{
    match digits {
        SubsecondDigits::One => 1,
        SubsecondDigits::Two => 2,
        SubsecondDigits::Three => 3,
        SubsecondDigits::Four => 4,
        SubsecondDigits::Five => 5,
        SubsecondDigits::Six => 6,
        SubsecondDigits::Seven => 7,
        SubsecondDigits::Eight => 8,
        SubsecondDigits::Nine => 9,
        SubsecondDigits::OneOrMore => 10,
    }
}

#[inline(always)]
fn trailing_input_number(trailing_input: TrailingInput) -> u8
    ensures { result ≡ spec.trailing_input_number trailing_input }
{
    match trailing_input {
        TrailingInput::Prohibit => 1,
        TrailingInput::Discard => 2,
    }
}
