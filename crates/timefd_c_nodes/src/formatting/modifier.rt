//! The values of modifiers, by their numbers.

ghost use Rattle.std.specs.Prelude.{◌≡◌, ◌<◌, IfSome};
ghost use Rattle.timefd_c_nodes.specs.Decoding as spec;

use std::num::NonZero;
use timefd_modifier::{Padding, SubsecondDigits, TrailingInput};

#[inline(always)]
pub(crate) fn flag_of(number: u8) -> Option<bool>
    ensures { result ≡ spec.flag_of number }
{
    match number {
        1 => Some(false),
        2 => Some(true),
        _ => None,
    }
}

#[inline(always)]
pub(crate) fn padding_of(number: u8) -> Option<Padding>
    ensures { result ≡ spec.padding_of number }
{
    match number {
        1 => Some(Padding::Space),
        2 => Some(Padding::Zero),
        3 => Some(Padding::None),
        _ => None,
    }
}

#[inline(always)]
pub(crate) fn digits_of(number: u8) -> Option<SubsecondDigits>
    ensures { result ≡ spec.digits_of number }
{
    match number {
        1 => Some(SubsecondDigits::One),
        2 => Some(SubsecondDigits::Two),
        3 => Some(SubsecondDigits::Three),
        4 => Some(SubsecondDigits::Four),
        5 => Some(SubsecondDigits::Five),
        6 => Some(SubsecondDigits::Six),
        7 => Some(SubsecondDigits::Seven),
        8 => Some(SubsecondDigits::Eight),
        9 => Some(SubsecondDigits::Nine),
        10 => Some(SubsecondDigits::OneOrMore),
        _ => None,
    }
}

#[inline(always)]
pub(crate) fn trailing_input_of(number: u8) -> Option<TrailingInput>
    ensures { result ≡ spec.trailing_input_of number }
{
    match number {
        1 => Some(TrailingInput::Prohibit),
        2 => Some(TrailingInput::Discard),
        _ => None,
    }
}

#[inline(always)]
pub(crate) fn count_of(number: u16) -> Option<NonZero<u16>>
    ensures { result ≡ spec.count_of number }
{
    NonZero::<u16>::new(number)
}
