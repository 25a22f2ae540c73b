//! Numbers as fields.

ghost use Rattle.std.specs.Prelude.{◌≡◌};
ghost use Rattle.timefd_date_format.specs.Fields as spec;

use crate::field::{Number, Sign, WrittenField};
use timefd_modifier::Padding;

/// The sign that is shown for a number.
pub(crate) fn sign_of(is_negative: bool, has_plus: bool) -> Sign
    ensures { result ≡ spec.sign_of is_negative has_plus }
{
    if is_negative {
        Sign::Minus
    } else if has_plus {
        Sign::Plus
    } else {
        Sign::None
    }
}

/// A number after a sign.
pub(crate) fn signed(sign: Sign, padding: Padding, width: usize, value: u128) -> WrittenField
    ensures { result ≡ WrittenField.Number (record {
      sign = sign;
      padding = padding;
      width = width;
      value = value;
    }) }
{
    WrittenField::Number(Number {
        sign,
        padding,
        width,
        value,
    })
}

/// A number without a sign.
pub(crate) fn plain(padding: Padding, width: usize, value: u64) -> WrittenField
    ensures { result ≡ spec.plain padding width value }
{
    signed(Sign::None, padding, width, value as u128)
}
