//! Years and parts of years as fields.

ghost use Rattle.std.specs.Prelude.{◌≡◌, ◌≤◌, ◌%◌};
ghost use Rattle.timefd_date_format.specs.Fields as spec;
ghost use Rattle.timefd_date_moment.specs.Moments.{magnitude};

use crate::field::{Lack, WrittenField};
use crate::numbers::{plain, sign_of, signed};
use timefd_modifier::Padding;

/// The greatest year of the standard range.
pub(crate) const STANDARD: u32 = 9_999;

/// The greatest year of the extended range.
pub(crate) const EXTENDED: u32 = 999_999;

/// How much of a year is shown: the number of digits, and the unit in years.
#[derive(Clone, Copy)]
pub(crate) struct Form {
    pub width: usize,
    pub unit: u32,
}

/// The whole year.
pub(crate) const FULL: Form = Form { width: 4, unit: 1 };

/// The hundreds of a year.
pub(crate) const CENTURY: Form = Form {
    width: 2,
    unit: 100,
};

fn magnitude(years: u32) -> u32
    ensures { result ≡ magnitude years }
{
    if years < 1_000_000 {
        1_000_000 - years
    } else {
        years - 1_000_000
    }
}

/// A year, or its hundreds. An `Err` says that it is greater than this range allows.
pub(crate) fn year(
    greatest: u32,
    form: Form,
    padding: Padding,
    sign_is_mandatory: bool,
    years: u32,
) -> Result<WrittenField, Lack>
    requires { 1 ≤ form.unit }
    ensures { result
        ≡ spec.year greatest form.width form.unit padding sign_is_mandatory years }
{
    let magnitude = magnitude(years);
    if magnitude > greatest {
        return Err(Lack::YearTooLong);
    }
    let has_plus = sign_is_mandatory || magnitude >= 10_000;
    let sign = sign_of(years < 1_000_000, has_plus);
    Ok(signed(sign, padding, form.width, (magnitude / form.unit) as u128))
}

/// The last two digits of a year.
pub(crate) fn last_two(padding: Padding, years: u32) -> WrittenField
    ensures { result ≡ spec.plain padding 2 (magnitude years % 100) }
{
    plain(padding, 2, (magnitude(years) % 100) as u64)
}
