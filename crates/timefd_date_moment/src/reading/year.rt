//! Years that were read, counted from the year -1,000,000.

ghost use Rattle.std.specs.Prelude.{◌≡◌, ◌≤◌, min, IfSome};
ghost use Rattle.timefd_date_moment.specs.Reading.Years as spec;

use crate::fields::Signed;

/// The number, or `most` if the number is larger.
pub(crate) fn at_most(number: u128, most: u32) -> u32
    ensures { result ≡ min number most }
{
    if number < most as u128 {
        number as u32
    } else {
        most
    }
}

/// The year with this sign and magnitude. A year too far from 0 becomes one that no date has.
fn years_of(is_negative: bool, magnitude: u128) -> u32
    ensures value { result ≡ spec.years_of is_negative magnitude }
    ensures within { result ≤ 2000000 }
{
    let magnitude = at_most(magnitude, 1_000_000);
    if is_negative {
        1_000_000 - magnitude
    } else {
        1_000_000 + magnitude
    }
}

/// The year, read whole, or as its century and its last two digits.
pub(crate) fn years_read(
    year: Option<Signed>,
    century: Option<Signed>,
    last_two: Option<u16>,
) -> Option<u32>
    ensures value { result ≡ spec.years_read year century last_two }
    ensures within { IfSome result (λ years. years ≤ 2000000) }
{
    match year {
        Some(year) => Some(years_of(year.is_negative, year.magnitude)),
        None => years_of_century(century, last_two),
    }
}

fn years_of_century(century: Option<Signed>, last_two: Option<u16>) -> Option<u32>
    ensures value { result ≡ spec.years_of_century century last_two }
    ensures within { IfSome result (λ years. years ≤ 2000000) }
{
    match (century, last_two) {
        (Some(century), Some(last_two)) => {
            let hundreds = at_most(century.magnitude, 10_000) * 100;
            Some(years_of(century.is_negative, (hundreds + last_two as u32) as u128))
        }
        (None, _) | (Some(_), None) => None,
    }
}
