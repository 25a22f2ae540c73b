//! The digits of a fraction of a second.

ghost use Rattle.std.specs.Prelude.{◌≡◌, ◌+◌, ◌≤◌, ℕ, length, take};
ghost use Rattle.timefd_lang_component.specs.Texts.{at_least_one, filled, subsecond, trimmed};
ghost use Rattle.timefd_date_format.specs.Appends.{IsAppended};

use crate::append::{append_bytes, append_four};
use timefd_modifier::{Padding, SubsecondDigits};

/// Appends those digits of a number of nanoseconds that are shown.
#[inline(always)]
#[tactic(auto, using(crate::proofs::AppendLemmas::cut))]
pub(crate) fn append_fraction(
    digits: SubsecondDigits,
    nanosecond: u32,
    room: &mut [u8],
    at: usize,
) -> usize
    requires fits { nanosecond ≤ 999999999 }
    requires there { at + 9 ≤ length room.old }
    ensures { IsAppended (subsecond digits nanosecond) room.old at room.new result }
{
    let end = append_nine(nanosecond, room, at);
    at + digits_shown(digits, &room[at..end])
}

/// Appends the nine digits of a number.
#[inline(always)]
#[tactic(auto, using(crate::proofs::FilledLemmas::nine_appended))]
fn append_nine(number: u32, room: &mut [u8], at: usize) -> usize
    requires fits { number ≤ 999999999 }
    requires there { at + 9 ≤ length room.old }
    ensures { IsAppended (filled Padding.Zero 9 number) room.old at room.new result }
{
    let front = number / 10_000;
    let first = append_bytes(&[b'0' + (front / 10_000) as u8], room, at);
    let middle = append_four(front % 10_000, room, first);
    append_four(number % 10_000, room, middle)
}

/// How many of the nine digits are shown.
#[inline(always)]
pub(crate) fn digits_shown(digits: SubsecondDigits, nine: &[u8]) -> usize
    requires { length nine.now ≡ 9 }
    ensures within { result ≤ 9 }
    ensures digits { (n : ℕ) → nine.now ≡ filled Padding.Zero 9 n
        → take result nine.now ≡ subsecond digits n }
{
    match digits {
        SubsecondDigits::One => 1,
        SubsecondDigits::Two => 2,
        SubsecondDigits::Three => 3,
        SubsecondDigits::Four => 4,
        SubsecondDigits::Five => 5,
        SubsecondDigits::Six => 6,
        SubsecondDigits::Seven => 7,
        SubsecondDigits::Eight => 8,
        SubsecondDigits::Nine => 9,
        SubsecondDigits::OneOrMore => fewest(nine),
    }
}

/// How many digits remain without the zeros at the end, at least one.
#[inline(always)]
#[tactic(auto, using(crate::proofs::FractionLemmas::one_left))]
fn fewest(nine: &[u8]) -> usize
    requires { length nine.now ≡ 9 }
    ensures some { 1 ≤ result }
    ensures within { result ≤ 9 }
    ensures digits { take result nine.now ≡ at_least_one (trimmed nine.now) }
{
    let mut len = 9;
    'zeros: while len > 1 && nine[len - 1] == b'0' {
        len -= 1;
    }
    len
}
