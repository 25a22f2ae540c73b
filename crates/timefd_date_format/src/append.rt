//! Appends digits, signs and bytes to a text in a buffer.

ghost use Rattle.std.specs.Prelude.{◌≡◌, ◌+◌, ◌/◌, ◌%◌, ◌<◌, ◌≤◌, ◌++◌, ◌∷◌, [], length};
ghost use Rattle.timefd_date_format.specs.Appends.{IsAppended};
ghost use Rattle.timefd_date_format.specs.Fields as fields;
ghost use Rattle.timefd_date_format.specs.Fields.{sign_text};
ghost use Rattle.timefd_date_format.specs.Puts as spec;

use crate::digits::pair;

/// Appends bytes, and returns the position after them.
#[inline(always)]
#[tactic(auto, using(crate::proofs::AppendLemmas::copied))]
pub(crate) fn append_bytes(bytes: &[u8], room: &mut [u8], at: usize) -> usize
    requires { at + length bytes.now ≤ length room.old }
    ensures { IsAppended bytes.now room.old at room.new result }
{
    let end = at + bytes.len();
    room[at..end].copy_from_slice(bytes);
    end
}

/// The two digits of a number below 100, as a pair of bytes.
#[inline(always)]
fn both_digits(number: u32) -> (u8, u8)
    requires { number < 100 }
    ensures tens { result.0 ≡ 48 + number / 10 }
    ensures ones { result.1 ≡ 48 + number % 10 }
{
    let digits = pair(number as usize);
    (digits[0], digits[1])
}

/// Appends two bytes.
#[inline(always)]
pub(crate) fn append_both(first: u8, second: u8, room: &mut [u8], at: usize) -> usize
    requires { at + 2 ≤ length room.old }
    ensures { IsAppended (first ∷ second ∷ []) room.old at room.new result }
{
    room[at] = first;
    room[at + 1] = second;
    at + 2
}

/// Appends the two digits of a number.
#[inline(always)]
pub(crate) fn append_two(number: u32, room: &mut [u8], at: usize) -> usize
    requires short { number < 100 }
    requires there { at + 2 ≤ length room.old }
    ensures { IsAppended (spec.pair number) room.old at room.new result }
{
    let (tens, ones) = both_digits(number);
    append_both(tens, ones, room, at)
}

/// Appends the four digits of a number.
#[inline(always)]
#[tactic(auto, using(crate::proofs::AppendLemmas::both_appended))]
pub(crate) fn append_four(number: u32, room: &mut [u8], at: usize) -> usize
    requires short { number < 10000 }
    requires there { at + 4 ≤ length room.old }
    ensures { IsAppended (spec.pair (number / 100) ++ spec.pair (number % 100)) room.old at room.new
        result }
{
    let middle = append_two(number / 100, room, at);
    append_two(number % 100, room, middle)
}

/// Appends a sign, if there is one. Most numbers have none.
#[inline(always)]
#[tactic(auto, using(crate::proofs::AppendLemmas::nothing_appended))]
pub(crate) fn append_sign(is_negative: bool, has_plus: bool, room: &mut [u8], at: usize) -> usize
    requires { at + 1 ≤ length room.old }
    ensures { IsAppended (sign_text (fields.sign_of is_negative has_plus)) room.old at room.new
        result }
{
    if is_negative {
        return append_bytes(b"-", room, at);
    }
    if has_plus {
        return append_bytes(b"+", room, at);
    }
    at
}
