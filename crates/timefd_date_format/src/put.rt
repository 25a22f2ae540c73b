//! Texts, put in front of what is already written at the end of a buffer.

ghost use Rattle.std.specs.Prelude.{◌≤◌, ◌<◌, ◌-◌, ◌/◌, ◌%◌, ◌++◌, length, replicate};
ghost use Rattle.std.specs.Fmt.{decimal};
ghost use Rattle.timefd_lang_component.specs.Texts.{filled};
ghost use Rattle.timefd_date_format.specs.Puts as spec;
ghost use Rattle.timefd_date_format.specs.Puts.{Puts};

use crate::digits::{pair, put_decimal};
use timefd_modifier::Padding;

/// Puts a text directly in front of `end`, and returns the position where it begins. `None` if there is no
/// room.
pub(crate) fn put(buffer: &mut [u8], end: usize, text: &[u8]) -> Option<usize>
    requires { end ≤ length buffer.old }
    ensures { Puts text.now buffer.old end buffer.new result }
{
    if text.len() > end {
        return None;
    }
    let at = end - text.len();
    buffer[at..end].copy_from_slice(text);
    Some(at)
}

/// Puts `count` equal bytes.
fn put_fill(buffer: &mut [u8], end: usize, count: usize, byte: u8) -> Option<usize>
    requires { end ≤ length buffer.old }
    ensures { Puts (replicate count byte) buffer.old end buffer.new result }
{
    if count > end {
        return None;
    }
    let at = end - count;
    buffer[at..end].fill(byte);
    Some(at)
}

/// Puts a number, padded on the left to a width.
pub(crate) fn put_number(
    buffer: &mut [u8],
    end: usize,
    padding: Padding,
    width: usize,
    number: u128,
) -> Option<usize>
    requires { end ≤ length buffer.old }
    ensures { Puts (filled padding width number) buffer.old end buffer.new result }
{
    match padding {
        Padding::Zero => put_zeroed(buffer, end, width, number),
        Padding::Space => put_filled(buffer, end, b' ', width, number),
        Padding::None => put_decimal(buffer, end, number),
    }
}

/// Puts a number, padded with zeros. Most numbers have two digits, and most years four.
#[tactic(auto, using(crate::proofs::DigitLemmas::two_filled, crate::proofs::FilledLemmas::four))]
fn put_zeroed(buffer: &mut [u8], end: usize, width: usize, number: u128) -> Option<usize>
    requires { end ≤ length buffer.old }
    ensures { Puts (filled Padding.Zero width number) buffer.old end buffer.new result }
{
    if width == 2 && number < 100 {
        return put(buffer, end, pair(number as usize));
    }
    if width == 4 && number < 10_000 {
        return put_pairs(buffer, end, number as usize);
    }
    put_filled(buffer, end, b'0', width, number)
}

/// Puts the four digits of a number.
fn put_pairs(buffer: &mut [u8], end: usize, number: usize) -> Option<usize>
    requires end { end ≤ length buffer.old }
    requires short { number < 10000 }
    ensures { Puts (spec.pair (number / 100) ++ spec.pair (number % 100)) buffer.old end buffer.new
        result }
{
    let at = put(buffer, end, pair(number % 100))?;
    put(buffer, at, pair(number / 100))
}

/// Puts a number, padded with a byte.
fn put_filled(buffer: &mut [u8], end: usize, fill: u8, width: usize, number: u128) -> Option<usize>
    requires { end ≤ length buffer.old }
    ensures { Puts (replicate (width - length (decimal number)) fill ++ decimal number) buffer.old end
        buffer.new result }
{
    let at = put_decimal(buffer, end, number)?;
    let missing = width.saturating_sub(end - at);
    if missing == 0 {
        return Some(at);
    }
    put_fill(buffer, at, missing, fill)
}
