//! Decimal numbers, written backwards from the end of a buffer: two digits at a time.

ghost use Rattle.std.specs.Prelude.{◌≡◌, ◌≤◌, ◌<◌, length};
ghost use Rattle.std.specs.Fmt.{decimal};
ghost use Rattle.timefd_date_format.specs.Puts as spec;
ghost use Rattle.timefd_date_format.specs.Puts.{Puts};

use crate::put::put;

// The two digits of each number below 100.
const PAIRS: &[u8] = b"\
    00010203040506070809101112131415161718192021222324252627282930313233343536373839\
    40414243444546474849505152535455565758596061626364656667686970717273747576777879\
    8081828384858687888990919293949596979899";

/// The two digits of a number below 100.
#[tactic(auto, using(crate::proofs::DigitLemmas::pair_at))]
pub(crate) fn pair(number: usize) -> &'static [u8]
    requires { number < 100 }
    ensures { result.now ≡ spec.pair number }
{
    &PAIRS[2 * number..2 * number + 2]
}

/// Puts the digits of a number directly in front of `end`, and returns the position where they begin. `None`
/// if there is no room.
pub(crate) fn put_decimal(buffer: &mut [u8], end: usize, number: u128) -> Option<usize>
    requires { end ≤ length buffer.old }
    ensures { Puts (decimal number) buffer.old end buffer.new result }
{
    let mut left = number;
    let mut at = end;
    // Only the nanoseconds of an instant are this large.
    'pairs: while left > u64::MAX as u128 {
        at = put(buffer, at, pair((left % 100) as usize))?;
        left /= 100;
    }
    put_digits(buffer, at, left as u64)
}

fn put_digits(buffer: &mut [u8], end: usize, number: u64) -> Option<usize>
    requires { end ≤ length buffer.old }
    ensures { Puts (decimal number) buffer.old end buffer.new result }
{
    let mut left = number;
    let mut at = end;
    'pairs: while left >= 100 {
        at = put(buffer, at, pair((left % 100) as usize))?;
        left /= 100;
    }
    if left >= 10 {
        put(buffer, at, pair(left as usize))
    } else {
        put(buffer, at, &[b'0' + left as u8])
    }
}
