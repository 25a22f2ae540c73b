//! Numbers with a fixed count of hexadecimal digits.

ghost use Rattle.std.specs.Prelude.{◌≡◌, ◌≤◌, length, MatchOption, Some, ⊤};
ghost use Rattle.timefd_lint_scan.specs.Keys.Escapes.{numbered_any};
ghost use Rattle.timefd_lint_scan.specs.Keys.Escapes as spec;

use crate::number::{hex_digit, next_value};

/// A number, and what follows it.
#[derive(Clone, Copy)]
pub struct ReadNumber<'a> {
    pub value: u32,
    pub rest: &'a [u8],
}

fn with_rest(value: Option<u32>, rest: &[u8]) -> Option<ReadNumber<'_>>
    requires { MatchOption value ⊤ (λ value. value ≤ 1114111) }
    ensures number { numbered_any result ≡ spec.with_rest value rest.now }
    ensures within { MatchOption result ⊤ (λ number. length number.rest.now ≤ length rest.now) }
    ensures small { MatchOption result ⊤ (λ number. number.value ≤ 1114111) }
{
    match value {
        Some(value) => Some(ReadNumber { value, rest }),
        None => None,
    }
}

/// The number of `count` hexadecimal digits that a text begins with; `None` if it has fewer digits, or
/// if the number is greater than every code point.
pub fn number_of(count: usize, text: &[u8]) -> Option<ReadNumber<'_>>
    ensures number { numbered_any result ≡ spec.number count (Some 0) text.now }
    ensures within { MatchOption result ⊤ (λ number. length number.rest.now ≤ length text.now) }
    ensures small { MatchOption result ⊤ (λ number. number.value ≤ 1114111) }
{
    let mut value = Some(0);
    let mut left = count;
    let mut rest = text;
    'digits: while left > 0 {
        let [byte, after @ ..] = rest else {
            return None;
        };
        value = next_value(value, hex_digit(*byte));
        left -= 1;
        rest = after;
    }
    with_rest(value, rest)
}
