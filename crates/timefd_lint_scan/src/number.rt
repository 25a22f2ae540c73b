//! Code points in hexadecimal digits.

ghost use Rattle.std.specs.Prelude.{◌≡◌, ◌≤◌, ◌<◌, MatchOption, Some, ⊤};
ghost use Rattle.timefd_lint_scan.specs.Escapes as spec;

/// The value of a hexadecimal digit; `None` if the byte isn't one.
pub fn hex_digit(byte: u8) -> Option<u8>
    ensures value { result ≡ spec.hex_digit byte }
    ensures small { MatchOption result ⊤ (λ digit. digit < 16) }
{
    if b'0' <= byte && byte <= b'9' {
        Some(byte - b'0')
    } else if b'a' <= byte && byte <= b'f' {
        Some(byte - 87)
    } else if b'A' <= byte && byte <= b'F' {
        Some(byte - 55)
    } else {
        None
    }
}

fn joined(value: u32, digit: u8) -> Option<u32>
    requires value { value ≤ 1114111 }
    requires digit { digit < 16 }
    ensures value { result ≡ spec.next_value (Some value) (Some digit) }
    ensures small { MatchOption result ⊤ (λ value. value ≤ 1114111) }
{
    let next = value * 16 + u32::from(digit);
    if next <= 1_114_111 { Some(next) } else { None }
}

/// A number with one more digit; `None` if it is greater than every code point.
pub fn next_value(value: Option<u32>, digit: Option<u8>) -> Option<u32>
    requires value { MatchOption value ⊤ (λ value. value ≤ 1114111) }
    requires digit { MatchOption digit ⊤ (λ digit. digit < 16) }
    ensures value { result ≡ spec.next_value value digit }
    ensures small { MatchOption result ⊤ (λ value. value ≤ 1114111) }
{
    match value {
        None => None,
        Some(value) => match digit {
            None => None,
            Some(digit) => joined(value, digit),
        },
    }
}

/// The character with this number, if there is one.
#[tactic(auto, using(crate::proofs::ScalarLemmas::is_scalar_value))]
pub fn scalar_value(value: u32) -> Option<char>
    ensures { result ≡ spec.scalar_value value }
{
    char::from_u32(value)
}
