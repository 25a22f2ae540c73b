//! Runs of digits and of spaces at the start of a text.

ghost use Rattle.std.specs.Prelude.{◌≡◌, ◌≤◌, ◌<◌, ◌^◌, IfSome, None, Some, length, min, take};
ghost use Rattle.std.specs.Char.{is_ascii_digit};
ghost use Rattle.std.specs.List.{prefix_len};
ghost use Rattle.std.specs.Str.Parse.{digits_value};
ghost use Rattle.timefd_date_moment.specs.Fields.Numbers as spec;
ghost use Rattle.timefd_date_moment.specs.Fields.Numbers.{IsDigitAt, IsSpaceAt, is_space};

/// The digits at the start of the text, at most `most` of them: their value, and how many they are.
fn leading_digits(text: &[u8], most: usize) -> (u128, usize)
    requires { most ≤ 23 }
    ensures count { result.1 ≡ min most (prefix_len is_ascii_digit text.now) }
    ensures value { result.0 ≡ digits_value 10 (take result.1 text.now) }
    ensures small { result.0 < 10 ^ 23 }
{
    let mut value = 0;
    let mut count = 0;
    'digits: while count < most {
        match digit_at(text, count) {
            Some(digit) => {
                value = value * 10 + digit as u128;
                count += 1;
            }
            None => return (value, count),
        }
    }
    (value, count)
}

/// The digit at a position.
#[inline(always)]
#[tactic(auto, using(crate::proofs::FieldsLemmas::DigitLemmas::digit_found, crate::proofs::FieldsLemmas::DigitLemmas::digit_lacks, crate::proofs::FieldsLemmas::DigitLemmas::digit_ends))]
fn digit_at(text: &[u8], at: usize) -> Option<u8>
    ensures { IsDigitAt text.now at result }
{
    if at >= text.len() {
        return None;
    }
    let byte = text[at];
    if byte.is_ascii_digit() {
        Some(byte - b'0')
    } else {
        None
    }
}

/// The value of the two digits at the start.
#[inline(always)]
#[tactic(auto, using(crate::proofs::FieldsLemmas::DigitLemmas::two_found))]
pub(crate) fn two_digits(text: &[u8]) -> Option<u16>
    ensures value { IfSome result (λ number. spec.digits 2 2 text.now ≡ Some (number, 2)) }
    ensures within { IfSome result (λ number. 2 ≤ length text.now) }
{
    if text.len() < 2 {
        return None;
    }
    let tens = digit_at(text, 0)? as u16;
    let ones = digit_at(text, 1)? as u16;
    Some(tens * 10 + ones)
}

/// The value of the four digits at the start.
#[inline(always)]
#[tactic(auto, using(crate::proofs::FieldsLemmas::DigitLemmas::four_found, crate::proofs::FieldsLemmas::DigitLemmas::digit_unsigned))]
pub(crate) fn four_digits(text: &[u8]) -> Option<u16>
    ensures value { IfSome result (λ number. spec.digits 4 4 text.now ≡ Some (number, 4)) }
    ensures within { IfSome result (λ number. 4 ≤ length text.now) }
    ensures unsigned { IfSome result (λ number. spec.sign_in text.now ≡ None) }
{
    if text.len() < 4 {
        return None;
    }
    let thousands = digit_at(text, 0)? as u16;
    let hundreds = digit_at(text, 1)? as u16;
    let tens = digit_at(text, 2)? as u16;
    let ones = digit_at(text, 3)? as u16;
    Some(((thousands * 10 + hundreds) * 10 + tens) * 10 + ones)
}

/// The value of the digits at the start, from `least` to `most` of them, and how many they are.
#[tactic(auto, using(crate::proofs::FieldsLemmas::DigitLemmas::digits_within))]
pub(crate) fn digits(text: &[u8], least: usize, most: usize) -> Option<(u128, usize)>
    requires { most ≤ 23 }
    ensures value { result ≡ spec.digits least most text.now }
    ensures within { IfSome result (λ r. r.1 ≤ length text.now) }
    ensures small { IfSome result (λ r. r.0 < 10 ^ 23) }
{
    let (value, count) = leading_digits(text, most);
    if count < least {
        return None;
    }
    Some((value, count))
}

/// How many spaces are at the start, up to `most`.
pub(crate) fn leading_spaces(text: &[u8], most: usize) -> usize
    ensures { result ≡ min most (prefix_len is_space text.now) }
{
    let mut count = 0;
    'spaces: while count < most {
        if !is_space_at(text, count) {
            return count;
        }
        count += 1;
    }
    count
}

/// Whether there is a space at a position.
#[tactic(auto, using(crate::proofs::FieldsLemmas::DigitLemmas::space_is, crate::proofs::FieldsLemmas::DigitLemmas::space_ends))]
fn is_space_at(text: &[u8], at: usize) -> bool
    ensures { IsSpaceAt text.now at result }
{
    if at >= text.len() {
        return false;
    }
    text[at] == b' '
}
