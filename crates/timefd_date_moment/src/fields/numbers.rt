//! Numbers at the start of a text.

ghost use Rattle.std.specs.Prelude.{◌≡◌, ◌≤◌, IfSome, length};
ghost use Rattle.timefd_date_moment.specs.Fields.Numbers as spec;
ghost use Rattle.timefd_date_moment.specs.Fields.Rules.{IsForm};

use crate::fields::digits::{digits, leading_spaces};
use crate::fields::fields::Signed;
use crate::fields::rule::NumberForm;
use timefd_modifier::Padding;

/// A number that is padded to a width, or not at all, of at most `most` digits, and how many bytes it takes.
pub(crate) fn padded(
    text: &[u8],
    padding: Padding,
    width: usize,
    most: usize,
) -> Option<(u128, usize)>
    requires some { 1 ≤ width }
    requires width { width ≤ most }
    requires most { most ≤ 23 }
    ensures value { result ≡ spec.padded padding width most text.now }
    ensures within { IfSome result (λ r. r.1 ≤ length text.now) }
{
    match padding {
        Padding::Zero => digits(text, width, most),
        Padding::None => digits(text, 1, most),
        Padding::Space => after_spaces(text, width, most),
    }
}

#[tactic(auto, using(crate::proofs::FieldsLemmas::DigitLemmas::spaces_within))]
fn after_spaces(text: &[u8], width: usize, most: usize) -> Option<(u128, usize)>
    requires some { 1 ≤ width }
    requires width { width ≤ most }
    requires most { most ≤ 23 }
    ensures value { result ≡ spec.padded Padding.Space width most text.now }
    ensures within { IfSome result (λ r. r.1 ≤ length text.now) }
{
    let spaces = leading_spaces(text, width - 1);
    let left = width - spaces;
    let most = if spaces == 0 { most } else { left };
    match digits(&text[spaces..], left, most) {
        Some((value, len)) => Some((value, spaces + len)),
        None => None,
    }
}

/// The number that was found, if it is in the range.
pub(crate) fn within(
    found: Option<(u128, usize)>,
    lowest: u128,
    highest: u128,
) -> Option<(u128, usize)>
    ensures { result ≡ spec.within lowest highest found }
{
    match found {
        Some((value, len)) => {
            if lowest <= value && value <= highest {
                Some((value, len))
            } else {
                None
            }
        }
        None => None,
    }
}

/// The sign at the start: whether it is a minus. `None` if there is no sign.
fn sign_in(text: &[u8]) -> Option<bool>
    ensures sign { result ≡ spec.sign_in text.now }
    ensures there { IfSome result (λ is_negative. 1 ≤ length text.now) }
{
    match text.first() {
        Some(b'-') => Some(true),
        Some(b'+') => Some(false),
        _ => None,
    }
}

/// A number with its sign, and how many bytes it takes. The sign may be missing unless it is mandatory.
#[inline(always)]
pub(crate) fn signed(text: &[u8], is_mandatory: bool, form: NumberForm) -> Option<(Signed, usize)>
    requires { IsForm form }
    ensures value { result ≡ spec.signed is_mandatory form text.now }
    ensures within { IfSome result (λ r. r.1 ≤ length text.now) }
{
    match sign_in(text) {
        Some(is_negative) => {
            let found = padded(&text[1..], form.padding, form.width, form.most_signed);
            match within(found, 0, form.greatest) {
                Some((magnitude, len)) => Some((
                    Signed {
                        is_negative,
                        magnitude,
                    },
                    1 + len,
                )),
                None => None,
            }
        }
        None => unsigned(text, is_mandatory, form),
    }
}

fn unsigned(text: &[u8], is_mandatory: bool, form: NumberForm) -> Option<(Signed, usize)>
    requires { IsForm form }
    ensures value { result ≡ spec.signed_by None is_mandatory form text.now }
    ensures within { IfSome result (λ r. r.1 ≤ length text.now) }
{
    if is_mandatory {
        return None;
    }
    let found = padded(text, form.padding, form.width, form.most);
    match within(found, 0, form.greatest) {
        Some((magnitude, len)) => Some((
            Signed {
                is_negative: false,
                magnitude,
            },
            len,
        )),
        None => None,
    }
}
