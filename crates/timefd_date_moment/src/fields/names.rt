//! Names at the start of a text.

ghost use Rattle.std.specs.Prelude.{◌≡◌, ◌≤◌, IfSome, IsTrue, length, map};
ghost use Rattle.timefd_date_moment.specs.Fields.Names as spec;

use crate::fields::rule::NameList;

/// The index of the first name of the list that the text begins with, and its length in bytes.
#[inline(never)]
pub(crate) fn leading_name(
    text: &[u8],
    names: NameList,
    is_case_sensitive: bool,
) -> Option<(usize, usize)>
    ensures value { result ≡ spec.name_from 0 is_case_sensitive (spec.listed names) text.now }
    ensures within { IfSome result (λ r. r.1 ≤ length text.now) }
    ensures position { IfSome result (λ r. r.0 ≤ 12) }
{
    first_of(text, listed(names), is_case_sensitive)
}

fn listed(names: NameList) -> &'static [&'static str]
    ensures names { map (λ name. name.now) result.now ≡ spec.listed names }
    ensures few { length result.now ≤ 12 }
{
    match names {
        NameList::ShortMonths => &[
            "Jan", "Feb", "Mar", "Apr", "May", "Jun", "Jul", "Aug", "Sep", "Oct", "Nov", "Dec",
        ],
        NameList::LongMonths => &[
            "January",
            "February",
            "March",
            "April",
            "May",
            "June",
            "July",
            "August",
            "September",
            "October",
            "November",
            "December",
        ],
        NameList::ShortWeekdays => &["Mon", "Tue", "Wed", "Thu", "Fri", "Sat", "Sun"],
        NameList::LongWeekdays => &[
            "Monday",
            "Tuesday",
            "Wednesday",
            "Thursday",
            "Friday",
            "Saturday",
            "Sunday",
        ],
        NameList::UpperPeriods => &["AM", "PM"],
        NameList::LowerPeriods => &["am", "pm"],
    }
}

#[tactic(auto, using(crate::proofs::FieldsLemmas::NameLemmas::name_next, crate::proofs::FieldsLemmas::NameLemmas::name_found))]
fn first_of(text: &[u8], names: &[&'static str], is_case_sensitive: bool) -> Option<(usize, usize)>
    ensures value { result ≡ spec.name_from 0 is_case_sensitive (map (λ name. name.now) names.now)
        text.now }
    ensures within { IfSome result (λ r. r.1 ≤ length text.now) }
    ensures position { IfSome result (λ r. r.0 ≤ length names.now) }
{
    let mut position = 0;
    'names: while position < names.len() {
        let name = names[position].as_bytes();
        if begins(text, name, is_case_sensitive) {
            return Some((position, name.len()));
        }
        position += 1;
    }
    None
}

/// Whether the text begins with the name.
#[tactic(auto, using(crate::proofs::FieldsLemmas::NameLemmas::too_short, crate::proofs::FieldsLemmas::NameLemmas::same_next, crate::proofs::FieldsLemmas::NameLemmas::other_byte))]
fn begins(text: &[u8], name: &[u8], is_case_sensitive: bool) -> bool
    ensures value { result ≡ spec.begins is_case_sensitive name.now text.now }
    ensures within { IsTrue result → length name.now ≤ length text.now }
{
    if text.len() < name.len() {
        return false;
    }
    let mut at = 0;
    'bytes: while at < name.len() {
        if !same_byte(name[at], text[at], is_case_sensitive) {
            return false;
        }
        at += 1;
    }
    true
}

fn same_byte(a: u8, b: u8, is_case_sensitive: bool) -> bool
    ensures { result ≡ spec.same_byte is_case_sensitive a b }
{
    if is_case_sensitive {
        a == b
    } else {
        a.eq_ignore_ascii_case(&b)
    }
}
