//! The longest row at the front of a text.

ghost use Rattle.std.specs.Prelude.{◌≡◌, ◌<◌, IfSome, length, true};
ghost use Rattle.timefd_lang_dialect.specs.Dialects.{key_of, leading_of};
ghost use Rattle.timefd_lang_dialect.specs.Groups.{first_standing, rows_found};
ghost use Rattle.timefd_lang_dialect.specs.Rows as spec;
ghost use Rattle.timefd_lang_dialect.specs.Tables.{groups_of, rows_of};

use crate::dialect::Dialect;
use crate::row::{NotBefore, Row};

/// The longest row at the front of the text.
pub fn longest(dialect: Dialect, text: &str) -> Option<&'static Row>
    ensures row { spec.found_entry result ≡ spec.longest (rows_of dialect) text.now }
    ensures bytes { IfSome result (λ row. 0 < length row.now.text.now) }
    ensures stands { IfSome result (λ row. spec.stands (spec.entry_of row.now) text.now ≡ true) }
{
    first_of_both(dialect, text)
}

/// The first row at the front of the text: of those that a byte selects, or else of the others.
fn first_of_both(dialect: Dialect, text: &str) -> Option<&'static Row>
    ensures { spec.found_entry result ≡ spec.longest (rows_of dialect) text.now }
{
    match first(rows_at_front(dialect, text), text) {
        Some(row) => Some(row),
        None => first(dialect.leading().unknown_rows(), text),
    }
}

/// The rows that may be at the front of the text, the longest first.
fn rows_at_front(dialect: Dialect, text: &str) -> &'static [Row]
    ensures { spec.entries result.now ≡ rows_found (key_of (leading_of dialect) text.now)
        (groups_of dialect) }
{
    match dialect.leading().key(text.as_bytes()) {
        Some(byte) => dialect.rows_at(byte),
        None => &[],
    }
}

/// The first of the rows that is at the front of the text.
fn first(rows: &'static [Row], text: &str) -> Option<&'static Row>
    ensures { spec.found_entry result ≡ first_standing (spec.entries rows.now) text.now }
{
    'rows: for at in 0..rows.len() {
        let row = &rows[at];
        if stands(row, text) {
            return Some(row);
        }
    }
    None
}

/// Whether the row is at the front of the text.
fn stands(row: &Row, text: &str) -> bool
    ensures { result ≡ spec.stands (spec.entry_of row.now) text.now }
{
    let bytes = text.as_bytes();
    let own = row.text.as_bytes();
    bytes.starts_with(own) && may_follow(row.not_before, &bytes[own.len()..])
}

/// Whether a row counts when this follows it.
fn may_follow(not_before: NotBefore, rest: &[u8]) -> bool
    ensures { result ≡ spec.may_follow not_before rest.now }
{
    match not_before {
        NotBefore::Nothing => true,
        NotBefore::Lower => !begins_between(rest, b'a', b'z'),
        NotBefore::Digit => !begins_between(rest, b'0', b'9'),
    }
}

/// Whether the first byte is between two bounds, both included.
fn begins_between(rest: &[u8], low: u8, high: u8) -> bool
    ensures { result ≡ spec.begins_between low high rest.now }
{
    match rest {
        [first, ..] => low <= *first && *first <= high,
        [] => false,
    }
}
