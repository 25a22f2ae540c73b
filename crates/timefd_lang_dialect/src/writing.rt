//! The row whose text of version 3 a description begins with.

ghost use Rattle.std.specs.Prelude.{◌≡◌, MatchOption, None, true};
ghost use Rattle.timefd_lang_dialect.specs.Best as spec;
ghost use Rattle.timefd_lang_dialect.specs.Rows.{entries, entry_of, found_entry, meaning_of};
ghost use Rattle.timefd_lang_dialect.specs.Tables.{groups_of};

use crate::dialect::Dialect;
use crate::row::{Row, Verdict};

/// The row with the longest text that the description begins with. Of several rows with this text it
/// is the one with the shortest directive after a `%`, or else the first.
pub fn row_writing(dialect: Dialect, text: &str) -> Option<&'static Row>
    ensures chosen { found_entry result ≡ spec.chosen dialect text.now }
    ensures there { MatchOption result (spec.Lacks dialect text.now)
        (λ row. spec.writes (entry_of row.now) text.now ≡ true) }
{
    best_at(dialect, dialect.keys(), text)
}

/// The best of the rows that these bytes select.
fn best_at(dialect: Dialect, keys: &[u8], text: &str) -> Option<&'static Row>
    ensures { found_entry result ≡ spec.best_at None keys.now (groups_of dialect) text.now }
{
    let mut best = None;
    'keys: for at in 0..keys.len() {
        best = best_from(best, dialect.rows_at(keys[at]), text);
    }
    best
}

/// The best of this row and these rows.
fn best_from(best: Option<&'static Row>, rows: &'static [Row], text: &str) -> Option<&'static Row>
    ensures { found_entry result ≡ spec.best_from (found_entry best.entry) (entries rows.now) text.now }
{
    let mut best = best;
    'rows: for at in 0..rows.len() {
        best = best_with(best, &rows[at], text);
    }
    best
}

/// The row, if the description begins with its text and it is better than the best so far;
/// otherwise the best so far.
fn best_with(best: Option<&'static Row>, row: &'static Row, text: &str) -> Option<&'static Row>
    ensures { found_entry result ≡ spec.best_with (found_entry best.entry) (entry_of row.now) text.now }
{
    if !writes(row, text) {
        return best;
    }
    match best {
        None => Some(row),
        Some(other) => if is_better(row, other) {
            Some(row)
        } else {
            Some(other)
        },
    }
}

/// Whether the row's text of version 3 is longer, or is as long and has a shorter directive.
fn is_better(row: &Row, best: &Row) -> bool
    ensures { result ≡ spec.is_better (entry_of row.now) (entry_of best.now) }
{
    let own = written_of(row.verdict).len();
    let other = written_of(best.verdict).len();
    other < own || other == own && is_shorter(row.text.as_bytes(), best.text.as_bytes())
}

/// Whether a directive begins with a `%`, and is shorter than the other.
fn is_shorter(directive: &[u8], other: &[u8]) -> bool
    ensures { result ≡ spec.is_shorter directive.now other.now }
{
    match directive {
        [b'%', ..] => directive.len() < other.len(),
        _ => false,
    }
}

/// The text of version 3 of a row, or nothing if the row is refused.
pub fn written_of(verdict: Verdict) -> &'static str
    ensures { result.now ≡ spec.own_text (meaning_of verdict) }
{
    match verdict {
        Verdict::Written(written, _) => written,
        Verdict::Refused(_) => "",
    }
}

/// Whether the description begins with the row's text.
fn writes(row: &Row, text: &str) -> bool
    ensures { result ≡ spec.writes (entry_of row.now) text.now }
{
    let written = written_of(row.verdict).as_bytes();
    0 < written.len() && text.as_bytes().starts_with(written)
}
