//! Bytes without quotes: most fields are without them.

ghost use Rattle.memchr.specs.Find.{IsFirstByte, is_byte2};
ghost use Rattle.std.specs.Prelude.{◌≡◌, ◌≢◌, All, IfSome, Some, false};
ghost use Rattle.timefd_format.specs.Fields.{IsSplit};

use crate::fields::Split;
use memchr::{memchr, memchr2};

/// Whether there may be a quote in these bytes.
#[tactic(auto, using(crate::proofs::PlainLemmas::without_quote))]
pub fn has_quote(bytes: &[u8]) -> bool
    ensures { result ≡ false → All (λ b. b ≢ 34) bytes.now }
{
    match memchr(b'"', bytes) {
        Some(_) => true,
        None => false,
    }
}

/// The first field of a record, if there is no quote in front of its comma. `None` says nothing about the
/// record.
pub fn plain_field(row: &[u8]) -> Option<Split<'_>>
    ensures { IfSome result (IsSplit row.now) }
{
    match memchr2(b',', b'"', row) {
        Some(at) => field_before(row, at),
        None => Some(Split {
            field: row,
            rest: None,
        }),
    }
}

// The field in front of the first comma or quote, if that is a comma.
#[tactic(auto, using(crate::proofs::PlainLemmas::comma_within))]
fn field_before(row: &[u8], at: usize) -> Option<Split<'_>>
    requires first { IsFirstByte (is_byte2 44 34) row.now (Some at) }
    ensures { IfSome result (IsSplit row.now) }
{
    if row[at] != b',' {
        return None;
    }
    Some(Split {
        field: &row[..at],
        rest: Some(&row[at + 1..]),
    })
}
