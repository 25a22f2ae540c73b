//! The fields of a record of comma-separated values.

ghost use Rattle.std.specs.Prelude.{◌≡◌, None, IfOk, IfSome};
ghost use Rattle.timefd_lint_rewrite.specs.Lines as lines;
ghost use Rattle.timefd_format.specs.Fields as spec;
ghost use Rattle.timefd_format.specs.Fields.{IsCell, IsSplit};

use crate::fast::plain::{has_quote, plain_field};
use crate::frame::Cell;
use crate::quoting::FieldQuoting;
use std::alloc::AllocError;
use timefd_lint_rewrite::without_newline;

/// The first field of a record, and what follows its comma, if it has one.
#[derive(Clone, Copy)]
pub struct Split<'a> {
    /// The field, byte for byte.
    pub field: &'a [u8],
    /// What follows the comma: the other fields.
    pub rest: Option<&'a [u8]>,
}

/// The first field of a record. The record comes without its newline.
pub fn split_field(row: &[u8]) -> Split<'_>
    ensures { IsSplit row.now result }
{
    match plain_field(row) {
        Some(split) => split,
        None => split_by_bytes(row),
    }
}

// The first field, found byte by byte.
#[tactic(auto, using(crate::proofs::FieldLemmas::begins, crate::proofs::FieldLemmas::in_fits, crate::proofs::FieldLemmas::goes_on, crate::proofs::FieldLemmas::found, crate::proofs::FieldLemmas::ends))]
fn split_by_bytes(row: &[u8]) -> Split<'_>
    ensures { IsSplit row.now result }
{
    let mut quoting = FieldQuoting::Start;
    let mut rest = row;
    'bytes: while let [byte, more @ ..] = rest {
        if quoting.ends_field(*byte) {
            let len = row.len() - rest.len();
            return Split {
                field: &row[..len],
                rest: Some(more),
            };
        }
        quoting = quoting.after(*byte);
        rest = more;
    }
    Split {
        field: row,
        rest: None,
    }
}

/// The field of a record after this many others, with what is before and after it. `None` if the
/// record has no more fields than those.
#[tactic(auto, using(crate::proofs::FieldLemmas::first_left, crate::proofs::FieldLemmas::next_left, crate::proofs::FieldLemmas::cell_found, crate::proofs::FieldLemmas::none_left, crate::proofs::FieldLemmas::left_fits, crate::proofs::FieldLemmas::field_fits, crate::proofs::FieldLemmas::next_shorter))]
pub fn cell_after(count: usize, row: &[u8]) -> Option<Cell<'_>>
    ensures some { IfSome result (IsCell count row.now) }
    ensures none { result ≡ None
        → spec.field_after count (spec.fields (lines.without_newline row.now)) ≡ None }
{
    let content = without_newline(row);
    let mut left = count;
    let mut more = Some(content);
    'fields: while let Some(text) = more {
        let split = split_field(text);
        if left == 0 {
            let from = content.len() - text.len();
            let to = from + split.field.len();
            return Some(Cell {
                front: &row[..from],
                field: split.field,
                after: &row[to..],
            });
        }
        left -= 1;
        more = split.rest;
    }
    None
}

/// Replaces these bytes with the text of a field, without its quotes. An `Err` says that memory ran
/// out.
#[tactic(auto, using(crate::proofs::PlainLemmas::text_copied))]
pub fn text_in(field: &[u8], bytes: &mut Vec<u8>) -> Result<(), AllocError>
    ensures { IfOk result (λ _. bytes.new.items ≡ spec.text_of field.now) }
{
    bytes.clear();
    if !has_quote(field) {
        bytes.extend_from_slice(field)?;
        return Ok(());
    }
    let mut quoting = FieldQuoting::Start;
    let mut rest = field;
    'bytes: while let [byte, more @ ..] = rest {
        if quoting.shows(*byte) {
            bytes.push(*byte)?;
        }
        quoting = quoting.after(*byte);
        rest = more;
    }
    Ok(())
}
