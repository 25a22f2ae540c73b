//! The field of a record that has no quotes.

ghost use Rattle.std.specs.Prelude.{◌≢◌, All, IfSome};
ghost use Rattle.timefd_format.specs.Fields.{IsCell};
ghost use Rattle.timefd_format.specs.PlainCells.{IsFieldLen};
ghost use Rattle.timefd_format.specs.RecordBatches.{IsPlainRecord};

use crate::frame::Cell;
use memchr::memchr;
use timefd_lint_rewrite::without_newline;

/// The field of a record after this many others, with what is before and after it. `None` if the record has no
/// more fields than those.
#[tactic(auto, using(crate::proofs::PlainCellLemmas::at_start, crate::proofs::PlainCellLemmas::plain_ahead, crate::proofs::PlainCellLemmas::ahead_fits, crate::proofs::PlainCellLemmas::cell_fits, crate::proofs::PlainCellLemmas::cell_plain))]
pub fn plain_cell(count: usize, row: &[u8]) -> Option<Cell<'_>>
    requires { IsPlainRecord row.now }
    ensures cell { IfSome result (IsCell count row.now) }
    ensures plain { IfSome result (λ cell. All (λ b. b ≢ 34) cell.field.now) }
{
    let content = without_newline(row);
    let mut text = content;
    let mut left = count;
    'fields: while left > 0 {
        let at = memchr(b',', text)?;
        text = &text[at + 1..];
        left -= 1;
    }
    let len = field_len(text);
    let from = content.len() - text.len();
    Some(Cell {
        front: &row[..from],
        field: &text[..len],
        after: &row[from + len..],
    })
}

// How many bytes the first field has, if no quote is in this.
#[inline(always)]
#[tactic(auto, using(crate::proofs::PlainCellLemmas::up_to_comma, crate::proofs::PlainCellLemmas::up_to_end))]
fn field_len(text: &[u8]) -> usize
    requires { All (λ b. b ≢ 34) text.now }
    ensures { IsFieldLen text.now result }
{
    match memchr(b',', text) {
        Some(at) => at,
        None => text.len(),
    }
}
