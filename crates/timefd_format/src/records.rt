//! Records of comma-separated values, read one after another.

ghost use Rattle.std.specs.Prelude.{◌≡◌, IfErr, IfOk};
ghost use Rattle.timefd_format.specs.Failures.{IsSourceAfterRecord};
ghost use Rattle.timefd_format.specs.Records as spec;
ghost use Rattle.timefd_format.specs.Records.{IsRecordRead};
ghost use Rattle.timefd_format.specs.TableReports.{CountsLines};

use crate::lines::{LineRead, read_more};
use crate::outcome::RunError;
use crate::quoting::FieldQuoting;
use timefd_bin_streams::BufferedSource;

/// What reading a record came to.
#[derive(Clone, Copy)]
pub enum RecordRead {
    /// One more record, of this many lines.
    Record(u64),
    /// The rest of the input, because its quotes aren't closed.
    Open,
    /// The end of the input.
    End,
    /// The read failed.
    Failed,
}

/// Replaces these bytes with one more record, with its newline. An `Err` says that memory ran out.
#[tactic(auto, using(crate::proofs::RecordLemmas::starts, crate::proofs::RecordLemmas::line_more, crate::proofs::RecordLemmas::row_done, crate::proofs::RecordLemmas::row_ended, crate::proofs::RecordLemmas::end_counted, crate::proofs::RecordLemmas::line_counted, crate::proofs::RecordCountLemmas::none_counted, crate::proofs::RecordCountLemmas::row_counted, crate::proofs::RecordCountLemmas::rest_counted))]
pub fn read_record<R: BufferedSource>(
    reader: &mut R,
    row: &mut Vec<u8>,
) -> Result<RecordRead, RunError>
    ensures read { IfOk result (IsRecordRead (R.remaining reader.old) (R.remaining reader.new)
        row.new.items) }
    ensures lines { IfOk result (CountsLines (R.remaining reader.old) row.new.items (R.remaining reader.new)) }
    ensures source { IfOk result (IsSourceAfterRecord (R.calls_left reader.old) (R.calls_left reader.new)
        (R.has_failed reader.new)) }
    ensures memory { IfErr result (λ error. error ≡ RunError.Memory) }
{
    row.clear();
    let mut quoting = FieldQuoting::Start;
    let mut count: u64 = 0;
    'lines: loop {
        count = count.saturating_add(1);
        let from = row.len();
        match read_more(reader, row)? {
            LineRead::Line => {
                quoting = quoting.after_all(&row[from..]);
                if !quoting.is_inside() {
                    return Ok(RecordRead::Record(count));
                }
            }
            LineRead::End => return Ok(at_end(row, quoting)),
            LineRead::Failed => return Ok(RecordRead::Failed),
        }
    }
}

// What the end of the input means after these bytes of a record.
fn at_end(row: &[u8], quoting: FieldQuoting) -> RecordRead
    ensures { result ≡ spec.at_end row.now quoting }
{
    if row.is_empty() {
        RecordRead::End
    } else if quoting.is_inside() {
        RecordRead::Open
    } else {
        RecordRead::Record(1)
    }
}
