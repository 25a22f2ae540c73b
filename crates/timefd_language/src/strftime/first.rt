//! What follows the first piece of a text of strftime.

ghost use Rattle.std.specs.Prelude.{◌≡◌, [], IfOk, MatchOption, MatchResult};
ghost use Rattle.std.specs.Result.{IfErr};
ghost use Rattle.timefd_lang_fault.specs.BorrowedFaults.{to_borrowed_fault};
ghost use Rattle.timefd_language.specs.Strftime.{StrftimeFaultOf};
ghost use Rattle.timefd_language.specs.declared.description_version.Language.TheVariants.{Strftime};
ghost use Rattle.timefd_language.specs.Spans.{IsSpanned};
ghost use Rattle.timefd_language.specs.Directives.StrftimeReading.{IsStrftimeFaultAt, LeadsTo};

use crate::strftime::count::{after_directive, after_run};
use crate::strftime::text::{PieceStart, piece_start_of};
use timefd_lang_fault::BorrowedFault;
use timefd_lang_fault::read_error::Fault;

/// What follows the first run or directive of a text of strftime; `None` for the empty text. It
/// takes no memory. `first_piece` of `timefd_parse` calls it.
///
/// The error is the fault of a text that begins with a `%` but not with a directive.
pub fn after_first_directive<'a>(s: &'a str) -> Result<Option<&'a str>, BorrowedFault<'a>>
    ensures found { IfOk result (λ rest. MatchOption rest (s.now ≡ [])
        (λ unread. LeadsTo s.now unread.now)) }
    ensures fault { IfErr result (λ f. StrftimeFaultOf s.now (to_borrowed_fault f)) }
    ensures span { IfErr result (IsSpanned Strftime s.now) }
{
    match after_first(s) {
        Ok(rest) => Ok(rest),
        Err(fault) => Err(BorrowedFault::of(fault, s.len())),
    }
}

fn after_first<'a>(text: &'a str) -> Result<Option<&'a str>, Fault<'a>>
    ensures { MatchResult result (λ rest. MatchOption rest (text.now ≡ [])
        (λ unread. LeadsTo text.now unread.now)) (IsStrftimeFaultAt text.now) }
{
    match piece_start_of(text) {
        PieceStart::End => Ok(None),
        PieceStart::Directive(after) => Ok(Some(after_directive(after)?)),
        PieceStart::Literal => Ok(Some(after_run(text))),
    }
}
