//! How many items a text of strftime has, without making them.

ghost use Rattle.std.specs.Prelude.{◌≡◌, ◌∷◌, List, IfOk, MatchResult, length};
ghost use Rattle.std.specs.Result.{IfErr};
ghost use Rattle.timefd_lang_component.specs.Tree.{Tree};
ghost use Rattle.timefd_language.specs.declared.strftime.text.PieceStart.TheVariants.{Literal};
ghost use Rattle.timefd_language.specs.Strftime.{SpellsStrftime, StrftimeFaultOf, percent};
ghost use Rattle.timefd_lang_fault.specs.RuleKinds.{rule_kind};
ghost use Rattle.timefd_lang_fault.specs.BorrowedFaults.{HasShortWords, to_borrowed_fault};
ghost use Rattle.timefd_lang_fault.specs.Placed.{IsPlaced};
ghost use Rattle.timefd_language.specs.declared.description_version.Language.TheVariants.{Strftime};
ghost use Rattle.timefd_language.specs.Spans.{IsSpanned};
ghost use Rattle.timefd_language.specs.Directives.StrftimeReading.{BeginsPiece, HasItems, IsStrftimeFaultAt, IsStrftimeFaultIn, LeadsTo};

use crate::strftime::directive::{cut_short, unknown};
use crate::strftime::letter::letter_of;
use crate::strftime::text::{PieceStart, cut_flag, piece_start_of};
use crate::text::{Class, cut, first_len, tail};
use timefd_lang_fault::BorrowedFault;
use timefd_lang_fault::read_error::Fault;

/// How many items a text of strftime has. It takes no memory. This call is this port's own.
///
/// The error is the fault of the text.
pub fn count_strftime<'a>(s: &'a str) -> Result<usize, BorrowedFault<'a>>
    ensures found { IfOk result (λ n. (list : List Tree) × SpellsStrftime s.now list
        × (n ≡ length list)) }
    ensures fault { IfErr result (λ f. StrftimeFaultOf s.now (to_borrowed_fault f)) }

    // The fault's index lies in the text or at its end, between two characters. The words that it
    // quotes are short, so that its sentence can be written.
    ensures position { IfErr result (λ f. IsPlaced s.now (to_borrowed_fault f)) }
    ensures words { IfErr result (λ f. HasShortWords (rule_kind f.rule)) }

    // The fault ends after the character at fault.
    ensures span { IfErr result (IsSpanned Strftime s.now) }
{
    match count_of(s) {
        Ok(count) => Ok(count),
        Err(fault) => Err(BorrowedFault::of(fault, s.len())),
    }
}

/// How many items the text has, or its fault.
fn count_of<'a>(text: &'a str) -> Result<usize, Fault<'a>>
    ensures { MatchResult result (HasItems text.now) (IsStrftimeFaultIn text.now) }
{
    let mut count = 0;
    let mut rest = text;
    'pieces: loop {
        let unread = match piece_start_of(rest) {
            PieceStart::End => return Ok(count),
            PieceStart::Directive(after) => after_directive(after)?,
            PieceStart::Literal => after_run(rest),
        };
        rest = unread;
        count += 1;
    }
}

/// What follows a directive. `after` is the text after its `%`.
#[inline(always)]
pub fn after_directive<'a>(after: &'a str) -> Result<&'a str, Fault<'a>>
    ensures { MatchResult result (λ rest. LeadsTo (percent ∷ after.now) rest.now)
        (IsStrftimeFaultAt (percent ∷ after.now)) }
{
    let (padding, text) = cut_flag(after);
    let [byte, ..] = text.as_bytes() else {
        return Err(cut_short(padding));
    };
    match letter_of(*byte) {
        Some(_) => Ok(tail(text)),
        None => Err(Fault {
            rule: unknown(text),
            remaining: text.len(),
            len: first_len(text),
        }),
    }
}

/// What follows the literal before the first `%`.
#[inline(always)]
pub fn after_run(text: &str) -> &str
    requires { BeginsPiece Literal text.now }
    ensures { LeadsTo text.now result.now }
{
    cut(text, Class::Plain).1
}
