//! The rules of a log on formats of other languages: what is refused, and traps.

ghost use Rattle.std.specs.Prelude.{◌≡◌, OnOk};
ghost use Rattle.timefd_lint_lsp.specs.Editor.Each.{Adds, AreOf};
ghost use Rattle.timefd_lint.specs.Rules as spec;
ghost use Rattle.timefd_lint.specs.Rules.{AreOtherRules, IsReasonRule, IsTrapRule};

use crate::rule::{LogRule, push_rule};
use std::alloc::AllocError;
use timefd_lang_dialect::{Reason, Trap};
use timefd_lint_warnings::dialects::all_reasons;

/// Appends the rules of what is refused, and of traps. A comma precedes each. An `Err` says that memory ran out.
pub fn push_other_rules(out: &mut Vec<u8>) -> Result<(), AllocError>
    ensures { OnOk result (Adds AreOtherRules out.old.items out.new.items) }
{
    push_reasons(out, all_reasons())?;
    push_traps(out, own_traps())
}

/// The traps without the one whose code a warning has too.
pub fn own_traps() -> &'static [Trap]
    ensures { result.now ≡ spec.own_traps }
{
    &[
        Trap::WeekYearBesideMonth,
        Trap::DayOfYearBesideMonth,
        Trap::MinuteBesideDay,
        Trap::SecondBeforeMinute,
        Trap::TwoLetterWeekday,
        Trap::WeekdayFromZero,
        Trap::Panic,
        Trap::YearWithoutCentury,
    ]
}

#[tactic(auto, using(timefd_lint_lsp::proofs::EditorLemmas::EachLemmas::at_first, timefd_lint_lsp::proofs::EditorLemmas::EachLemmas::at_last))]
fn push_reasons(out: &mut Vec<u8>, reasons: &[Reason]) -> Result<(), AllocError>
    ensures { OnOk result (Adds (AreOf IsReasonRule reasons.now) out.old.items out.new.items) }
{
    for reason in reasons {
        push_reason(out, *reason)?;
    }
    Ok(())
}

#[tactic(auto, using(timefd_lint_lsp::proofs::EditorLemmas::EachLemmas::at_first, timefd_lint_lsp::proofs::EditorLemmas::EachLemmas::at_last))]
fn push_traps(out: &mut Vec<u8>, traps: &[Trap]) -> Result<(), AllocError>
    ensures { OnOk result (Adds (AreOf IsTrapRule traps.now) out.old.items out.new.items) }
{
    for trap in traps {
        push_trap(out, *trap)?;
    }
    Ok(())
}

#[tactic(auto, using(crate::proofs::RuleLemmas::reason_rule))]
fn push_reason(out: &mut Vec<u8>, reason: Reason) -> Result<(), AllocError>
    ensures { OnOk result (Adds (IsReasonRule reason) out.old.items out.new.items) }
{
    let rule = LogRule {
        name: reason.name(),
        level: "error",
        summary: reason.sentence(),
        explanation: reason.cure(),
    };
    push_rule(out, rule)
}

#[tactic(auto, using(crate::proofs::RuleLemmas::trap_rule))]
fn push_trap(out: &mut Vec<u8>, trap: Trap) -> Result<(), AllocError>
    ensures { OnOk result (Adds (IsTrapRule trap) out.old.items out.new.items) }
{
    let rule = LogRule {
        name: trap.name(),
        level: "warning",
        summary: trap.sentence(),
        explanation: trap.cure(),
    };
    push_rule(out, rule)
}
