//! The rules of a log: each code that a result may have, and what it means.

ghost use Rattle.std.specs.Prelude.{OnOk};
ghost use Rattle.timefd_lint_lsp.specs.Editor.Each.{Adds, AreOf};
ghost use Rattle.timefd_lint.specs.Rules.{AreRules, IsErrorRule, IsFaultRule, IsWarningRule};

use crate::error_code::ErrorCode;
use crate::error_page::{explanation, summary};
use crate::other_rules::push_other_rules;
use crate::rule::{LogRule, push_rule};
use std::alloc::AllocError;
use timefd_lang_warnings::Warning;
use timefd_lint_diagnosis::Code;

/// Appends all rules: those of faults, of other errors, of warnings, and of formats of other languages. A comma precedes
/// each. An `Err` says that memory ran out.
pub fn push_rules(out: &mut Vec<u8>) -> Result<(), AllocError>
    ensures { OnOk result (Adds AreRules out.old.items out.new.items) }
{
    push_faults(out, Code::all())?;
    push_errors(out, ErrorCode::others())?;
    push_warnings(out, Warning::all())?;
    push_other_rules(out)
}

#[tactic(auto, using(timefd_lint_lsp::proofs::EditorLemmas::EachLemmas::at_first, timefd_lint_lsp::proofs::EditorLemmas::EachLemmas::at_last))]
fn push_faults(out: &mut Vec<u8>, faults: &[Code]) -> Result<(), AllocError>
    ensures { OnOk result (Adds (AreOf IsFaultRule faults.now) out.old.items out.new.items) }
{
    for code in faults {
        push_fault(out, *code)?;
    }
    Ok(())
}

#[tactic(auto, using(timefd_lint_lsp::proofs::EditorLemmas::EachLemmas::at_first, timefd_lint_lsp::proofs::EditorLemmas::EachLemmas::at_last))]
fn push_errors(out: &mut Vec<u8>, errors: &[ErrorCode]) -> Result<(), AllocError>
    ensures { OnOk result (Adds (AreOf IsErrorRule errors.now) out.old.items out.new.items) }
{
    for code in errors {
        push_error(out, *code)?;
    }
    Ok(())
}

#[tactic(auto, using(timefd_lint_lsp::proofs::EditorLemmas::EachLemmas::at_first, timefd_lint_lsp::proofs::EditorLemmas::EachLemmas::at_last))]
fn push_warnings(out: &mut Vec<u8>, warnings: &[Warning]) -> Result<(), AllocError>
    ensures { OnOk result (Adds (AreOf IsWarningRule warnings.now) out.old.items out.new.items) }
{
    for warning in warnings {
        push_warning(out, *warning)?;
    }
    Ok(())
}

fn push_fault(out: &mut Vec<u8>, code: Code) -> Result<(), AllocError>
    ensures { OnOk result (Adds (IsFaultRule code) out.old.items out.new.items) }
{
    push_error(out, ErrorCode::Fault(code))
}

fn push_error(out: &mut Vec<u8>, code: ErrorCode) -> Result<(), AllocError>
    ensures { OnOk result (Adds (IsErrorRule code) out.old.items out.new.items) }
{
    let rule = LogRule {
        name: code.name(),
        level: "error",
        summary: summary(code),
        explanation: explanation(code),
    };
    push_rule(out, rule)
}

#[tactic(auto, using(crate::proofs::RuleLemmas::warning_rule))]
fn push_warning(out: &mut Vec<u8>, warning: Warning) -> Result<(), AllocError>
    ensures { OnOk result (Adds (IsWarningRule warning) out.old.items out.new.items) }
{
    let rule = LogRule {
        name: warning.name(),
        level: "warning",
        summary: warning.sentence(),
        explanation: warning.explanation(),
    };
    push_rule(out, rule)
}
