//! The codes of all that the linter reports.

ghost use Rattle.std.specs.Prelude.{◌≡◌, IfOk};
ghost use Rattle.timefd_lint_diagnosis.specs.Words.{texts};
ghost use Rattle.timefd_lint.specs.NoCodes as spec;

use crate::error_code::ErrorCode;
use crate::other_rules::own_traps;
use std::alloc::{AllocError, Global};
use timefd_lang_warnings::Warning;
use timefd_lint_diagnosis::Code;
use timefd_lint_sources::{Coded, push_codes};
use timefd_lint_warnings::dialects::all_reasons;

impl Coded for ErrorCode {
    ghost use Rattle.timefd_lint.specs.ErrorCodes.{name_of};

    ghost code = { name_of };

    fn code(&self) -> &'static str {
        self.name()
    }
}

/// The codes of all errors and warnings, and of what is reported of formats of other languages. An `Err` says
/// that memory ran out.
#[tactic(auto, using(crate::proofs::NoCodeLemmas::in_turn))]
pub fn all_codes(alloc: Global) -> Result<Vec<&'static str>, AllocError>
    ensures { IfOk result (λ all. texts all.items ≡ spec.all_codes) }
{
    let mut all: Vec<&'static str> = Vec::new(alloc);
    push_codes(&mut all, Code::all())?;
    push_codes(&mut all, ErrorCode::others())?;
    push_codes(&mut all, Warning::all())?;
    push_codes(&mut all, all_reasons())?;
    push_codes(&mut all, own_traps())?;
    Ok(all)
}

/// The codes of all warnings. An `Err` says that memory ran out.
pub fn warning_codes(alloc: Global) -> Result<Vec<&'static str>, AllocError>
    ensures { IfOk result (λ all. texts all.items ≡ spec.warning_codes) }
{
    let mut codes: Vec<&'static str> = Vec::new(alloc);
    push_codes(&mut codes, Warning::all())?;
    Ok(codes)
}
