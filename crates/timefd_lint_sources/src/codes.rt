//! The codes of what is reported about descriptions.

ghost use Rattle.std.specs.Prelude.{◌≡◌, ◌++◌, IfOk, OnOk, map, option_map};
ghost use Rattle.timefd_lint_diagnosis.specs.Words.{texts};
ghost use Rattle.timefd_lint_sources.specs.CodeNames as spec;

use std::alloc::{AllocError, Global};
use timefd_lang_dialect::{Reason, Trap};
use timefd_lang_warnings::Warning;
use timefd_lint_diagnosis::Code;
use timefd_lint_diagnosis::nearest::nearest;
use timefd_lint_warnings::dialects::{all_reasons, all_traps};

/// What has a code.
pub trait Coded {
    ghost use Rattle.timefd_parse.specs.Tree.{Text};

    ghost code: { Self → Text };

    /// The code that reports show.
    fn code(&self) -> &'static str
        ensures { result.now ≡ code self.now };
}

impl Coded for Code {
    ghost use Rattle.timefd_parse.specs.Codes.{name_of};

    ghost code = { name_of };

    fn code(&self) -> &'static str {
        self.name()
    }
}

impl Coded for Warning {
    ghost use Rattle.timefd_lang_warnings.specs.Codes.{name_of};

    ghost code = { name_of };

    fn code(&self) -> &'static str {
        self.name()
    }
}

impl Coded for Reason {
    ghost use Rattle.timefd_lang_dialect.specs.Reasons.{name};

    ghost code = { name };

    fn code(&self) -> &'static str {
        self.name()
    }
}

impl Coded for Trap {
    ghost use Rattle.timefd_lang_dialect.specs.TrapWords.{name};

    ghost code = { name };

    fn code(&self) -> &'static str {
        self.name()
    }
}

/// Adds the codes of these. An `Err` says that memory ran out.
#[tactic(auto, using(crate::proofs::CodeLemmas::one_more, crate::proofs::CodeLemmas::at_last))]
pub fn push_codes<C: Coded>(all: &mut Vec<&'static str>, coded: &[C]) -> Result<(), AllocError>
    ensures { OnOk result (texts all.new.items ≡ texts all.old.items ++ map C.code coded.now) }
{
    let mut rest = coded;
    'codes: while let [first, after @ ..] = rest {
        all.push(first.code())?;
        rest = after;
    }
    Ok(())
}

/// The codes that a comment may allow: those of everything that is reported about a description. An `Err` says that
/// memory ran out.
pub fn description_codes(alloc: Global) -> Result<Vec<&'static str>, AllocError>
    ensures { IfOk result (λ all. texts all.items ≡ spec.description_codes) }
{
    let mut all: Vec<&'static str> = Vec::new(alloc);
    all.push("not-text")?;
    push_codes(&mut all, Code::all())?;
    push_codes(&mut all, Warning::all())?;
    push_codes(&mut all, all_reasons())?;
    push_codes(&mut all, all_traps())?;
    Ok(all)
}

/// Whether a word is one of these codes.
pub fn is_code(codes: &[&str], word: &[u8]) -> bool
    ensures { result ≡ spec.is_among (texts codes.now) word.now }
{
    let mut left = codes;
    'codes: while let [code, rest @ ..] = left {
        if word == code.as_bytes() {
            return true;
        }
        left = rest;
    }
    false
}
