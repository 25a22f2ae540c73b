//! Why a text is refused, where, and the stable name of the reason.

ghost use Rattle.std.specs.Prelude.{◌≡◌};
ghost use Rattle.timefd_lang_fault.specs.Faults.{fault_of};
ghost use Rattle.timefd_lang_fault.specs.Codes as spec;

use crate::help::Help;
use timefd_lang_fault::Code;
use timefd_parse::InvalidFormatDescription;

/// Bytes of a text, by their indices: from `start` on, up to but without `end`.
#[derive(Debug, Clone, Copy, PartialEq, Eq)]
pub struct Span {
    pub start: usize,
    pub end: usize,
}

/// Why a text is refused, and where.
#[derive(Drop)]
pub struct Diagnostic {
    /// The fault.
    pub fault: InvalidFormatDescription,
    /// The code of the rule that is broken.
    pub code: Code,
    /// The bytes at fault.
    pub span: Span,
    /// What helps against it.
    pub help: Help,
    pub ghost named: { code ≡ spec.code_of (fault_of fault).kind },
}

/// The name of a diagnostic's code, which stays the same whatever the fault's sentence says.
pub fn code_of(diagnostic: &Diagnostic) -> &'static str
    ensures code { result.now ≡ spec.name_of (spec.code_of (fault_of diagnostic.now.fault).kind) }
{
    diagnostic.code.name()
}
