//! What is found in a text or said of a file.

ghost use Rattle.std.specs.Prelude.{◌≡◌, IfOk, option_map, string_bytes};
ghost use Rattle.timefd_lint_drawing.specs.Findings.{said_of};
ghost use Rattle.timefd_lint_drawing.specs.Findings as spec;

use crate::position::{Line, Position};
use crate::severity::FindingSeverity;
use std::alloc::{AllocError, Global};
use timefd_lint_diagnosis::Span;

/// The kind of a finding, where forms differ by it.
#[derive(Clone, Copy)]
pub enum FindingKind {
    /// A fault, or what is wrong with a file.
    Fault,
    /// A fault that was found with the errors before it left out.
    Further,
    /// A warning, or a part of a format of another language: the line for editors has its severity and its code.
    Labelled,
    /// A note at something else than what is at fault. For people it has no code and no colours.
    Aside,
}

/// The words of a finding.
#[derive(Clone, Copy)]
pub struct FindingWords<'c, 'm> {
    pub severity: FindingSeverity,
    pub kind: FindingKind,
    /// Its stable name.
    pub code: &'c str,
    /// What it is, in a sentence.
    pub message: &'m str,
    /// What to do.
    pub help: Option<&'m str>,
    /// The word to write instead of the part, if one is near.
    pub replacement: Option<&'c str>,
}

/// Where a finding is, as far as the form that is asked for shows it.
#[derive(Clone, Copy)]
pub struct FindingLocation<'f, 't> {
    pub file: &'f str,
    pub start: Position,
    /// The position of what follows the part.
    pub end: Option<Position>,
    /// The byte range of the part.
    pub bytes: Option<Span>,
    /// The line that the part begins in; `None` if a whole file or line is meant.
    pub line: Option<Line<'t>>,
}

/// A sentence, and the help in a line after it. An `Err` says that memory ran out.
pub fn with_help(alloc: Global, sentence: &str, help: &str) -> Result<String, AllocError>
    ensures { IfOk result (λ text. string_bytes text ≡ spec.with_help sentence.now help.now) }
{
    format!(in alloc; "{sentence}\n{help}")
}

/// The sentence of a finding, and its help in a line after it. An `Err` says that memory ran out.
pub fn described(alloc: Global, finding: FindingWords<'_, '_>) -> Result<String, AllocError>
    ensures { IfOk result (λ text. string_bytes text ≡ spec.described (said_of finding.entry)) }
{
    match finding.help {
        Some(help) => with_help(alloc, finding.message, help),
        None => String::from_str(alloc, finding.message),
    }
}

/// Whether the errors before it were left out.
pub fn is_further(kind: FindingKind) -> bool
    ensures { result ≡ spec.is_further kind }
{
    match kind {
        FindingKind::Further => true,
        FindingKind::Fault | FindingKind::Labelled | FindingKind::Aside => false,
    }
}
