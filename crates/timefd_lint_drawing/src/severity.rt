//! How bad a finding is, and what each form shows of that.

ghost use Rattle.std.specs.Prelude.{◌≡◌};
ghost use Rattle.timefd_lint_drawing.specs.Severities as spec;

use crate::lines::Paint;

/// How bad a finding is.
#[derive(Clone, Copy)]
pub enum FindingSeverity {
    Error,
    Warning,
    Note,
}

/// The word for it.
pub fn word(severity: FindingSeverity) -> &'static str
    ensures { result.now ≡ spec.word severity }
{
    match severity {
        FindingSeverity::Error => "error",
        FindingSeverity::Warning => "warning",
        FindingSeverity::Note => "note",
    }
}

/// Its colour in a drawing.
pub fn paint(severity: FindingSeverity) -> Paint
    ensures { result ≡ spec.paint severity }
{
    match severity {
        FindingSeverity::Error => Paint::Red,
        FindingSeverity::Warning => Paint::Yellow,
        FindingSeverity::Note => Paint::Cyan,
    }
}

/// How the workflow command of its annotations begins.
pub fn command(severity: FindingSeverity) -> &'static str
    ensures { result.now ≡ spec.command severity }
{
    match severity {
        FindingSeverity::Error => "::error",
        FindingSeverity::Warning => "::warning",
        FindingSeverity::Note => "::notice",
    }
}
