//! The report on a text that is refused.

ghost use Rattle.std.specs.Prelude.{◌≡◌, IfOk};
ghost use Rattle.timefd_web.specs.Objects as spec;

use std::alloc::{AllocError, Global};
use timefd_lint_diagnosis::{Diagnostic, Help, code_of};
use timefd_lint_drawing::help_text::help_text;
use timefd_lint_drawing::json::{push_number, push_text};

/// What the object of a refused text contains.
#[derive(Clone, Copy)]
pub struct RefusedObject<'a> {
    /// The stable name of the fault.
    pub code: &'a str,
    /// The sentence of the fault.
    pub message: &'a str,
    /// What helps against the fault.
    pub help: &'a str,
    /// The nearest allowed word, or an empty text if none is near.
    pub nearest: &'a str,
    /// The byte indices of the part at fault.
    pub start: u64,
    pub end: u64,
}

/// The object of a text with a fault: the stable name of the fault, its sentence, what helps, the
/// nearest word that is allowed there, and the byte indices of the part at fault.
pub fn refused(alloc: Global, diagnostic: &Diagnostic) -> Result<Vec<u8>, AllocError>
    ensures { IfOk result (λ object. object.items ≡ spec.refused_object diagnostic.now) }
{
    let message = format!(in alloc; "{}", diagnostic.fault)?;
    let help = help_text(alloc, diagnostic.help)?;
    let refusal = RefusedObject {
        code: code_of(diagnostic),
        message: &message,
        help: &help,
        nearest: nearest(diagnostic.help),
        start: diagnostic.span.start as u64,
        end: diagnostic.span.end as u64,
    };
    object_of(alloc, refusal)
}

fn object_of(alloc: Global, refusal: RefusedObject<'_>) -> Result<Vec<u8>, AllocError>
    ensures { IfOk result (λ object. object.items ≡ spec.refusal_of refusal.entry) }
{
    let mut out = Vec::new(alloc);
    push_text(&mut out, "{\"accepted\":false,\"code\":", refusal.code)?;
    push_text(&mut out, ",\"message\":", refusal.message)?;
    push_text(&mut out, ",\"help\":", refusal.help)?;
    push_text(&mut out, ",\"nearest\":", refusal.nearest)?;
    push_number(alloc, &mut out, ",\"start\":", refusal.start)?;
    push_number(alloc, &mut out, ",\"end\":", refusal.end)?;
    out.extend_from_slice(b"}")?;
    Ok(out)
}

// The nearest allowed word, or an empty text if none is near.
fn nearest(help: Help) -> &'static str
    ensures { result.now ≡ spec.nearest help }
{
    match help {
        Help::Words {
            nearest: Some(word),
            ..
        } => word,
        Help::Words { nearest: None, .. } | Help::LeaveOut(_) | Help::Advice(_) => "",
    }
}
