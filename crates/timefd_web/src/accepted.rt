//! The report on a text that is accepted.

ghost use Rattle.std.specs.Prelude.{◌≡◌, ◌++◌, List, IfOk, OnOk};
ghost use Rattle.timefd_parse.specs.Tree.{Tree};
ghost use Rattle.timefd_parse.specs.Grammar.{nesting_limit};
ghost use Rattle.timefd_parse.specs.Language.{SpellsIn};
ghost use Rattle.timefd_web.specs.Objects as spec;
ghost use Rattle.timefd_web.specs.Reports.{IsAccepted};

use crate::later::{Later, later_of};
use crate::records::push_list;
use crate::written::written_of;
use std::alloc::{AllocError, Global};
use timefd_date_moment::Moment;
use timefd_lint_drawing::json::{push_number, push_text};
use timefd_lint_explain::{Explanation, explanation_of};
use timefd_parse::Language;

/// The object of a text that a language accepts.
pub fn accepted(
    alloc: Global,
    language: Language,
    moment: Moment,
    text: &str,
) -> Result<Vec<u8>, AllocError>
    requires { (list : List Tree) × SpellsIn language nesting_limit text.now list }
    ensures { (list : List Tree) → SpellsIn language nesting_limit text.now list
        → IfOk result (λ object. IsAccepted language moment text.now list object.items) }
{
    let explanation = explanation_of(alloc, language, text)?;
    let written = written_of(alloc, language, moment, text)?;
    let later = later_of(alloc, language, text)?;
    object_of(alloc, &explanation, &written, &later)
}

// How many bytes the text reserves, its nodes, what it writes of the moment, and its texts in later
// versions.
fn object_of(
    alloc: Global,
    explanation: &Explanation,
    written: &Option<String>,
    later: &Later,
) -> Result<Vec<u8>, AllocError>
    ensures { IfOk result (λ object. object.items ≡ spec.accepted_object explanation.now written.now
        later.now) }
{
    let mut out = Vec::new(alloc);
    push_number(
        alloc,
        &mut out,
        "{\"accepted\":true,\"bytes\":",
        explanation.bytes as u64,
    )?;
    push_list(alloc, &mut out, ",\"nodes\":", &explanation.nodes)?;
    push_optional(&mut out, ",\"written\":", written)?;
    push_optional(&mut out, ",\"version_2\":", &later.version_2)?;
    push_text(&mut out, ",\"version_3\":", &later.version_3)?;
    out.extend_from_slice(b"}")?;
    Ok(out)
}

// Appends the front of a field, which is everything before the value, and the value: a text, or
// null.
fn push_optional(out: &mut Vec<u8>, front: &str, text: &Option<String>) -> Result<(), AllocError>
    ensures { OnOk result (out.new.items ≡ out.old.items ++ (front.now ++ spec.optional text.now)) }
{
    match text {
        Some(text) => push_text(out, front, text),
        None => {
            out.extend_from_slice(front.as_bytes())?;
            out.extend_from_slice(b"null")
        }
    }
}
