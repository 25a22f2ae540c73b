//! The page on an error or a warning.

ghost use Rattle.std.specs.Prelude.{◌≡◌, IfOk, option_map, string_bytes};
ghost use Rattle.timefd_lint.specs.Pages as spec;

use crate::error_code::ErrorCode;
use crate::error_page::{explanation, summary};
use std::alloc::{AllocError, Global};
use timefd_lang_dialect::{Reason, Trap};
use timefd_lang_warnings::Warning;
use timefd_lint_warnings::dialects::{reason_named, trap_named};

/// What a page explains.
#[derive(Clone, Copy)]
pub enum Subject {
    Error(ErrorCode),
    Warning(Warning),
    /// A part of a format that version 3 can't write.
    Reason(Reason),
    /// What in a format often means something else.
    Trap(Trap),
}

/// The error or warning with this name. A trap that a warning names too has the page of the warning.
fn subject_named(name: &str) -> Option<Subject>
    ensures { result ≡ spec.subject_named name.now }
{
    match ErrorCode::named(name) {
        Some(code) => Some(Subject::Error(code)),
        None => match Warning::named(name) {
            Some(warning) => Some(Subject::Warning(warning)),
            None => other_named(name),
        },
    }
}

/// What is reported of formats of other languages by this name.
fn other_named(name: &str) -> Option<Subject>
    ensures { result ≡ spec.other_named name.now }
{
    match reason_named(name) {
        Some(reason) => Some(Subject::Reason(reason)),
        None => match trap_named(name) {
            Some(trap) => Some(Subject::Trap(trap)),
            None => None,
        },
    }
}

/// What to explain, if the words are `--explain` and a code.
pub fn explained_in(words: &[&str]) -> Option<Subject>
    ensures { result ≡ spec.explained_in words.now }
{
    let [option, name] = words else {
        return None;
    };
    match *option {
        "--explain" => subject_named(name),
        _ => None,
    }
}

/// The word that names neither an error nor a warning, if the words are `--explain` and such a word. It may be the
/// name of a file.
pub fn unexplained_in<'a>(words: &'a [&'a str]) -> Option<&'a str>
    ensures { option_map (λ w. w.now) result ≡ spec.unexplained_in words.now }
{
    let [option, name] = words else {
        return None;
    };
    match *option {
        "--explain" if !name.as_bytes().starts_with(b"-") => unknown(name),
        _ => None,
    }
}

fn unknown(name: &str) -> Option<&str>
    ensures { option_map (λ w. w.now) result ≡ spec.unknown name.now }
{
    match subject_named(name) {
        Some(_) => None,
        None => Some(name),
    }
}

/// The page: the name and a sentence, what it means, and what to write instead. An `Err` says that memory ran
/// out.
pub fn page_on(alloc: Global, subject: Subject) -> Result<String, AllocError>
    ensures { IfOk result (λ page. string_bytes page ≡ spec.page_on subject) }
{
    match subject {
        Subject::Error(code) => page_of(alloc, code.name(), summary(code), explanation(code)),
        Subject::Warning(warning) => page_of(
            alloc,
            warning.name(),
            warning.sentence(),
            warning.explanation(),
        ),
        Subject::Reason(reason) => {
            page_of(alloc, reason.name(), reason.sentence(), reason.cure())
        }
        Subject::Trap(trap) => page_of(alloc, trap.name(), trap.sentence(), trap.cure()),
    }
}

fn page_of(
    alloc: Global,
    name: &str,
    sentence: &str,
    explanation: &str,
) -> Result<String, AllocError>
    ensures { IfOk result (λ page. string_bytes page
        ≡ spec.page_of name.now sentence.now explanation.now) }
{
    format!(in alloc; "{name}: {sentence}\n\n{explanation}\n")
}
