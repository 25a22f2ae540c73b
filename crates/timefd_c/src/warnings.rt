//! The function that C calls for the warnings of a description.

ghost use Rattle.std.specs.Prelude.{◌≡◌, ◌++◌, List, IfOk, drop, length, min, take};
ghost use Rattle.timefd_lang_component.specs.Tree.{Tree};
ghost use Rattle.timefd_language.specs.Grammar.{nesting_limit};
ghost use Rattle.timefd_parse.specs.Language.{SpellsIn, amount};
ghost use Rattle.timefd_c.specs.Languages.{language_of};
ghost use Rattle.timefd_c.specs.Warnings as spec;
ghost use Rattle.timefd_c.specs.Warnings.{IsReported, Warns};

use crate::answer::{ACCEPTED, NO_MEMORY, NOT_UTF8, REFUSED, UNKNOWN_KIND};
use crate::numbers::from_number;
use crate::warning_fields::{WarningFields, WarningsAnswer, push_warning};
use std::alloc::{AllocError, Global};
use timefd_c_nodes::reading::text_of;
use timefd_lang_warnings::{Level, Levels, Warning};
use timefd_lint_warnings::found_in;
use timefd_parse::{BorrowedParseError, Language, NESTING_LIMIT, amount_all_borrowed};

/// Says what `timefd_judge` says, and writes the warnings of an accepted text to the front of the
/// buffer, as far as they fit, in the order in which the linter reports them.
#[unsafe(no_mangle)]
pub extern "C" fn timefd_warnings(
    alloc: Global,
    kind: u32,
    text: &[u8],
    warnings: &mut [WarningFields],
) -> WarningsAnswer
    ensures warns { Warns (language_of kind) text.now warnings.old warnings.new result }
{
    warn_of(alloc, from_number(kind), text, warnings)
}

#[tactic(auto, using(crate::proofs::WarningLemmas::refusing, crate::proofs::WarningLemmas::unread))]
fn warn_of(
    alloc: Global,
    language: Option<Language>,
    bytes: &[u8],
    warnings: &mut [WarningFields],
) -> WarningsAnswer
    ensures warns { Warns language bytes.now warnings.old warnings.new result }
{
    let Some(language) = language else {
        return WarningsAnswer::silent(UNKNOWN_KIND, 0);
    };
    let Ok(text) = text_of(bytes) else {
        return WarningsAnswer::silent(NOT_UTF8, 0);
    };
    match amount_all_borrowed(alloc, language, NESTING_LIMIT, text) {
        Ok(value) => accepted(alloc, language, text, value, warnings),
        Err(BorrowedParseError::Invalid(fault)) => WarningsAnswer::silent(REFUSED, fault.start),
        Err(BorrowedParseError::Memory(_)) => WarningsAnswer::silent(NO_MEMORY, 0),
    }
}

// The answer for a text that is accepted with this value.
#[tactic(auto, using(crate::proofs::WarningLemmas::is_reported))]
fn accepted(
    alloc: Global,
    language: Language,
    text: &str,
    value: usize,
    warnings: &mut [WarningFields],
) -> WarningsAnswer
    ensures { (list : List Tree) → SpellsIn language nesting_limit text.now list
        → value ≡ amount language list
        → IsReported language text.now list warnings.old warnings.new result }
{
    match warnings_in(alloc, language, text) {
        Ok(nodes_reported) => WarningsAnswer {
            status: ACCEPTED,
            value,
            count: nodes_reported.len(),
            written: write_front(&nodes_reported, warnings),
        },
        Err(AllocError) => WarningsAnswer::silent(NO_MEMORY, 0),
    }
}

// The warnings of an accepted text.
fn warnings_in(
    alloc: Global,
    language: Language,
    text: &str,
) -> Result<Vec<WarningFields>, AllocError>
    ensures { (list : List Tree) → SpellsIn language nesting_limit text.now list
        → IfOk result (λ nodes_reported. nodes_reported.items ≡ spec.warnings_of language text.now list) }
{
    let found = found_in(alloc, language, text, Levels::all_at(Level::Warned))?;
    reported_of(alloc, found, text.len(), Warning::all())
}

// The warnings among these that aren't allowed.
fn reported_of(
    alloc: Global,
    found: Levels,
    len: usize,
    warnings: &[Warning],
) -> Result<Vec<WarningFields>, AllocError>
    ensures { IfOk result (λ nodes_reported. nodes_reported.items ≡ spec.reported_of found len warnings.now) }
{
    let mut nodes_reported = Vec::new(alloc);
    for warning in warnings {
        push_warning(&mut nodes_reported, found.level_of(*warning), *warning, len)?;
    }
    Ok(nodes_reported)
}

// Writes the first warnings to the front of the buffer, as far as they fit, and returns how many it
// wrote.
fn write_front(nodes_reported: &[WarningFields], buffer: &mut [WarningFields]) -> usize
    ensures count { result ≡ min (length nodes_reported.now) (length buffer.old) }
    ensures front { buffer.new ≡ take result nodes_reported.now ++ drop result buffer.old }
{
    let count = nodes_reported.len().min(buffer.len());
    buffer[..count].copy_from_slice(&nodes_reported[..count]);
    count
}
