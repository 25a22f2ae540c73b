//! The line that says how much was checked.

ghost use Rattle.std.specs.Prelude.{◌≡◌, IfOk, string_bytes};
ghost use Rattle.timefd_lint.specs.Summaries as spec;

use crate::tally::LintTally;
use std::alloc::{AllocError, Global};

/// The summary, as `8 descriptions, 6 refused, 1 warning, 2 files; 3 calls with a name in place of a text; 2
/// values of keys not looked at; 1 error in a comment; 1 allowed by comments`. It counts the checked descriptions, those
/// that were refused, the reported warnings (if warnings are on), the files, the calls that weren't checked, the values of
/// keys that weren't looked at, the errors in comments, and the errors and warnings that comments allow. An `Err` says that memory ran out.
pub fn summary(
    alloc: Global,
    warns: bool,
    tally: LintTally,
    file_count: usize,
) -> Result<String, AllocError>
    ensures { IfOk result (λ line. string_bytes line ≡ spec.summary warns tally file_count) }
{
    let counted = if warns {
        with_warnings(alloc, tally, file_count)?
    } else {
        without_warnings(alloc, tally, file_count)?
    };
    let line = with_unread_calls(alloc, counted, tally.unread_calls)?;
    let line = with_unread_values(alloc, line, tally.unread_values)?;
    let line = with_any_wrong(alloc, line, tally.wrong_comments)?;
    with_any_allowed(alloc, line, tally.allowed)
}

fn with_any_wrong(alloc: Global, counted: String, errors: u64) -> Result<String, AllocError>
    ensures { IfOk result (λ line. string_bytes line ≡ spec.with_any_wrong (string_bytes counted) errors) }
{
    if errors == 0 {
        return Ok(counted);
    }
    with_wrong(alloc, &counted, errors)
}

fn with_wrong(alloc: Global, counted: &str, errors: u64) -> Result<String, AllocError>
    ensures { IfOk result (λ line. string_bytes line ≡ spec.with_wrong counted.now errors) }
{
    let noun = error_noun(errors);
    format!(in alloc; "{counted}; {errors} {noun}")
}

fn error_noun(count: u64) -> &'static str
    ensures { result.now ≡ spec.errors count }
{
    match count {
        1 => "error in a comment",
        _ => "errors in comments",
    }
}

fn with_any_allowed(alloc: Global, counted: String, allowed: u64) -> Result<String, AllocError>
    ensures { IfOk result (λ line. string_bytes line ≡ spec.with_any_allowed (string_bytes counted) allowed) }
{
    if allowed == 0 {
        return Ok(counted);
    }
    with_allowed(alloc, &counted, allowed)
}

fn with_allowed(alloc: Global, counted: &str, allowed: u64) -> Result<String, AllocError>
    ensures { IfOk result (λ line. string_bytes line ≡ spec.with_allowed counted.now allowed) }
{
    format!(in alloc; "{counted}; {allowed} allowed by comments")
}

fn with_unread_calls(alloc: Global, counted: String, calls: u64) -> Result<String, AllocError>
    ensures { IfOk result (λ line. string_bytes line ≡ spec.with_unread_calls (string_bytes counted) calls) }
{
    if calls == 0 {
        return Ok(counted);
    }
    with_calls(alloc, &counted, calls)
}

fn with_calls(alloc: Global, counted: &str, calls: u64) -> Result<String, AllocError>
    ensures { IfOk result (λ line. string_bytes line ≡ spec.with_calls counted.now calls) }
{
    let noun = call_noun(calls);
    format!(in alloc; "{counted}; {calls} {noun} with a name in place of a text")
}

fn with_unread_values(alloc: Global, counted: String, values: u64) -> Result<String, AllocError>
    ensures { IfOk result (λ line. string_bytes line ≡ spec.with_unread_values (string_bytes counted) values) }
{
    if values == 0 {
        return Ok(counted);
    }
    with_values(alloc, &counted, values)
}

fn with_values(alloc: Global, counted: &str, values: u64) -> Result<String, AllocError>
    ensures { IfOk result (λ line. string_bytes line ≡ spec.with_values counted.now values) }
{
    let noun = value_noun(values);
    format!(in alloc; "{counted}; {values} {noun} not looked at")
}

fn value_noun(count: u64) -> &'static str
    ensures { result.now ≡ spec.values count }
{
    match count {
        1 => "value of a key",
        _ => "values of keys",
    }
}

fn call_noun(count: u64) -> &'static str
    ensures { result.now ≡ spec.calls count }
{
    match count {
        1 => "call",
        _ => "calls",
    }
}

fn with_warnings(alloc: Global, tally: LintTally, file_count: usize) -> Result<String, AllocError>
    ensures { IfOk result (λ line. string_bytes line ≡ spec.with_warnings tally file_count) }
{
    let refusals = refusals(alloc, tally)?;
    let warnings = tally.warnings;
    let warning_noun = warning_noun(warnings);
    let file_noun = file_noun(file_count);
    format!(in alloc; "{refusals}, {warnings} {warning_noun}, {file_count} {file_noun}")
}

fn without_warnings(
    alloc: Global,
    tally: LintTally,
    file_count: usize,
) -> Result<String, AllocError>
    ensures { IfOk result (λ line. string_bytes line ≡ spec.without_warnings tally file_count) }
{
    let refusals = refusals(alloc, tally)?;
    let file_noun = file_noun(file_count);
    format!(in alloc; "{refusals}, {file_count} {file_noun}")
}

// How many descriptions were refused, as `8 descriptions, 6 refused`.
fn refusals(alloc: Global, tally: LintTally) -> Result<String, AllocError>
    ensures { IfOk result (λ front. string_bytes front ≡ spec.refusals tally) }
{
    let LintTally {
        descriptions,
        refused,
        ..
    } = tally;
    let noun = description_noun(descriptions);
    format!(in alloc; "{descriptions} {noun}, {refused} refused")
}

fn description_noun(count: u64) -> &'static str
    ensures { result.now ≡ spec.descriptions count }
{
    match count {
        1 => "description",
        _ => "descriptions",
    }
}

fn warning_noun(count: u64) -> &'static str
    ensures { result.now ≡ spec.warnings count }
{
    match count {
        1 => "warning",
        _ => "warnings",
    }
}

fn file_noun(count: usize) -> &'static str
    ensures { result.now ≡ spec.files count }
{
    match count {
        1 => "file",
        _ => "files",
    }
}
