//! What is at a position of a file with keys, and where to look next.

ghost use Rattle.std.specs.Prelude.{◌≡◌, IfOk, MatchOption, None, Some, ⊤};
ghost use Rattle.timefd_lint_scan.specs.Keys.Comments.{reported_in_front};
ghost use Rattle.timefd_lint_scan.specs.Keys.Found.{IsStep, StandsIn};
ghost use Rattle.timefd_lint_scan.specs.Keys.Names.{name_at as name_of, seen as named};
ghost use Rattle.timefd_lint_scan.specs.Keys.Visits as spec;
ghost use Rattle.timefd_lint_scan.specs.Lines.{line_start};

use crate::FormatLanguage;
use crate::class::{is_blank, is_line_end};
use crate::keys::key::dialect_of;
use crate::keys::name::{KeyName, name_at, value_after};
use crate::keys::passing::{after_passed, begins_comment_at, depth_after};
use crate::keys::spot::{Elements, KeySpot};
use crate::keys::step::{KeyScan, Step, string_step};
use crate::line::from;
use std::alloc::{AllocError, Global};

/// The step that finds nothing.
fn passing(next: KeySpot) -> Step
    ensures found { result.found ≡ None }
    ensures unread { result.unread ≡ None }
    ensures next { result.next ≡ next }
{
    Step {
        found: None,
        unread: None,
        next,
    }
}

fn begins_list(text: &[u8]) -> bool
    ensures { result ≡ spec.begins_list text.now }
{
    match text {
        [] => false,
        [byte, ..] => *byte == b'[',
    }
}

/// What is found in the value at a position, which is in the language that a comment after it names, or else
/// in `other`.
fn value_step(
    alloc: Global,
    scan: KeyScan<'_>,
    other: Option<FormatLanguage>,
    start: usize,
    depth: usize,
) -> Result<Step, AllocError>
    ensures step { IfOk result (IsStep scan.entry.format scan.entry.source.now
        (spec.value_visit scan.entry.format scan.entry.source.now other start depth)) }
    ensures stands { IfOk result (λ step. MatchOption step.found ⊤
        (StandsIn scan.entry.format scan.entry.source.now)) }
{
    let bytes = scan.source.as_bytes();
    if begins_list(from(bytes, start)) {
        return Ok(passing(KeySpot {
            at: start.saturating_add(1),
            depth: depth_after(bytes, start, depth),
            list: Some(Elements { other }),
        }));
    }
    let past = KeySpot {
        at: start,
        depth,
        list: None,
    };
    string_step(alloc, scan, other, start, depth, None, past)
}

/// The spot past the comment, the string of several lines or the sign at a position.
fn past_at(scan: KeyScan<'_>, at: usize, depth: usize, list: Option<Elements>) -> KeySpot
    ensures { result ≡ spec.past_at scan.entry.format scan.entry.source.now at depth list }
{
    let bytes = scan.source.as_bytes();
    KeySpot {
        at: bytes
            .len()
            .saturating_sub(after_passed(scan.format, bytes, at).len()),
        depth: depth_after(bytes, at, depth),
        list,
    }
}

fn is_between(text: &[u8]) -> bool
    ensures { result ≡ spec.is_between text.now }
{
    match text {
        [] => true,
        [byte, ..] => is_blank(*byte) || is_line_end(*byte) || *byte == b',',
    }
}

fn closes_list(text: &[u8]) -> bool
    ensures { result ≡ spec.closes_list text.now }
{
    match text {
        [] => false,
        [byte, ..] => *byte == b']',
    }
}

/// What is found at a position in a list that is the value of a key.
fn element_step(
    alloc: Global,
    scan: KeyScan<'_>,
    at: usize,
    depth: usize,
    elements: Elements,
) -> Result<Step, AllocError>
    ensures step { IfOk result (IsStep scan.entry.format scan.entry.source.now
        (spec.element_visit scan.entry.format scan.entry.source.now at depth elements)) }
    ensures stands { IfOk result (λ step. MatchOption step.found ⊤
        (StandsIn scan.entry.format scan.entry.source.now)) }
{
    let bytes = scan.source.as_bytes();
    let text = from(bytes, at);
    if is_between(text) || begins_comment_at(scan.format, bytes, at) {
        return Ok(passing(past_at(scan, at, depth, Some(elements))));
    }
    let past = past_at(scan, at, depth, None);
    if closes_list(text) {
        return Ok(passing(past));
    }
    string_step(alloc, scan, elements.other, at, depth, Some(elements), past)
}

/// What is found after the name at a position.
fn name_step(
    alloc: Global,
    scan: KeyScan<'_>,
    at: usize,
    depth: usize,
    reported: Option<FormatLanguage>,
    name: KeyName<'_>,
) -> Result<Step, AllocError>
    requires { reported ≡ reported_in_front scan.format scan.source.now (line_start scan.source.now at) }
    ensures step { IfOk result (IsStep scan.entry.format scan.entry.source.now
        (spec.visit_named scan.entry.format scan.entry.source.now scan.entry.keys.now at depth
        (Some (named name.entry)))) }
    ensures stands { IfOk result (λ step. MatchOption step.found ⊤
        (StandsIn scan.entry.format scan.entry.source.now)) }
{
    let Some(value) = value_after(scan.format, name.after) else {
        return Ok(passing(KeySpot {
            at: scan.source.len().saturating_sub(name.after.len()),
            depth,
            list: None,
        }));
    };
    let other = reported.or(dialect_of(scan.keys, &name.text));
    let start = scan.source.len().saturating_sub(value.len());
    value_step(alloc, scan, other, start, depth)
}

/// What is found at a spot outside of lists.
fn key_step(
    alloc: Global,
    scan: KeyScan<'_>,
    at: usize,
    depth: usize,
    reported: Option<FormatLanguage>,
) -> Result<Step, AllocError>
    requires { reported ≡ reported_in_front scan.format scan.source.now (line_start scan.source.now at) }
    ensures step { IfOk result (IsStep scan.entry.format scan.entry.source.now
        (spec.visit_named scan.entry.format scan.entry.source.now scan.entry.keys.now at depth
        (name_of scan.entry.format scan.entry.source.now at))) }
    ensures stands { IfOk result (λ step. MatchOption step.found ⊤
        (StandsIn scan.entry.format scan.entry.source.now)) }
{
    match name_at(alloc, scan.format, scan.source.as_bytes(), at)? {
        Some(name) => name_step(alloc, scan, at, depth, reported, name),
        None => Ok(passing(past_at(scan, at, depth, None))),
    }
}

/// What is found at a spot. `reported` is the language that a comment in the line before it names.
pub fn step_at(
    alloc: Global,
    scan: KeyScan<'_>,
    spot: KeySpot,
    reported: Option<FormatLanguage>,
) -> Result<Step, AllocError>
    requires { reported ≡ reported_in_front scan.format scan.source.now (line_start scan.source.now spot.at) }
    ensures step { IfOk result (IsStep scan.entry.format scan.entry.source.now
        (spec.visit_at scan.entry.format scan.entry.source.now scan.entry.keys.now spot)) }
    ensures stands { IfOk result (λ step. MatchOption step.found ⊤
        (StandsIn scan.entry.format scan.entry.source.now)) }
{
    match spot.list {
        Some(elements) => element_step(alloc, scan, spot.at, spot.depth, elements),
        None => key_step(alloc, scan, spot.at, spot.depth, reported),
    }
}
