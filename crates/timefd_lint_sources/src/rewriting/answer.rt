//! What one description is fixed or converted to.

ghost use Rattle.std.specs.Prelude.{◌≡◌, ◌≢◌, IfOk, IsTrue, IsUtf8, None};
ghost use Rattle.timefd_lint_sources.specs.Judged.{text_of};
ghost use Rattle.timefd_parse.specs.Faults.{Fault};
ghost use Rattle.timefd_lint_rewrite.specs.Layouts.{IsConverted, IsRefusedFor};
ghost use Rattle.timefd_lint_sources.specs.Rewriting.Changes as changes;
ghost use Rattle.timefd_lint_sources.specs.Rewriting.Written.{Becoming, IsAnswer, IsLaidOutBy, is_sayable, line_ends, old_line_ends};
ghost use Rattle.timefd_lint_sources.specs.Rewriting.Written as spec;

use crate::holds_item;
use crate::rewriting::change::{Change, layout_of, new_digit};
use crate::rewriting::outcome::Outcome;
use crate::rewriting::text::text_by;
use std::alloc::{AllocError, Global};
use std::str;
use timefd_lint_rewrite::Layout;
use timefd_lint_scan::{SourceDescription, VersionPosition, body_alike, inside};

/// What is new in a literal or next to it.
#[derive(Drop)]
pub struct NewParts {
    /// The digit of its version, if that changes.
    pub digit: Option<u8>,
    /// What is between its quotes, if that changes.
    pub body: Option<Vec<u8>>,
}

/// What becomes of a literal.
#[derive(Drop)]
pub enum Answer {
    /// It stays as it is.
    Stays(Outcome),
    /// This changes.
    Becomes(NewParts),
}

/// What a description of a source is fixed or converted to. An `Err` says that memory ran out.
#[tactic(auto, using(crate::proofs::RewritingLemmas::AnswerLemmas::passed_over, crate::proofs::RewritingLemmas::AnswerLemmas::no_text))]
pub fn answer_to(
    alloc: Global,
    change: Change,
    source: &str,
    description: &SourceDescription,
) -> Result<Answer, AllocError>
    ensures { IfOk result (IsAnswer change source.now description.now) }
{
    let bytes = description.unescaped.text.as_slice();
    let Some(layout) = layout_of(change, description.dialect, bytes) else {
        return Ok(Answer::Stays(Outcome::PassedOver));
    };
    match str::from_utf8(bytes) {
        Ok(text) => laid_out(alloc, change, layout, source, description, text),
        Err(_) => Ok(Answer::Stays(Outcome::NotText)),
    }
}

// What a description with this text becomes in this layout.
#[tactic(auto, using(crate::proofs::RewritingLemmas::AnswerLemmas::becoming))]
fn laid_out(
    alloc: Global,
    change: Change,
    layout: Layout,
    source: &str,
    description: &SourceDescription,
    text: &str,
) -> Result<Answer, AllocError>
    requires layout { IsLaidOutBy change description.now layout }
    requires text { text.now ≡ text_of description.now }
    ensures { IfOk result (IsAnswer change source.now description.now) }
{
    match text_by(alloc, layout, description, text)? {
        Some(answer) => becoming(alloc, change, source, description, text, answer.as_str()),
        None => refused(alloc, change, layout, source, description, text),
    }
}

// Why a description with this text stays, if the layout refuses it.
#[tactic(auto, using(crate::proofs::RewritingLemmas::AnswerLemmas::refused, crate::proofs::RewritingLemmas::AnswerLemmas::with_items))]
fn refused(
    alloc: Global,
    change: Change,
    layout: Layout,
    source: &str,
    description: &SourceDescription,
    text: &str,
) -> Result<Answer, AllocError>
    requires layout { IsLaidOutBy change description.now layout }
    requires text { text.now ≡ text_of description.now }
    requires refused { (f : Fault) × IsRefusedFor layout text.now f }
    ensures { IfOk result (IsAnswer change source.now description.now) }
{
    if holds_item(alloc, description, text)? {
        Ok(Answer::Stays(Outcome::WithItems))
    } else {
        Ok(Answer::Stays(Outcome::Refused))
    }
}

// What a description with this text becomes if `answer` is its new text. It stays if its new version can't
// be said.
#[tactic(auto, using(crate::proofs::RewritingLemmas::AnswerLemmas::manual, crate::proofs::RewritingLemmas::AnswerLemmas::stays_the_text))]
fn becoming(
    alloc: Global,
    change: Change,
    source: &str,
    description: &SourceDescription,
    text: &str,
    answer: &str,
) -> Result<Answer, AllocError>
    requires text { text.now ≡ text_of description.now }
    requires becoming { Becoming change description.now answer.now }
    ensures { IfOk result (IsAnswer change source.now description.now) }
{
    let digit = new_digit(change, description.dialect);
    if !is_sayable(description.version, digit) {
        return Ok(Answer::Stays(Outcome::ByHand));
    }
    if answer == text {
        return Ok(renumbered(change, source, description, digit));
    }
    respelled(alloc, change, source, description, digit, answer)
}

// What a description becomes if its text stays.
#[tactic(auto, using(crate::proofs::RewritingLemmas::AnswerLemmas::same, crate::proofs::RewritingLemmas::AnswerLemmas::renumbered))]
fn renumbered(
    change: Change,
    source: &str,
    description: &SourceDescription,
    digit: Option<u8>,
) -> Answer
    requires becoming { Becoming change description.now (text_of description.now) }
    requires version { digit ≡ changes.new_digit change description.now.dialect }
    requires sayable { IsTrue (is_sayable description.now.version digit) }
    ensures { IsAnswer change source.now description.now result }
{
    match digit {
        Some(_) => Answer::Becomes(NewParts { digit, body: None }),
        None => Answer::Stays(Outcome::Same),
    }
}

// The new body of a description's literal, if there is one with as many line ends as the old body has.
#[tactic(auto, using(crate::proofs::RewritingLemmas::AnswerLemmas::becomes, crate::proofs::RewritingLemmas::AnswerLemmas::no_body, crate::proofs::RewritingLemmas::AnswerLemmas::other_lines))]
fn respelled(
    alloc: Global,
    change: Change,
    source: &str,
    description: &SourceDescription,
    digit: Option<u8>,
    answer: &str,
) -> Result<Answer, AllocError>
    requires becoming { Becoming change description.now answer.now }
    requires other { answer.now ≢ text_of description.now }
    requires version { digit ≡ changes.new_digit change description.now.dialect }
    requires sayable { IsTrue (is_sayable description.now.version digit) }
    ensures { IfOk result (IsAnswer change source.now description.now) }
{
    let Some(body) = body_alike(alloc, source, description, answer.as_bytes())? else {
        return Ok(Answer::Stays(Outcome::NotALiteral));
    };
    if line_ends(&body) == old_line_ends(source, description) {
        Ok(Answer::Becomes(NewParts {
            digit,
            body: Some(body),
        }))
    } else {
        Ok(Answer::Stays(Outcome::NotALiteral))
    }
}

// Whether there is a place for the new digit, if the version changes.
fn is_sayable(position: VersionPosition, digit: Option<u8>) -> bool
    ensures { result ≡ is_sayable position digit }
{
    match digit {
        Some(_) => can_say(position),
        None => true,
    }
}

// Whether a number can say a version there.
fn can_say(position: VersionPosition) -> bool
    ensures { result ≡ spec.can_say position }
{
    match position {
        VersionPosition::Digit(_) | VersionPosition::Unsaid => true,
        VersionPosition::Call | VersionPosition::Elsewhere => false,
    }
}

fn line_ends(text: &[u8]) -> usize
    ensures { result ≡ line_ends text.now }
{
    text.iter().filter(|byte| **byte == b'\n').count()
}

// The number of line ends between the quotes of a description's literal.
fn old_line_ends(source: &str, description: &SourceDescription) -> usize
    ensures { result ≡ old_line_ends source.now description.now }
{
    match inside(source, description.piece, description.kind) {
        Some(inside) => line_ends(inside),
        None => 0,
    }
}
