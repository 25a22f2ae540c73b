//! What an editor shows, as values of JSON.

ghost use Rattle.std.specs.Prelude.{◌≡◌, IfOk};
ghost use Rattle.serde_json.specs.View.{view};
ghost use Rattle.timefd_lint_lsp.specs.Shown as spec;

use crate::editor::{
    Action, ActionKind, Completion, DocumentPosition, DocumentRange, Edit, Finding, Hover, Severity,
};
use serde_json::{Map, Value, json};
use std::alloc::{AllocError, Global};
use timefd_lint_diagnosis::Slot;

fn position_value(alloc: Global, position: DocumentPosition) -> Result<Value, AllocError>
    ensures { IfOk result (λ value. view value ≡ spec.position_data position) }
{
    let line = position.line as u64;
    let character = position.character as u64;
    json!(in alloc; {"character": character, "line": line})
}

fn range_value(alloc: Global, range: DocumentRange) -> Result<Value, AllocError>
    ensures { IfOk result (λ value. view value ≡ spec.range_data range) }
{
    let start = position_value(alloc, range.start)?;
    let end = position_value(alloc, range.end)?;
    json!(in alloc; {"end": end, "start": start})
}

// The number of a severity in the protocol.
fn severity_number(severity: Severity) -> u64
    ensures { result ≡ spec.severity_number severity }
{
    match severity {
        Severity::Error => 1,
        Severity::Warning => 2,
    }
}

fn finding_value(alloc: Global, finding: &Finding) -> Result<Value, AllocError>
    ensures { IfOk result (λ value. view value ≡ spec.finding_data finding.now) }
{
    let range = range_value(alloc, finding.range)?;
    let severity = severity_number(finding.severity);
    let code = finding.code;
    let message = finding.message.as_str();
    json!(in alloc; {
        "code": code,
        "message": message,
        "range": range,
        "severity": severity,
        "source": "timefd_lint"
    })
}

/// All that is wrong in a document.
pub fn findings_value(alloc: Global, findings: &[Finding]) -> Result<Value, AllocError>
    ensures { IfOk result (λ value. view value ≡ spec.findings_data findings.now) }
{
    let mut values = Vec::new(alloc);
    for finding in findings {
        values.push(finding_value(alloc, finding)?)?;
    }
    Ok(Value::Array(values))
}

fn loss(alloc: Global) -> Result<Value, AllocError>
    ensures { IfOk result (λ value. view value ≡ spec.loss) }
{
    let first = DocumentPosition {
        line: 0,
        character: 0,
    };
    let range = range_value(
        alloc,
        DocumentRange {
            start: first,
            end: first,
        },
    )?;
    let severity = severity_number(Severity::Warning);
    json!(in alloc; {
        "message": "a change of this document can't be made, so it isn't checked any more: close it and open it again",
        "range": range,
        "severity": severity,
        "source": "timefd_lint"
    })
}

/// That a document isn't checked any more, at its start.
pub fn loss_value(alloc: Global) -> Result<Value, AllocError>
    ensures { IfOk result (λ value. view value ≡ spec.loss_data) }
{
    let loss = loss(alloc)?;
    json!(in alloc; [loss])
}

// A text of Markdown.
fn markdown(alloc: Global, text: &str) -> Result<Value, AllocError>
    ensures { IfOk result (λ value. view value ≡ spec.markdown text.now) }
{
    json!(in alloc; {"kind": "markdown", "value": text})
}

/// What the part of a document at a position means.
pub fn hover_value(alloc: Global, hover: &Hover) -> Result<Value, AllocError>
    ensures { IfOk result (λ value. view value ≡ spec.hover_data hover.now) }
{
    let range = range_value(alloc, hover.range)?;
    let contents = markdown(alloc, hover.text.as_str())?;
    json!(in alloc; {"contents": contents, "range": range})
}

// The number of a kind of words in the protocol: a field, a property or a value.
fn kind_number(slot: Slot) -> u64
    ensures { result ≡ spec.kind_number slot }
{
    match slot {
        Slot::Name => 5,
        Slot::Key(_) => 10,
        Slot::Value(_) => 12,
    }
}

// A word in place of a range.
fn replacement(alloc: Global, range: DocumentRange, word: &str) -> Result<Value, AllocError>
    ensures { IfOk result (λ value. view value ≡ spec.replacement range word.now) }
{
    let range = range_value(alloc, range)?;
    json!(in alloc; {"newText": word, "range": range})
}

fn word_value(
    alloc: Global,
    range: DocumentRange,
    slot: Slot,
    word: &str,
) -> Result<Value, AllocError>
    ensures { IfOk result (λ value. view value ≡ spec.word_data range slot word.now) }
{
    let kind = kind_number(slot);
    let edit = replacement(alloc, range, word)?;
    json!(in alloc; {"kind": kind, "label": word, "textEdit": edit})
}

fn words_value(
    alloc: Global,
    range: DocumentRange,
    slot: Slot,
    words: &[&'static str],
) -> Result<Value, AllocError>
    ensures { IfOk result (λ value. view value ≡ spec.words_data range slot words.now) }
{
    let mut values = Vec::new(alloc);
    for word in words {
        values.push(word_value(alloc, range, slot, word)?)?;
    }
    Ok(Value::Array(values))
}

/// What may be written at a position.
pub fn completion_value(alloc: Global, completion: &Completion) -> Result<Value, AllocError>
    ensures { IfOk result (λ value. view value ≡ spec.completion_data completion.now) }
{
    words_value(alloc, completion.range, completion.slot, &completion.words)
}

fn edit_value(alloc: Global, edit: &Edit) -> Result<Value, AllocError>
    ensures { IfOk result (λ value. view value ≡ spec.edit_data edit.now) }
{
    let range = range_value(alloc, edit.range)?;
    let text = edit.text.as_str();
    json!(in alloc; {"newText": text, "range": range})
}

// Edits, as a list.
fn edit_list(alloc: Global, edits: &[Edit]) -> Result<Value, AllocError>
    ensures { IfOk result (λ value. view value ≡ spec.edit_list edits.now) }
{
    let mut values = Vec::new(alloc);
    for edit in edits {
        values.push(edit_value(alloc, edit)?)?;
    }
    Ok(Value::Array(values))
}

// The edits of one document.
fn edits_value(alloc: Global, uri: &str, edits: &[Edit]) -> Result<Value, AllocError>
    ensures { IfOk result (λ value. view value ≡ spec.edits_data uri.now edits.now) }
{
    let list = edit_list(alloc, edits)?;
    let mut changes = Map::new(alloc);
    serde_json::put(&mut changes, alloc, uri, list)?;
    Ok(Value::Object(changes))
}

fn kind_name(kind: ActionKind) -> &'static str
    ensures { result.now ≡ spec.kind_name kind }
{
    match kind {
        ActionKind::QuickFix | ActionKind::Guess => "quickfix",
        ActionKind::Rewrite => "refactor.rewrite",
        ActionKind::FixAll => "source.fixAll.timefd",
    }
}

// Whether an editor may apply the action without asking.
fn is_preferred(kind: ActionKind) -> bool
    ensures { result ≡ spec.is_preferred kind }
{
    match kind {
        ActionKind::QuickFix => true,
        ActionKind::Guess | ActionKind::Rewrite | ActionKind::FixAll => false,
    }
}

// Changes of documents.
fn changes_value(alloc: Global, edits: Value) -> Result<Value, AllocError>
    ensures { IfOk result (λ value. view value ≡ spec.changes_data (view edits)) }
{
    json!(in alloc; {"changes": edits})
}

fn action_value(alloc: Global, uri: &str, action: &Action) -> Result<Value, AllocError>
    ensures { IfOk result (λ value. view value ≡ spec.action_data uri.now action.now) }
{
    let edits = edits_value(alloc, uri, &action.edits)?;
    let edit = changes_value(alloc, edits)?;
    let preferred = is_preferred(action.kind);
    let kind = kind_name(action.kind);
    let title = action.title.as_str();
    json!(in alloc; {"edit": edit, "isPreferred": preferred, "kind": kind, "title": title})
}

/// What can be done to the document with this name.
pub fn actions_value(alloc: Global, uri: &str, actions: &[Action]) -> Result<Value, AllocError>
    ensures { IfOk result (λ value. view value ≡ spec.actions_data uri.now actions.now) }
{
    let mut values = Vec::new(alloc);
    for action in actions {
        values.push(action_value(alloc, uri, action)?)?;
    }
    Ok(Value::Array(values))
}
