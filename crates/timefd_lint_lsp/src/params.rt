//! The parameters of a message.

ghost use Rattle.std.specs.Prelude.{◌≡◌, option_map};
ghost use Rattle.serde_json.specs.View.{items_view, view};
ghost use Rattle.timefd_lint_lsp.specs.Params as spec;

use crate::editor::{DocumentPosition, DocumentRange};
use serde_json::Value;

/// The text at a JSON pointer. `None` if there is none.
pub fn text_by<'a>(value: &'a Value, path: &str) -> Option<&'a str>
    ensures { option_map (λ text. text.now) result ≡ spec.text_by path.now (view value.now) }
{
    match value.pointer(path) {
        Some(member) => member.as_str(),
        None => None,
    }
}

// The number at a JSON pointer, if it isn't negative and has no fraction.
fn count_by(value: &Value, path: &str) -> Option<usize>
    ensures { result ≡ spec.count_by path.now (view value.now) }
{
    match value.pointer(path) {
        Some(member) => count_of(member.as_u64()),
        None => None,
    }
}

fn count_of(number: Option<u64>) -> Option<usize>
    ensures { result ≡ number }
{
    match number {
        Some(number) => Some(number as usize),
        None => None,
    }
}

// The position whose line and character are at these JSON pointers.
fn position_by(value: &Value, line: &str, character: &str) -> Option<DocumentPosition>
    ensures { result ≡ spec.position_by line.now character.now (view value.now) }
{
    let line = count_by(value, line)?;
    let character = count_by(value, character)?;
    Some(DocumentPosition { line, character })
}

// The range between two positions, if both exist.
fn range_from(
    start: Option<DocumentPosition>,
    end: Option<DocumentPosition>,
) -> Option<DocumentRange>
    ensures { result ≡ spec.range_from start end }
{
    let start = start?;
    let end = end?;
    Some(DocumentRange { start, end })
}

/// The range in a request's parameters.
pub fn range_of(value: &Value) -> Option<DocumentRange>
    ensures { result ≡ spec.range_of (view value.now) }
{
    let start = position_by(
        value,
        "/params/range/start/line",
        "/params/range/start/character",
    );
    let end = position_by(
        value,
        "/params/range/end/line",
        "/params/range/end/character",
    );
    range_from(start, end)
}

/// The range that a change of a document replaces.
pub fn range_in(change: &Value) -> Option<DocumentRange>
    ensures { result ≡ spec.range_in (view change.now) }
{
    let start = position_by(change, "/range/start/line", "/range/start/character");
    let end = position_by(change, "/range/end/line", "/range/end/character");
    range_from(start, end)
}

/// The position in a request's parameters.
pub fn position_in(value: &Value) -> Option<DocumentPosition>
    ensures { result ≡ spec.position_in (view value.now) }
{
    position_by(value, "/params/position/line", "/params/position/character")
}

/// The name of the document that a message is about.
pub fn uri_of(value: &Value) -> Option<&str>
    ensures { option_map (λ uri. uri.now) result ≡ spec.uri_of (view value.now) }
{
    text_by(value, "/params/textDocument/uri")
}

/// The URI of the folder that an editor has open: its root, or else the first of its folders.
pub fn root_of(value: &Value) -> Option<&str>
    ensures { option_map (λ uri. uri.now) result ≡ spec.root_of (view value.now) }
{
    match text_by(value, "/params/rootUri") {
        Some(uri) => Some(uri),
        None => text_by(value, "/params/workspaceFolders/0/uri"),
    }
}

/// The list of a document's changes.
pub fn changes_of(value: &Value) -> Option<&Vec<Value>>
    ensures { option_map (λ changes. items_view changes.now.items) result ≡ spec.changes_of (view value.now) }
{
    match value.pointer("/params/contentChanges") {
        Some(changes) => changes.as_array(),
        None => None,
    }
}
