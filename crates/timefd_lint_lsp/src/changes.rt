//! The changes of a document that a notification reports, and the text after them.

ghost use Rattle.std.specs.Prelude.{◌≡◌, IfOk, map, option_map, string_bytes};
ghost use Rattle.serde_json.specs.View.{items_view, view};
ghost use Rattle.timefd_lint_lsp.specs.Changes as spec;

use crate::editor::{DocumentRange, replaced};
use crate::envelope::text_at;
use crate::params::{changes_of, range_in};
use serde_json::Value;
use std::alloc::{AllocError, Global};

/// A change of a document.
#[derive(Drop)]
pub enum DocumentChange {
    /// The whole text is replaced.
    Whole(String),
    /// A range of the text is replaced.
    Part(DocumentRange, String),
    /// It has no text, or its range isn't one.
    Unreadable,
}

/// The changes that a notification reports, in order. If it has no list of changes, it has one that can't be
/// read. An `Err` says that memory ran out.
pub fn changes_in(alloc: Global, value: &Value) -> Result<Vec<DocumentChange>, AllocError>
    ensures { IfOk result (λ changes. map spec.seen changes.items ≡ spec.changes_in (view value.now)) }
{
    match changes_of(value) {
        Some(values) => all_changes(alloc, values),
        None => unreadable(alloc),
    }
}

fn unreadable(alloc: Global) -> Result<Vec<DocumentChange>, AllocError>
    ensures { IfOk result (λ changes. map spec.seen changes.items ≡ spec.none_readable) }
{
    let mut changes = Vec::new(alloc);
    changes.push(DocumentChange::Unreadable)?;
    Ok(changes)
}

fn all_changes(alloc: Global, values: &[Value]) -> Result<Vec<DocumentChange>, AllocError>
    ensures { IfOk result (λ changes. map spec.seen changes.items ≡ spec.all_changes (items_view values.now)) }
{
    let mut changes = Vec::new(alloc);
    for value in values {
        changes.push(change_of(alloc, value)?)?;
    }
    Ok(changes)
}

fn change_of(alloc: Global, value: &Value) -> Result<DocumentChange, AllocError>
    ensures { IfOk result (λ change. spec.seen change ≡ spec.change_of (view value.now)) }
{
    let Some(text) = text_at(value, "text") else {
        return Ok(DocumentChange::Unreadable);
    };
    if value.get("range").is_none() {
        return Ok(DocumentChange::Whole(String::from_str(alloc, text)?));
    }
    match range_in(value) {
        Some(range) => Ok(DocumentChange::Part(range, String::from_str(alloc, text)?)),
        None => Ok(DocumentChange::Unreadable),
    }
}

/// The text of a document after some changes, each of the text that the one before made. `None` if one of them
/// can't be read, or has a range that isn't in its text. An `Err` says that memory ran out.
pub fn after_all(
    alloc: Global,
    text: &str,
    changes: &[DocumentChange],
) -> Result<Option<String>, AllocError>
    ensures { IfOk result (λ after. option_map string_bytes after ≡ spec.after_all text.now changes.now) }
{
    let mut current = String::from_str(alloc, text)?;
    for change in changes {
        match after(alloc, &current, change)? {
            Some(next) => current = next,
            None => return Ok(None),
        }
    }
    Ok(Some(current))
}

fn after(alloc: Global, text: &str, change: &DocumentChange) -> Result<Option<String>, AllocError>
    ensures { IfOk result (λ after. option_map string_bytes after ≡ spec.after text.now change.now) }
{
    match change {
        DocumentChange::Whole(new) => Ok(Some(String::from_str(alloc, new.as_str())?)),
        DocumentChange::Part(range, new) => replaced(alloc, text, *range, new.as_str()),
        DocumentChange::Unreadable => Ok(None),
    }
}
