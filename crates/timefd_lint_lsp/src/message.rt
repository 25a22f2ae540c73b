//! Messages of an editor: requests and notifications.

ghost use Rattle.std.specs.Prelude.{◌≡◌, IfOk};
ghost use Rattle.serde_json.specs.View.{view};
ghost use Rattle.timefd_lint_lsp.specs.Messages as spec;

use crate::changes::{DocumentChange, changes_in};
use crate::editor::{DocumentPosition, DocumentRange, WantedActions};
use crate::envelope::{Envelope, Id, envelope_of};
use crate::params::{position_in, range_of, root_of, text_by, uri_of};
use crate::wanted::wanted_in;
use serde_json::Value;
use std::alloc::{AllocError, Global};

/// What a request asks for.
#[derive(Drop)]
pub enum EditorRequest {
    /// Begin. The editor may have a folder open, whose URI this is.
    Initialize {
        root: Option<String>,
    },
    /// What does the part of a document at this position mean?
    Hover {
        uri: String,
        position: DocumentPosition,
    },
    /// What may be written at this position of a document?
    Completion {
        uri: String,
        position: DocumentPosition,
    },
    /// What can be done to this range of a document, or to all of it, of what is wanted?
    Actions {
        uri: String,
        range: DocumentRange,
        wanted: WantedActions,
    },
    Shutdown,
    /// Something that this server doesn't do.
    Unknown,
    /// One of these methods, with wrong parameters.
    WrongParams,
}

/// What a notification reports.
#[derive(Drop)]
pub enum Notification {
    Opened {
        uri: String,
        language: String,
        text: String,
    },
    /// A document is changed, by one change after another.
    Changed {
        uri: String,
        changes: Vec<DocumentChange>,
    },
    Closed {
        uri: String,
    },
    Exit,
    /// Nothing that matters here.
    Other,
}

/// What the content of a frame is.
#[derive(Drop)]
pub enum Message {
    Request(Id, EditorRequest),
    Notification(Notification),
    /// It isn't JSON.
    NotJson,
    /// It is JSON, but not a message.
    NotMessage,
}

fn initialize_of(alloc: Global, value: &Value) -> Result<EditorRequest, AllocError>
    ensures { IfOk result (λ request. spec.seen_request request ≡ spec.initialize_of (view value.now)) }
{
    let Some(uri) = root_of(value) else {
        return Ok(EditorRequest::Initialize { root: None });
    };
    Ok(EditorRequest::Initialize {
        root: Some(String::from_str(alloc, uri)?),
    })
}

fn hover_of(alloc: Global, value: &Value) -> Result<EditorRequest, AllocError>
    ensures { IfOk result (λ request. spec.seen_request request ≡ spec.hover_of (view value.now)) }
{
    let Some(uri) = uri_of(value) else {
        return Ok(EditorRequest::WrongParams);
    };
    let Some(position) = position_in(value) else {
        return Ok(EditorRequest::WrongParams);
    };
    Ok(EditorRequest::Hover {
        uri: String::from_str(alloc, uri)?,
        position,
    })
}

fn completion_of(alloc: Global, value: &Value) -> Result<EditorRequest, AllocError>
    ensures { IfOk result (λ request. spec.seen_request request ≡ spec.completion_of (view value.now)) }
{
    let Some(uri) = uri_of(value) else {
        return Ok(EditorRequest::WrongParams);
    };
    let Some(position) = position_in(value) else {
        return Ok(EditorRequest::WrongParams);
    };
    Ok(EditorRequest::Completion {
        uri: String::from_str(alloc, uri)?,
        position,
    })
}

fn actions_of(alloc: Global, value: &Value) -> Result<EditorRequest, AllocError>
    ensures { IfOk result (λ request. spec.seen_request request
        ≡ spec.actions_of (view value.now)) }
{
    let Some(uri) = uri_of(value) else {
        return Ok(EditorRequest::WrongParams);
    };
    let Some(range) = range_of(value) else {
        return Ok(EditorRequest::WrongParams);
    };
    let wanted = wanted_in(value);
    Ok(EditorRequest::Actions {
        uri: String::from_str(alloc, uri)?,
        range,
        wanted,
    })
}

/// What a request of this method asks for. An `Err` says that memory ran out.
pub fn request_of(alloc: Global, method: &str, value: &Value) -> Result<EditorRequest, AllocError>
    ensures { IfOk result (λ request. spec.seen_request request
        ≡ spec.request_of method.now (view value.now)) }
{
    match method {
        "initialize" => initialize_of(alloc, value),
        "shutdown" => Ok(EditorRequest::Shutdown),
        "textDocument/hover" => hover_of(alloc, value),
        "textDocument/codeAction" => actions_of(alloc, value),
        "textDocument/completion" => completion_of(alloc, value),
        _ => Ok(EditorRequest::Unknown),
    }
}

fn opened_of(alloc: Global, value: &Value) -> Result<Notification, AllocError>
    ensures { IfOk result (λ reported. spec.seen_notification reported ≡ spec.opened_of (view value.now)) }
{
    let Some(uri) = uri_of(value) else {
        return Ok(Notification::Other);
    };
    let Some(language) = text_by(value, "/params/textDocument/languageId") else {
        return Ok(Notification::Other);
    };
    let Some(text) = text_by(value, "/params/textDocument/text") else {
        return Ok(Notification::Other);
    };
    Ok(Notification::Opened {
        uri: String::from_str(alloc, uri)?,
        language: String::from_str(alloc, language)?,
        text: String::from_str(alloc, text)?,
    })
}

fn changed_of(alloc: Global, value: &Value) -> Result<Notification, AllocError>
    ensures { IfOk result (λ reported. spec.seen_notification reported ≡ spec.changed_of (view value.now)) }
{
    let Some(uri) = uri_of(value) else {
        return Ok(Notification::Other);
    };
    let changes = changes_in(alloc, value)?;
    Ok(Notification::Changed {
        uri: String::from_str(alloc, uri)?,
        changes,
    })
}

fn closed_of(alloc: Global, value: &Value) -> Result<Notification, AllocError>
    ensures { IfOk result (λ reported. spec.seen_notification reported ≡ spec.closed_of (view value.now)) }
{
    let Some(uri) = uri_of(value) else {
        return Ok(Notification::Other);
    };
    Ok(Notification::Closed {
        uri: String::from_str(alloc, uri)?,
    })
}

/// What a notification of this method reports. An `Err` says that memory ran out.
pub fn notification_of(
    alloc: Global,
    method: &str,
    value: &Value,
) -> Result<Notification, AllocError>
    ensures { IfOk result (spec.IsNotification method.now (view value.now)) }
{
    match method {
        "exit" => Ok(Notification::Exit),
        "textDocument/didOpen" => opened_of(alloc, value),
        "textDocument/didChange" => changed_of(alloc, value),
        "textDocument/didClose" => closed_of(alloc, value),
        _ => Ok(Notification::Other),
    }
}

// The message that a value of JSON is.
fn message_of_value(alloc: Global, value: &Value) -> Result<Message, AllocError>
    ensures { IfOk result (λ message. spec.IsMessage message (view value.now)) }
{
    match envelope_of(alloc, value)? {
        Envelope::Request(id, method) => Ok(Message::Request(
            id,
            request_of(alloc, method, value)?,
        )),
        Envelope::Notification(method) => Ok(Message::Notification(notification_of(
            alloc, method, value,
        )?)),
        Envelope::Response => Ok(Message::Notification(Notification::Other)),
        Envelope::Invalid => Ok(Message::NotMessage),
    }
}

/// The message that the content of a frame is. An `Err` says that memory ran out.
pub fn message_of(alloc: Global, content: &[u8]) -> Result<Message, AllocError>
    ensures { IfOk result (λ message. spec.IsMessageOf message content.now) }
{
    match Value::from_slice(alloc, content) {
        Ok(value) => message_of_value(alloc, &value),
        Err(error) if error.is_memory() => Err(AllocError),
        Err(_) => Ok(Message::NotJson),
    }
}
