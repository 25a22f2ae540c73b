//! Whether an object of JSON is a request, a notification, or another message.

ghost use Rattle.std.specs.Prelude.{◌≡◌, codes, IfOk, option_map, option_and_then};
ghost use Rattle.serde_json.specs.Find.{get, as_str};
ghost use Rattle.serde_json.specs.View.{view};
ghost use Rattle.timefd_lint_lsp.specs.Envelopes as spec;

use serde_json::Value;
use std::alloc::{AllocError, Global};

/// The id of a request, which its response repeats.
#[derive(Drop)]
pub enum Id {
    Number(i64),
    Text(String),
}

/// The message that a value of JSON is.
#[derive(Drop)]
pub enum Envelope<'a> {
    /// A request of this method. It has to be answered.
    Request(Id, &'a str),
    /// A notification of this method. It isn't answered.
    Notification(&'a str),
    /// A response. This server sends no requests, so it belongs to none.
    Response,
    /// None of these.
    Invalid,
}

/// The text of the member with this name. `None` if there is none or it isn't a text.
pub fn text_at<'a>(value: &'a Value, name: &str) -> Option<&'a str>
    ensures { option_map (λ text. text.now) result
        ≡ option_and_then as_str (get name.now (view value.now)) }
{
    match value.get(name) {
        Some(member) => member.as_str(),
        None => None,
    }
}

// Whether a value says that it is a message of JSON-RPC 2.0.
fn is_message(value: &Value) -> bool
    ensures { result ≡ spec.is_message (view value.now) }
{
    match text_at(value, "jsonrpc") {
        Some(version) => version == "2.0",
        None => false,
    }
}

// The id that a value is. `None` if it is neither an integer nor a text.
fn id_of(alloc: Global, value: &Value) -> Result<Option<Id>, AllocError>
    ensures { IfOk result (λ id. option_map spec.seen_id id ≡ spec.id_of (view value.now)) }
{
    if let Some(number) = value.as_i64() {
        return Ok(Some(Id::Number(number)));
    }
    match value.as_str() {
        Some(text) => Ok(Some(Id::Text(String::from_str(alloc, text)?))),
        None => Ok(None),
    }
}

/// The message that a value of JSON is. An `Err` says that memory ran out.
pub fn envelope_of<'a>(alloc: Global, value: &'a Value) -> Result<Envelope<'a>, AllocError>
    ensures { IfOk result (λ envelope. spec.seen envelope ≡ spec.envelope_of (view value.now)) }
{
    if !is_message(value) {
        return Ok(Envelope::Invalid);
    }
    match text_at(value, "method") {
        Some(method) => with_method(alloc, value, method),
        None if is_response(value) => Ok(Envelope::Response),
        None => Ok(Envelope::Invalid),
    }
}

fn is_response(value: &Value) -> bool
    ensures { result ≡ spec.is_response (view value.now) }
{
    value.get("result").is_some() || value.get("error").is_some()
}

fn with_method<'a>(
    alloc: Global,
    value: &Value,
    method: &'a str,
) -> Result<Envelope<'a>, AllocError>
    ensures { IfOk result (λ envelope. spec.seen envelope
        ≡ spec.with_method method.now (get (codes "id") (view value.now))) }
{
    let Some(member) = value.get("id") else {
        return Ok(Envelope::Notification(method));
    };
    match id_of(alloc, member)? {
        Some(id) => Ok(Envelope::Request(id, method)),
        None => Ok(Envelope::Invalid),
    }
}
