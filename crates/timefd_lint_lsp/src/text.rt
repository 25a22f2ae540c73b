//! The server's messages, as texts of JSON.

ghost use Rattle.std.specs.Prelude.{◌≡◌, IfOk, string_bytes};
ghost use Rattle.serde_json.specs.View.{view};
ghost use Rattle.serde_json.specs.Written.{compact_text};
ghost use Rattle.timefd_lint_lsp.specs.Texts as spec;

use crate::envelope::Id;
use crate::reply::{RequestAnswer, RequestRefusal, ServerMessage, code_of, sentence_of};
use crate::shown::{actions_value, completion_value, findings_value, hover_value, loss_value};
use serde_json::{Value, json};
use std::alloc::{AllocError, Global};

/// The text of a reply: its JSON, without white space. An `Err` says that memory ran out.
#[tactic(auto, using(crate::proofs::TextLemmas::written))]
pub fn text_of(alloc: Global, reply: &ServerMessage) -> Result<String, AllocError>
    ensures { IfOk result (λ text. string_bytes text ≡ compact_text (spec.reply_data reply.now)) }
{
    value_of(alloc, reply)?.to_string(alloc)
}

fn value_of(alloc: Global, reply: &ServerMessage) -> Result<Value, AllocError>
    ensures { IfOk result (λ value. view value ≡ spec.reply_data reply.now) }
{
    match reply {
        ServerMessage::Response { id, answer } => response(alloc, id, answer),
        ServerMessage::Findings { uri, findings } => {
            let findings = findings_value(alloc, findings)?;
            published(alloc, uri, findings)
        }
        ServerMessage::Lost { uri } => {
            let findings = loss_value(alloc)?;
            published(alloc, uri, findings)
        }
    }
}

fn response(alloc: Global, id: &Option<Id>, answer: &RequestAnswer) -> Result<Value, AllocError>
    ensures { IfOk result (λ value. view value ≡ spec.response (spec.id_data id.now) answer.now) }
{
    let id = id_value(alloc, id)?;
    match answer {
        RequestAnswer::Refused(refusal) => refused(alloc, id, *refusal),
        RequestAnswer::Capabilities => {
            let capabilities = capabilities(alloc)?;
            answered(alloc, id, capabilities)
        }
        RequestAnswer::Nothing => answered(alloc, id, Value::Null),
        RequestAnswer::Hover(hover) => {
            let hover = hover_value(alloc, hover)?;
            answered(alloc, id, hover)
        }
        RequestAnswer::Completion(completion) => {
            let completion = completion_value(alloc, completion)?;
            answered(alloc, id, completion)
        }
        RequestAnswer::Actions { uri, actions } => {
            let actions = actions_value(alloc, uri, actions)?;
            answered(alloc, id, actions)
        }
    }
}

fn id_value(alloc: Global, id: &Option<Id>) -> Result<Value, AllocError>
    ensures { IfOk result (λ value. view value ≡ spec.id_data id.now) }
{
    match id {
        None => Ok(Value::Null),
        Some(Id::Number(number)) => Ok(Value::from(*number)),
        Some(Id::Text(text)) => Ok(Value::String(String::from_str(alloc, text.as_str())?)),
    }
}

// A response with the result of a request.
fn answered(alloc: Global, id: Value, outcome: Value) -> Result<Value, AllocError>
    ensures { IfOk result (λ value. view value ≡ spec.answered (view id) (view outcome)) }
{
    json!(in alloc; {"id": id, "jsonrpc": "2.0", "result": outcome})
}

// The error of a response: why the request is refused.
fn error_value(alloc: Global, refusal: RequestRefusal) -> Result<Value, AllocError>
    ensures { IfOk result (λ value. view value ≡ spec.error_data refusal) }
{
    let code = code_of(refusal);
    let message = sentence_of(refusal);
    json!(in alloc; {"code": code, "message": message})
}

// A response that refuses a request.
fn refused(alloc: Global, id: Value, refusal: RequestRefusal) -> Result<Value, AllocError>
    ensures { IfOk result (λ value. view value ≡ spec.refused (view id) refusal) }
{
    let error = error_value(alloc, refusal)?;
    json!(in alloc; {"error": error, "id": id, "jsonrpc": "2.0"})
}

// The parameters of a notification with what is wrong.
fn published_of(alloc: Global, uri: &str, findings: Value) -> Result<Value, AllocError>
    ensures { IfOk result (λ value. view value ≡ spec.published_of uri.now (view findings)) }
{
    json!(in alloc; {"diagnostics": findings, "uri": uri})
}

// What is wrong in a document, as a notification.
fn published(alloc: Global, uri: &str, findings: Value) -> Result<Value, AllocError>
    ensures { IfOk result (λ value. view value ≡ spec.published uri.now (view findings)) }
{
    let params = published_of(alloc, uri, findings)?;
    json!(in alloc; {
        "jsonrpc": "2.0",
        "method": "textDocument/publishDiagnostics",
        "params": params
    })
}

// The kinds of actions that an editor may ask for.
fn action_kinds(alloc: Global) -> Result<Value, AllocError>
    ensures { IfOk result (λ value. view value ≡ spec.action_kinds) }
{
    json!(in alloc; {"codeActionKinds": ["quickfix", "refactor.rewrite", "source.fixAll.timefd"]})
}

// After which characters an editor asks what may be written.
fn trigger_characters(alloc: Global) -> Result<Value, AllocError>
    ensures { IfOk result (λ value. view value ≡ spec.trigger_characters) }
{
    json!(in alloc; {"triggerCharacters": ["[", " ", ":"]})
}

// What the server provides. It takes changes of ranges, and counts characters in UTF-16.
fn provided(alloc: Global) -> Result<Value, AllocError>
    ensures { IfOk result (λ value. view value ≡ spec.provided) }
{
    let kinds = action_kinds(alloc)?;
    let characters = trigger_characters(alloc)?;
    json!(in alloc; {
        "codeActionProvider": kinds,
        "completionProvider": characters,
        "hoverProvider": true,
        "positionEncoding": "utf-16",
        "textDocumentSync": 2u64
    })
}

fn server(alloc: Global) -> Result<Value, AllocError>
    ensures { IfOk result (λ value. view value ≡ spec.server) }
{
    json!(in alloc; {"name": "timefd_lint", "version": "0.2.0"})
}

// The server's capabilities, its name and its version.
fn capabilities(alloc: Global) -> Result<Value, AllocError>
    ensures { IfOk result (λ value. view value ≡ spec.capabilities) }
{
    let provided = provided(alloc)?;
    let server = server(alloc)?;
    json!(in alloc; {"capabilities": provided, "serverInfo": server})
}
