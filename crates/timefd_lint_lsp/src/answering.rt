//! How requests are answered.

ghost use Rattle.std.specs.Prelude.{◌≡◌, IfOk, OnOk, None, string_bytes};
ghost use Rattle.std.specs.BTreeMap.{get_by_text};
ghost use Rattle.timefd_lint_lsp.specs.Replies.{refusal_of};
ghost use Rattle.timefd_lint_lsp.specs.Servers as spec;

use crate::documents::Documents;
use crate::editor::{
    DocumentPosition, DocumentRange, WantedActions, actions, complete, hover, index_of,
};
use crate::message::EditorRequest;
use crate::reply::{RequestAnswer, RequestRefusal};
use crate::server::{EditorSettings, Phase, Server, source_of};
use std::alloc::{AllocError, Global};

/// The answer to a request.
pub fn answer_to(
    alloc: Global,
    settings: EditorSettings<'_>,
    server: &mut Server,
    request: EditorRequest,
) -> Result<RequestAnswer, AllocError>
    ensures refusal { IfOk result (λ answer. refusal_of answer
        ≡ spec.refusal server.old.phase request) }
    ensures answer { IfOk result (spec.IsAnswer settings.entry server.old.phase server.old.documents request) }
    ensures phase { OnOk result (server.new.phase ≡ spec.phase_after_request server.old.phase request) }
    ensures root { OnOk result (server.new.root ≡ spec.root_after_request server.old.phase request server.old.root) }
    ensures documents { server.new.documents ≡ server.old.documents }
{
    match server.phase {
        Phase::New => Ok(first_answer(server, request)),
        Phase::Running => running_answer(alloc, settings, server, request),
        Phase::ShutDown => Ok(RequestAnswer::Refused(RequestRefusal::InvalidRequest)),
    }
}

// The answer to the first request.
fn first_answer(server: &mut Server, request: EditorRequest) -> RequestAnswer
    ensures refusal { refusal_of result ≡ spec.first_refusal request }
    ensures answer { spec.IsFirstAnswer request result }
    ensures phase { server.new.phase ≡ spec.first_phase server.old.phase request }
    ensures root { server.new.root ≡ spec.first_root request server.old.root }
    ensures documents { server.new.documents ≡ server.old.documents }
{
    match request {
        EditorRequest::Initialize { root } => {
            server.phase = Phase::Running;
            server.root = root;
            RequestAnswer::Capabilities
        }
        EditorRequest::Hover { .. }
        | EditorRequest::Completion { .. }
        | EditorRequest::Actions { .. }
        | EditorRequest::Shutdown
        | EditorRequest::Unknown
        | EditorRequest::WrongParams => RequestAnswer::Refused(RequestRefusal::NotInitialized),
    }
}

fn running_answer(
    alloc: Global,
    settings: EditorSettings<'_>,
    server: &mut Server,
    request: EditorRequest,
) -> Result<RequestAnswer, AllocError>
    ensures refusal { IfOk result (λ answer. refusal_of answer ≡ spec.running_refusal request) }
    ensures answer { IfOk result (spec.IsRunningAnswer settings.entry server.old.documents request) }
    ensures phase { OnOk result (server.new.phase ≡ spec.running_phase server.old.phase request) }
    ensures root { OnOk result (server.new.root ≡ server.old.root) }
    ensures documents { server.new.documents ≡ server.old.documents }
{
    match request {
        EditorRequest::Initialize { .. } => Ok(RequestAnswer::Refused(
            RequestRefusal::InvalidRequest,
        )),
        EditorRequest::Hover { uri, position } => {
            hover_at(alloc, settings, &server.documents, &uri, position)
        }
        EditorRequest::Completion { uri, position } => {
            completion_at(alloc, settings, &server.documents, &uri, position)
        }
        EditorRequest::Actions { uri, range, wanted } => {
            actions_in(alloc, settings, &server.documents, uri, range, wanted)
        }
        EditorRequest::Shutdown => {
            server.phase = Phase::ShutDown;
            Ok(RequestAnswer::Nothing)
        }
        EditorRequest::Unknown => Ok(RequestAnswer::Refused(RequestRefusal::UnknownMethod)),
        EditorRequest::WrongParams => Ok(RequestAnswer::Refused(RequestRefusal::WrongParams)),
    }
}

// The answer to a hover request: what the part of a document at a position means.
fn hover_at(
    alloc: Global,
    settings: EditorSettings<'_>,
    documents: &Documents,
    uri: &str,
    position: DocumentPosition,
) -> Result<RequestAnswer, AllocError>
    ensures refusal { IfOk result (λ answer. refusal_of answer ≡ None) }
    ensures answer { IfOk result (spec.IsHoverAnswer settings.entry (get_by_text documents.now uri.now) position) }
{
    let Some(document) = documents.get(uri) else {
        return Ok(RequestAnswer::Nothing);
    };
    let text = document.text.as_str();
    let source = source_of(settings, uri, document.kind, text);
    match hover(alloc, source, index_of(text, position))? {
        Some(hover) => Ok(RequestAnswer::Hover(hover)),
        None => Ok(RequestAnswer::Nothing),
    }
}

// The answer to a request for completion: what may be written at a position of a document.
fn completion_at(
    alloc: Global,
    settings: EditorSettings<'_>,
    documents: &Documents,
    uri: &str,
    position: DocumentPosition,
) -> Result<RequestAnswer, AllocError>
    ensures refusal { IfOk result (λ answer. refusal_of answer ≡ None) }
    ensures answer { IfOk result (spec.IsCompletionAnswer settings.entry (get_by_text documents.now uri.now) position) }
{
    let Some(document) = documents.get(uri) else {
        return Ok(RequestAnswer::Nothing);
    };
    let text = document.text.as_str();
    let source = source_of(settings, uri, document.kind, text);
    match complete(alloc, source, index_of(text, position))? {
        Some(completion) => Ok(RequestAnswer::Completion(completion)),
        None => Ok(RequestAnswer::Nothing),
    }
}

// The answer to a request for actions in a range of a document, as far as they are wanted.
fn actions_in(
    alloc: Global,
    settings: EditorSettings<'_>,
    documents: &Documents,
    uri: String,
    range: DocumentRange,
    wanted: WantedActions,
) -> Result<RequestAnswer, AllocError>
    ensures refusal { IfOk result (λ answer. refusal_of answer ≡ None) }
    ensures answer { IfOk result (spec.IsActionsAnswer settings.entry
        (get_by_text documents.now (string_bytes uri)) uri range wanted) }
{
    let Some(document) = documents.get(uri.as_str()) else {
        return Ok(RequestAnswer::Nothing);
    };
    let text = document.text.as_str();
    let source = source_of(settings, &uri, document.kind, text);
    let start = index_of(text, range.start);
    let end = index_of(text, range.end);
    let actions = actions(alloc, source, wanted, start, end)?;
    Ok(RequestAnswer::Actions { uri, actions })
}
