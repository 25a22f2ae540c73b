//! What notifications lead to.

ghost use Rattle.std.specs.Prelude.{◌≡◌, IfOk, OnOk, None, string_bytes};
ghost use Rattle.timefd_lint_lsp.specs.Documents as opening;
ghost use Rattle.timefd_lint_lsp.specs.Servers as spec;

use crate::changes::{DocumentChange, after_all};
use crate::documents::{Document, DocumentKind, Documents, change, close, kind_of, open};
use crate::editor::{Finding, findings};
use crate::message::Notification;
use crate::reply::ServerMessage;
use crate::server::{EditorSettings, Phase, Server, SessionStep, source_of};
use std::alloc::{AllocError, Global};

/// What a notification leads to. Before `initialize` and after `shutdown` only `exit` leads to anything. An
/// `Err` says that memory ran out.
pub fn reported(
    alloc: Global,
    settings: EditorSettings<'_>,
    server: &mut Server,
    notification: Notification,
) -> Result<SessionStep, AllocError>
    ensures step { IfOk result (spec.IsReported settings.entry server.old.phase server.old.documents notification) }
    ensures phase { OnOk result (server.new.phase ≡ server.old.phase) }
    ensures root { OnOk result (server.new.root ≡ server.old.root) }
    ensures documents { OnOk result (opening.AreReported server.old.phase notification server.old.documents
        server.new.documents) }
{
    match server.phase {
        Phase::New | Phase::ShutDown => Ok(unheard(&notification)),
        Phase::Running => heard(alloc, settings, server, notification),
    }
}

fn unheard(notification: &Notification) -> SessionStep
    ensures { result ≡ spec.unheard notification.now }
{
    match notification {
        Notification::Exit => SessionStep::Exit,
        Notification::Opened { .. }
        | Notification::Changed { .. }
        | Notification::Closed { .. }
        | Notification::Other => SessionStep::Silent,
    }
}

fn heard(
    alloc: Global,
    settings: EditorSettings<'_>,
    server: &mut Server,
    notification: Notification,
) -> Result<SessionStep, AllocError>
    ensures step { IfOk result (spec.IsHeard settings.entry server.old.documents notification) }
    ensures phase { OnOk result (server.new.phase ≡ server.old.phase) }
    ensures root { OnOk result (server.new.root ≡ server.old.root) }
    ensures documents { OnOk result (opening.AreHeard notification server.old.documents server.new.documents) }
{
    match notification {
        Notification::Opened {
            uri,
            language,
            text,
        } => opened(alloc, settings, &mut server.documents, uri, &language, text),
        Notification::Changed { uri, changes } => {
            changed(alloc, settings, &mut server.documents, uri, &changes)
        }
        Notification::Closed { uri } => Ok(closed(alloc, &mut server.documents, uri)),
        Notification::Exit => Ok(SessionStep::Exit),
        Notification::Other => Ok(SessionStep::Silent),
    }
}

// All that is wrong in a document.
fn findings_in(
    alloc: Global,
    settings: EditorSettings<'_>,
    uri: &str,
    kind: DocumentKind,
    text: &str,
) -> Result<Vec<Finding>, AllocError>
    ensures { IfOk result (λ found. spec.AreWrongIn settings.entry kind text.now found.items) }
{
    findings(alloc, source_of(settings, uri, kind, text), settings.levels)
}

fn said(uri: String, findings: Vec<Finding>) -> SessionStep
    ensures { result ≡ spec.said uri findings }
{
    SessionStep::Say(ServerMessage::Findings { uri, findings })
}

// Opens a document, if it is one that is checked, and reports what is wrong in it.
fn opened(
    alloc: Global,
    settings: EditorSettings<'_>,
    documents: &mut Documents,
    uri: String,
    language: &str,
    text: String,
) -> Result<SessionStep, AllocError>
    ensures step { IfOk result (spec.IsOpened settings.entry (string_bytes uri) language.now (string_bytes text)) }
    ensures documents { OnOk result (opening.AreOpened (string_bytes uri) language.now text documents.old
        documents.new) }
{
    let Some(kind) = kind_of(language, &uri) else {
        return Ok(SessionStep::Silent);
    };
    let findings = findings_in(alloc, settings, &uri, kind, &text)?;
    let name = String::from_str(alloc, &uri)?;
    open(documents, name, Document { kind, text })?;
    Ok(said(uri, findings))
}

// Makes changes of an open document, and reports what is wrong in it. A document with a change that can't be
// made is closed.
#[tactic(auto, using(crate::proofs::ChangedLemmas::not_open, crate::proofs::ChangedLemmas::are_not_open, crate::proofs::ChangedLemmas::made, crate::proofs::ChangedLemmas::are_made, crate::proofs::ChangedLemmas::failed, crate::proofs::ChangedLemmas::are_failed))]
fn changed(
    alloc: Global,
    settings: EditorSettings<'_>,
    documents: &mut Documents,
    uri: String,
    changes: &[DocumentChange],
) -> Result<SessionStep, AllocError>
    ensures step { IfOk result (spec.IsChangedOf settings.entry (string_bytes uri) changes.now documents.old) }
    ensures documents { OnOk result (opening.AreChanged (string_bytes uri) changes.now documents.old documents.new) }
{
    let Some(document) = documents.get(uri.as_str()) else {
        return Ok(SessionStep::Silent);
    };
    let kind = document.kind;
    match after_all(alloc, document.text.as_str(), changes)? {
        Some(text) => {
            let step = with_text(alloc, settings, documents, uri, kind, text)?;
            Ok(step)
        }
        None => Ok(lost(documents, uri)),
    }
}

// Replaces the text of an open document, and reports what is wrong in it.
fn with_text(
    alloc: Global,
    settings: EditorSettings<'_>,
    documents: &mut Documents,
    uri: String,
    kind: DocumentKind,
    new: String,
) -> Result<SessionStep, AllocError>
    ensures step { IfOk result (spec.IsSaidOf settings.entry kind (string_bytes new) (string_bytes uri)) }
    ensures documents { OnOk result (opening.AreWithText (string_bytes uri) new documents.old documents.new) }
{
    let findings = findings_in(alloc, settings, &uri, kind, &new)?;
    change(documents, &uri, new);
    Ok(said(uri, findings))
}

// Closes a document whose text isn't known any more, and says so.
fn lost(documents: &mut Documents, uri: String) -> SessionStep
    ensures step { result ≡ spec.lost uri }
    ensures documents { opening.AreWith (string_bytes uri) None documents.old documents.new }
{
    close(documents, &uri);
    SessionStep::Say(ServerMessage::Lost { uri })
}

// Closes a document, and withdraws what was reported about it.
#[tactic(auto, using(crate::proofs::ClosedLemmas::was_open, crate::proofs::ClosedLemmas::was_not_open))]
fn closed(alloc: Global, documents: &mut Documents, uri: String) -> SessionStep
    ensures step { spec.IsClosed (string_bytes uri) documents.old result }
    ensures documents { opening.AreWith (string_bytes uri) None documents.old documents.new }
{
    if close(documents, &uri) {
        return said(uri, Vec::new(alloc));
    }
    SessionStep::Silent
}
