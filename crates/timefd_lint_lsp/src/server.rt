//! The server: it takes one message after another, and says what each leads to.

ghost use Rattle.std.specs.Prelude.{◌≡◌, IfOk, None, OnOk};
ghost use Rattle.timefd_lint_lsp.specs.Documents as opening;
ghost use Rattle.timefd_lint_lsp.specs.Servers as spec;

use crate::answering::answer_to;
use crate::documents::{DocumentKind, Documents};
use crate::message::Message;
use crate::reply::{RequestAnswer, RequestRefusal, ServerMessage};
use crate::reporting::reported;
use std::alloc::{AllocError, Global};
use timefd_lang_warnings::Levels;
use timefd_lint_scan::OwnCall;
use timefd_lint_scan::keys::DescriptionKey;
use timefd_lint_sources::{Finder, SourceText};

/// Which descriptions of a document are checked, and which warnings are reported.
#[derive(Clone, Copy)]
pub struct EditorSettings<'a> {
    /// The keys whose strings are descriptions in files with keys.
    pub keys: &'a [DescriptionKey<'a>],
    /// The calls of the project whose arguments are descriptions in Rust.
    pub calls: &'a [OwnCall],
    /// The level of each warning. `None` if no warning is reported.
    pub levels: Option<Levels>,
}

/// How far the session with the editor is.
#[derive(Clone, Copy, Debug, PartialEq, Eq)]
pub enum Phase {
    /// The editor hasn't sent `initialize` yet.
    New,
    Running,
    /// The editor has sent `shutdown`.
    ShutDown,
}

/// The state of the server.
#[derive(Drop)]
pub struct Server {
    pub phase: Phase,
    /// The URI of the folder that the editor has open, if it has named one.
    pub root: Option<String>,
    pub documents: Documents,
}

/// What a message leads to.
#[derive(Drop)]
pub enum SessionStep {
    Silent,
    Say(ServerMessage),
    Exit,
}

impl Server {
    /// A server that hasn't taken a message yet.
    pub fn new(alloc: Global) -> Server
        ensures phase { result.phase ≡ spec.first }
        ensures root { result.root ≡ None }
        ensures documents { opening.NoneOpen result.documents }
    {
        Server {
            phase: Phase::New,
            root: None,
            documents: Documents::new(alloc),
        }
    }
}

/// Takes a message, and returns what it leads to. An `Err` says that memory ran out.
pub fn take(
    alloc: Global,
    settings: EditorSettings<'_>,
    server: &mut Server,
    message: Message,
) -> Result<SessionStep, AllocError>
    ensures step { IfOk result (spec.IsStep settings.entry server.old.phase server.old.documents message) }
    ensures phase { OnOk result (server.new.phase ≡ spec.phase_after server.old.phase message) }
    ensures root { OnOk result (server.new.root ≡ spec.root_after server.old.phase message server.old.root) }
    ensures documents { OnOk result (opening.AreAfter server.old.phase message server.old.documents
        server.new.documents) }
{
    match message {
        Message::Request(id, request) => {
            let answer = answer_to(alloc, settings, server, request)?;
            Ok(SessionStep::Say(ServerMessage::Response {
                id: Some(id),
                answer,
            }))
        }
        Message::Notification(notification) => { reported(alloc, settings, server, notification) }
        Message::NotJson => Ok(unanswered(RequestRefusal::NotJson)),
        Message::NotMessage => Ok(unanswered(RequestRefusal::InvalidRequest)),
    }
}

/// The response to a content whose id isn't known.
pub fn unanswered(refusal: RequestRefusal) -> SessionStep
    ensures { result ≡ spec.unanswered refusal }
{
    SessionStep::Say(ServerMessage::Response {
        id: None,
        answer: RequestAnswer::Refused(refusal),
    })
}

/// A document as a source of descriptions.
pub fn source_of<'a>(
    settings: EditorSettings<'a>,
    uri: &'a str,
    kind: DocumentKind,
    text: &'a str,
) -> SourceText<'a>
    ensures text { result.text.now ≡ text.now }
    ensures finder { result.finder ≡ spec.finder_of settings.entry kind }
{
    let finder = match kind {
        DocumentKind::Rust => Finder::Rust(settings.calls),
        DocumentKind::Keys(format) => Finder::Keys(format, settings.keys),
    };
    SourceText {
        file: uri,
        finder,
        text,
        allowances: &[],
    }
}
