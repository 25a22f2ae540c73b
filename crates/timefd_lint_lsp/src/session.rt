//! A session with an editor, from its first byte to its last.

ghost use Rattle.std.specs.Prelude.{◌≡◌, Some, IfOk, IsTrue};
ghost use Rattle.timefd_lint_lsp.specs.Servers.{first};
ghost use Rattle.timefd_lint_lsp.specs.Sessions as spec;
ghost use Rattle.timefd_lint_lsp.specs.declared.session.SessionEnd.{SessionEnd};
ghost use Rattle.timefd_lint_lsp.specs.declared.server.EditorSettings.{EditorSettings};

use crate::frame::{MessageFrame, WriteError, read_frame, write_frame};
use crate::message::message_of;
use crate::reply::{RequestRefusal, ServerMessage};
use crate::server::{EditorSettings, Phase, Server, SessionStep, take, unanswered};
use crate::text::text_of;
use std::alloc::{AllocError, Global};
use timefd_bin_streams::transfer::TransferError;
use timefd_bin_streams::{Sink, Source};

/// How a session ends.
#[derive(Clone, Copy, Debug, PartialEq, Eq)]
pub enum SessionEnd {
    /// The editor sent `exit` after `shutdown`.
    Done,
    /// The editor sent `exit` without `shutdown`.
    Left,
    /// The input ended.
    InputEnded,
    /// The input ended within a frame.
    Cut,
    /// The input isn't a frame.
    NoFrame,
    /// The input can't be read.
    Unread,
    /// The output can't be written.
    Unwritten,
    /// Memory ran out.
    Memory,
}

/// Answers an editor until it has sent `initialize`: the server then has the folder that the editor has open. `Some` if the
/// session ends before. It writes whole frames, unless a write fails.
#[tactic(auto, using(crate::proofs::SessionLemmas::none_written))]
pub fn greet<R: Source, W: Sink>(
    alloc: Global,
    server: &mut Server,
    source: &mut R,
    sink: &mut W,
) -> Option<SessionEnd>
    requires { server.old.phase ≡ first }
    ensures frames { spec.IsTurn (W.contents sink.old) (W.contents sink.new) result }
    ensures greeted { (settings : EditorSettings) × spec.IsGreeted settings
        (spec.at (R.remaining source.old) (W.contents sink.old) server.old)
        (spec.at (R.remaining source.new) (W.contents sink.new) server.new) result }
    ensures unread { result ≡ Some SessionEnd.Unread → IsTrue (R.has_failed source.new) }
    ensures unwritten { result ≡ Some SessionEnd.Unwritten → IsTrue (W.has_failed sink.new) }
{
    // No answer before `initialize` depends on the settings.
    let nothing = EditorSettings {
        keys: &[],
        calls: &[],
        levels: None,
    };
    'greeting: for _ in 0..u64::MAX {
        if let Some(end) = turn(alloc, nothing, server, source, sink) {
            return Some(end);
        }
        if server.phase != Phase::New {
            return None;
        }
    }
    Some(SessionEnd::InputEnded)
}

/// Serves an editor until the session ends, and returns how. It writes whole frames, unless a write fails.
#[tactic(auto, using(crate::proofs::ServedLemmas::from_new))]
pub fn serve<R: Source, W: Sink>(
    alloc: Global,
    settings: EditorSettings<'_>,
    source: &mut R,
    sink: &mut W,
) -> SessionEnd
    ensures frames { spec.IsSession (W.contents sink.old) (W.contents sink.new) result }
    ensures served { spec.IsServed settings.entry (R.remaining source.old) (W.contents sink.old)
        (R.remaining source.new) (W.contents sink.new) result }
    ensures unread { result ≡ SessionEnd.Unread → IsTrue (R.has_failed source.new) }
    ensures unwritten { result ≡ SessionEnd.Unwritten → IsTrue (W.has_failed sink.new) }
{
    let mut server = Server::new(alloc);
    serve_on(alloc, settings, &mut server, source, sink)
}

/// Serves an editor from here on until the session ends, and returns how. It writes whole frames, unless a write fails.
#[tactic(auto, using(crate::proofs::SessionLemmas::none_written))]
pub fn serve_on<R: Source, W: Sink>(
    alloc: Global,
    settings: EditorSettings<'_>,
    server: &mut Server,
    source: &mut R,
    sink: &mut W,
) -> SessionEnd
    ensures frames { spec.IsSession (W.contents sink.old) (W.contents sink.new) result }
    ensures served { spec.IsServedFrom settings.entry server.old (R.remaining source.old) (W.contents sink.old)
        (R.remaining source.new) (W.contents sink.new) result }
    ensures unread { result ≡ SessionEnd.Unread → IsTrue (R.has_failed source.new) }
    ensures unwritten { result ≡ SessionEnd.Unwritten → IsTrue (W.has_failed sink.new) }
{
    'frames: for _ in 0..u64::MAX {
        match turn(alloc, settings, server, source, sink) {
            Some(end) => return end,
            None => {}
        }
    }
    SessionEnd::InputEnded
}

// Takes one frame. `Some` if the session ends.
#[tactic(auto, using(crate::proofs::SessionLemmas::none_written))]
fn turn<R: Source, W: Sink>(
    alloc: Global,
    settings: EditorSettings<'_>,
    server: &mut Server,
    source: &mut R,
    sink: &mut W,
) -> Option<SessionEnd>
    ensures frames { spec.IsTurn (W.contents sink.old) (W.contents sink.new) result }
    ensures turn { spec.IsStepped settings.entry (spec.at (R.remaining source.old) (W.contents sink.old) server.old)
        (spec.at (R.remaining source.new) (W.contents sink.new) server.new) result }
    ensures unread { result ≡ Some SessionEnd.Unread → IsTrue (R.has_failed source.new) }
    ensures unwritten { result ≡ Some SessionEnd.Unwritten → IsTrue (W.has_failed sink.new) }
{
    match read_frame(alloc, source) {
        Ok(MessageFrame::Content(content)) => taken(alloc, settings, server, &content, sink),
        Ok(MessageFrame::TooLong) => followed(
            alloc,
            server,
            unanswered(RequestRefusal::TooLong),
            sink,
        ),
        Ok(MessageFrame::AtEnd) => Some(SessionEnd::InputEnded),
        Ok(MessageFrame::Cut) => Some(SessionEnd::Cut),
        Ok(MessageFrame::NoHead) => Some(SessionEnd::NoFrame),
        Err(TransferError::Failed) => Some(SessionEnd::Unread),
        Err(TransferError::Memory) => Some(SessionEnd::Memory),
    }
}

// Takes the content of a frame. `Some` if the session ends.
#[tactic(auto, using(crate::proofs::SessionLemmas::none_written))]
fn taken<W: Sink>(
    alloc: Global,
    settings: EditorSettings<'_>,
    server: &mut Server,
    content: &[u8],
    sink: &mut W,
) -> Option<SessionEnd>
    ensures frames { spec.IsTurn (W.contents sink.old) (W.contents sink.new) result }
    ensures answered { spec.IsAnswered settings.entry server.old server.new content.now (W.contents sink.old)
        (W.contents sink.new) result }
    ensures read { ¬ (result ≡ Some SessionEnd.Unread) }
    ensures unwritten { result ≡ Some SessionEnd.Unwritten → IsTrue (W.has_failed sink.new) }
{
    match step_of(alloc, settings, server, content) {
        Ok(step) => followed(alloc, server, step, sink),
        Err(AllocError) => Some(SessionEnd::Memory),
    }
}

fn step_of(
    alloc: Global,
    settings: EditorSettings<'_>,
    server: &mut Server,
    content: &[u8],
) -> Result<SessionStep, AllocError>
    ensures { IfOk result (spec.IsStepOn settings.entry server.old server.new content.now) }
{
    let message = message_of(alloc, content)?;
    take(alloc, settings, server, message)
}

// Carries out a step. `Some` if the session ends.
#[tactic(auto, using(crate::proofs::SessionLemmas::none_written))]
fn followed<W: Sink>(
    alloc: Global,
    server: &Server,
    step: SessionStep,
    sink: &mut W,
) -> Option<SessionEnd>
    ensures frames { spec.IsTurn (W.contents sink.old) (W.contents sink.new) result }
    ensures done { spec.IsDone server.now.phase step (W.contents sink.old) (W.contents sink.new) result }
    ensures read { ¬ (result ≡ Some SessionEnd.Unread) }
    ensures unwritten { result ≡ Some SessionEnd.Unwritten → IsTrue (W.has_failed sink.new) }
{
    match step {
        SessionStep::Silent => None,
        SessionStep::Say(reply) => say(alloc, &reply, sink),
        SessionStep::Exit => Some(exit(server.phase)),
    }
}

fn exit(phase: Phase) -> SessionEnd
    ensures { result ≡ spec.exit phase }
{
    match phase {
        Phase::ShutDown => SessionEnd::Done,
        Phase::New | Phase::Running => SessionEnd::Left,
    }
}

// Writes a reply as a frame. `Some` if that fails.
#[tactic(auto, using(crate::proofs::SessionLemmas::none_written, crate::proofs::SessionLemmas::same_written, crate::proofs::SessionLemmas::one_written))]
fn say<W: Sink>(alloc: Global, reply: &ServerMessage, sink: &mut W) -> Option<SessionEnd>
    ensures frames { spec.IsTurn (W.contents sink.old) (W.contents sink.new) result }
    ensures written { spec.IsWritten reply.now (W.contents sink.old) (W.contents sink.new) result }
    ensures read { ¬ (result ≡ Some SessionEnd.Unread) }
    ensures unwritten { result ≡ Some SessionEnd.Unwritten → IsTrue (W.has_failed sink.new) }
{
    let Ok(text) = text_of(alloc, reply) else {
        return Some(SessionEnd::Memory);
    };
    match write_frame(alloc, sink, &text) {
        Ok(()) => None,
        Err(WriteError::Failed) => Some(SessionEnd::Unwritten),
        Err(WriteError::Memory) => Some(SessionEnd::Memory),
    }
}
