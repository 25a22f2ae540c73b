//! A session with an editor, over the standard input and output.

ghost use Rattle.std.specs.Prelude.{◌≡◌, IfErr, IfOk, IsTrue, Ok, OnErr};
ghost use Rattle.timefd_lint_lsp.specs.declared.session.SessionEnd.{SessionEnd};
ghost use Rattle.timefd_lint.specs.Roots as spec;
ghost use Rattle.timefd_lint.specs.Statuses.{IsToldIf};

use crate::config::{ConfigFailure, Project, counted_keys, counted_levels};
use crate::options::reported_levels;
use crate::output::errors;
use crate::parts::all_keys;
use crate::projects::project_for;
use crate::status::{FAILED, no_memory, reported, unset, write_failed};
use std::alloc::{AllocError, Global};
use std::io::BufReader;
use timefd_bin_streams::{FromReader, Sink, Source, ToWriter};
use timefd_lint_files::FileSystem;
use timefd_lint_lsp::{Server, SessionEnd, greet, path_of, serve_on};
use timefd_lint_options::RunSettings;
use timefd_lint_options::config::with_levels;
use timefd_lint_scan::keys::DescriptionKey;

// The status of a session that the editor left without `shutdown`, or whose input ended early.
const LEFT: u8 = 1;

// The name from which the file of settings is sought where an editor has no folder open: that of the standard input.
const INPUT: &str = "-";

/// Serves an editor, and returns the status. The keys and levels of the arguments come first, then those of the file of
/// settings that is found from the folder that the editor has open. That file also names the calls. `here` is the path of the working directory, without
/// a `/` at either end.
pub(crate) fn session_status(
    rt: &HostRuntime,
    settings: RunSettings<'_>,
    keys: &[DescriptionKey<'_>],
    here: &str,
) -> u8
    ensures { spec.IsSessionStatus result }
{
    let Ok(input) = BufReader::new(rt.alloc(), rt.stdin()) else {
        return status_of(&mut errors(rt), Ok(SessionEnd::Memory));
    };
    let mut source = FromReader::new(input);
    let mut sink = ToWriter::new(rt.stdout());
    let answer = session(rt, rt.alloc(), settings, keys, here, &mut source, &mut sink);
    status_of(&mut errors(rt), answer)
}

// Serves an editor, and returns how the session ends. An `Err` says why there are no settings for the folder that the
// editor has open.
fn session<S: FileSystem, R: Source, W: Sink>(
    system: &S,
    alloc: Global,
    settings: RunSettings<'_>,
    keys: &[DescriptionKey<'_>],
    here: &str,
    source: &mut R,
    sink: &mut W,
) -> Result<SessionEnd, ConfigFailure>
    ensures session { IfOk result (spec.IsSession (S.holds system.now) (S.fails system.now) (S.folders system.now)
        settings.entry keys.now here.now (R.remaining source.old) (W.contents sink.old) (R.remaining source.new)
        (W.contents sink.new)) }
    ensures unset { IfErr result (spec.IsSessionUnset (S.holds system.now) (S.fails system.now) (S.folders system.now)
        here.now (R.remaining source.old) (W.contents sink.old) (R.remaining source.new) (W.contents sink.new)) }
    ensures unread { result ≡ Ok SessionEnd.Unread → IsTrue (R.has_failed source.new) }
    ensures unwritten { result ≡ Ok SessionEnd.Unwritten → IsTrue (W.has_failed sink.new) }
{
    let mut server = Server::new(alloc);
    if let Some(end) = greet(alloc, &mut server, source, sink) {
        return Ok(end);
    }
    served(
        system,
        alloc,
        settings,
        keys,
        here,
        &mut server,
        source,
        sink,
    )
}

// Serves an editor that has sent `initialize`.
fn served<S: FileSystem, R: Source, W: Sink>(
    system: &S,
    alloc: Global,
    settings: RunSettings<'_>,
    keys: &[DescriptionKey<'_>],
    here: &str,
    server: &mut Server,
    source: &mut R,
    sink: &mut W,
) -> Result<SessionEnd, ConfigFailure>
    ensures served { IfOk result (spec.IsServedBy (S.holds system.now) (S.fails system.now) (S.folders system.now) settings.entry
        keys.now here.now server.old (R.remaining source.old) (W.contents sink.old) (R.remaining source.new)
        (W.contents sink.new)) }
    ensures unset { IfErr result (spec.IsRootUnset (S.holds system.now) (S.fails system.now) (S.folders system.now)
        here.now server.old.root) }
    // Without settings nothing is read or written.
    ensures still { OnErr result ((R.remaining source.new ≡ R.remaining source.old)
        × (W.contents sink.new ≡ W.contents sink.old)) }
    ensures unread { result ≡ Ok SessionEnd.Unread → IsTrue (R.has_failed source.new) }
    ensures unwritten { result ≡ Ok SessionEnd.Unwritten → IsTrue (W.has_failed sink.new) }
{
    let project = root_project(system, alloc, here, &server.root)?;
    let keys = all_keys(alloc, keys, counted_keys(settings, &project.config))?;
    let settings = with_levels(settings, counted_levels(settings, &project.config));
    let served = timefd_lint_lsp::EditorSettings {
        keys: &keys,
        calls: &project.config.calls,
        levels: reported_levels(settings),
    };
    Ok(serve_on(alloc, served, server, source, sink))
}

// What the file of settings says that is found from the folder that an editor has open, or else from the working directory.
fn root_project<S: FileSystem>(
    system: &S,
    alloc: Global,
    here: &str,
    root: &Option<String>,
) -> Result<Project, ConfigFailure>
    ensures project { IfOk result (spec.IsRootProject (S.holds system.now) (S.fails system.now) (S.folders system.now)
        here.now root.now) }
    ensures error { IfErr result (spec.IsRootUnset (S.holds system.now) (S.fails system.now) (S.folders system.now)
        here.now root.now) }
{
    match root_path(alloc, root)? {
        Some(path) => project_for(system, alloc, here, &path),
        None => project_for(system, alloc, here, INPUT),
    }
}

// The path that the URI of a folder names. `None` if it names none, or one that isn't UTF-8.
fn root_path(alloc: Global, root: &Option<String>) -> Result<Option<String>, AllocError>
    ensures { IfOk result (spec.IsRootPath root.now) }
{
    match root {
        Some(uri) => uri_path(alloc, uri),
        None => Ok(None),
    }
}

fn uri_path(alloc: Global, uri: &str) -> Result<Option<String>, AllocError>
    ensures { IfOk result (spec.IsPathOf uri.now) }
{
    match path_of(alloc, uri)? {
        Some(bytes) => Ok(String::from_utf8(bytes).ok()),
        None => Ok(None),
    }
}

// The status of a session. An end that the editor didn't ask for is reported, and so is why there are no settings.
fn status_of<E: Sink>(errors: &mut E, answer: Result<SessionEnd, ConfigFailure>) -> u8
    ensures status { result ≡ spec.session_status answer }
    ensures reported { spec.IsAnswerTold answer (E.contents errors.old) (E.contents errors.new) (E.has_failed errors.new)
        result }
{
    match answer {
        Ok(end) => end_status(errors, end),
        Err(failure) => unset(errors, failure),
    }
}

fn end_status<E: Sink>(errors: &mut E, end: SessionEnd) -> u8
    ensures status { result ≡ spec.end_status end }
    ensures reported { IsToldIf (spec.sentence_on end) (E.contents errors.old) (E.contents errors.new)
        (E.has_failed errors.new) }
{
    match end {
        SessionEnd::Done => 0,
        SessionEnd::Left => LEFT,
        SessionEnd::InputEnded => reported(
            errors,
            LEFT,
            "the standard input ended, and no `exit` was sent",
        ),
        SessionEnd::Cut => reported(errors, LEFT, "the standard input ended within a message"),
        SessionEnd::NoFrame => reported(
            errors,
            LEFT,
            "what came isn't a message: it has no header `Content-Length`, or more than 4096 bytes of headers",
        ),
        SessionEnd::Unread => reported(errors, FAILED, "the standard input can't be read"),
        SessionEnd::Unwritten => write_failed(errors),
        SessionEnd::Memory => no_memory(errors),
    }
}
