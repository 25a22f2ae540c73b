//! `timefd_lint [OPTION].. [FILE]..`: reads format descriptions, one a line, and shows which of them aren't
//! any, where, why, and what to write instead. A folder means all sources below it. `docs/LINTER.md` lists
//! the options and the names of the faults.
#![tactic(auto)]

mod all_codes;
mod arguments;
mod config;
mod drawn;
mod error_code;
mod error_page;
mod failure;
mod fate;
mod fix;
mod folders;
mod found;
mod identity;
mod limited;
mod line;
mod lines;
mod log;
mod manual;
mod mark;
mod no_code;
mod none_of;
mod options;
mod other_rules;
mod output;
mod page;
mod parts;
mod progress;
mod projects;
mod release;
mod rewrite_report;
mod rewriting;
mod rewritten;
mod rule;
mod rules;
mod run;
mod running;
mod session;
mod sought;
mod source;
mod source_file;
mod stamp;
mod status;
mod store;
mod summary;
mod tally;
mod unusable;
mod usage;
mod value_notes;

use line::LintError;
use output::{errors, is_colored, standard_error, standard_output};
use page::{Subject, explained_in, page_on, unexplained_in};
use parts::{RunPart, file_count, have_lines, parts_of, warn};
use projects::{Named, below_root, projects_of};
use rewriting::rewriting_of;
use running::run_in_form;
use session::session_status;
use sought::named_or_here;
use status::{
    WRONG_ARGUMENTS, no_code, no_memory, reported, run_end, unset, walk_failed, write_failed,
    wrong_arguments,
};
use std::alloc::AllocError;
use std::io::{BufWriter, IsTerminal, Write};
use std::process::ExitCode;
use std::{env, fs};
use summary::summary;
use tally::LintTally;
use timefd_bin_streams::{Environment, Sink, ToWriter, WordsError, borrowed, words_of};
use timefd_lint_files::WalkError;
use timefd_lint_options::{
    AskedRun, OptionError, RunSettings, keys_of, lines_conflict, options_of, ordered,
};
use timefd_lint_scan::keys::DescriptionKey;

// Writes a text to the standard output, and returns the status.
fn written(rt: &HostRuntime, text: &str) -> u8 {
    match standard_output(rt, false, rt.stdout()).write_all(text.as_bytes()) {
        Ok(()) => 0,
        Err(_) => write_failed(&mut errors(rt)),
    }
}

// Writes the page on an error or a warning, and returns the status.
fn page_status(rt: &HostRuntime, subject: Subject) -> u8 {
    match page_on(rt.alloc(), subject) {
        Ok(page) => written(rt, &page),
        Err(AllocError) => no_memory(&mut errors(rt)),
    }
}

// Whether there is a file or a folder of this name.
fn is_there(rt: &HostRuntime, name: &str) -> bool {
    fs::symlink_metadata(rt, name).is_ok()
}

// The path of the working directory from the root of the system, without a `/` at either end: empty if it isn't known.
fn working_directory(rt: &HostRuntime) -> Result<String, AllocError> {
    let path = env::current_dir(rt).ok();
    let path = path.as_ref().map_or("", |path| path.as_str());
    String::from_str(rt.alloc(), below_root(path).unwrap_or(""))
}

// Does what the arguments after the program's name ask for, and returns the status.
fn words_status(rt: &HostRuntime, words: &[&str]) -> u8 {
    match explained_in(words) {
        Some(subject) => page_status(rt, subject),
        None => match unexplained_in(words) {
            Some(name) if !is_there(rt, name) => no_code(rt.alloc(), &mut errors(rt), name),
            Some(_) | None => ordered_status(rt, words),
        },
    }
}

fn ordered_status(rt: &HostRuntime, words: &[&str]) -> u8 {
    match ordered(rt.alloc(), words) {
        Ok(words) => options_status(rt, &words),
        Err(AllocError) => no_memory(&mut errors(rt)),
    }
}

fn options_status(rt: &HostRuntime, words: &[&str]) -> u8 {
    match options_of(words) {
        Ok(AskedRun::Help) => written(rt, usage::USAGE),
        Ok(AskedRun::Version) => written(rt, usage::VERSION),
        Ok(AskedRun::Run(asked)) => {
            let from = words.len().saturating_sub(asked.file_count);
            let names = words.get(from..).unwrap_or(words);
            let names = named_or_here(asked.settings, rt.stdin().is_terminal(), names);
            keys_status(rt, asked.settings, words, names)
        }
        Err(error) => wrong_arguments(rt.alloc(), &mut errors(rt), error),
    }
}

// Runs over the named files and folders, and returns the status. The keys and levels of the arguments come first,
// then those of each name's file of settings.
fn keys_status(rt: &HostRuntime, settings: RunSettings<'_>, words: &[&str], names: &[&str]) -> u8 {
    let (Ok(keys), Ok(here)) = (keys_of(rt.alloc(), words), working_directory(rt)) else {
        return no_memory(&mut errors(rt));
    };
    if settings.serves {
        return session_status(rt, settings, &keys, &here);
    }
    match projects_of(rt, rt.alloc(), &here, names) {
        Ok(projects) => projects_status(rt, settings, &keys, &projects),
        Err(failure) => unset(&mut errors(rt), failure),
    }
}

// A folder means all sources below it, except those that are excluded.
fn projects_status(
    rt: &HostRuntime,
    settings: RunSettings<'_>,
    keys: &[DescriptionKey<'_>],
    projects: &[Named<'_>],
) -> u8 {
    match parts_of(rt, rt.alloc(), settings, keys, projects) {
        Ok(parts) => parts_status(rt, settings, &parts),
        Err(WalkError::Memory) => no_memory(&mut errors(rt)),
        Err(WalkError::Failed { path, reason }) => walk_failed(
            rt.alloc(),
            &mut errors(rt),
            &path,
            reason,
        ),
    }
}

fn parts_status(rt: &HostRuntime, settings: RunSettings<'_>, parts: &[RunPart<'_>]) -> u8 {
    match lines_conflict(settings) {
        Some(why) if have_lines(parts) => wrong_arguments(
            rt.alloc(),
            &mut errors(rt),
            OptionError::Conflict(why),
        ),
        Some(_) | None => run_status(rt, settings, parts),
    }
}

fn run_status(rt: &HostRuntime, settings: RunSettings<'_>, parts: &[RunPart<'_>]) -> u8 {
    let Ok(writer) = BufWriter::new(rt.alloc(), rt.stdout()) else {
        return no_memory(&mut errors(rt));
    };
    let is_colored = is_colored(
        &Environment { rt },
        rt.stdout().is_terminal(),
        settings.color,
    );
    let output = standard_output(rt, is_colored, writer);
    let audience = output.audience;
    let mut sink = ToWriter::new(output);
    let end = run_in_form(rt, settings, is_colored, parts, audience, &mut sink);
    match (end, sink.flush()) {
        (Ok(tally), Ok(())) => end_of(rt, settings, parts, tally),
        (Err(LintError::Memory), _) => no_memory(&mut errors(rt)),
        (Err(LintError::Write), _) | (Ok(_), Err(_)) => write_failed(&mut errors(rt)),
    }
}

// Reports why the status is no verdict, if it is none. Then writes the summary line: how much was checked.
fn end_of(
    rt: &HostRuntime,
    settings: RunSettings<'_>,
    parts: &[RunPart<'_>],
    tally: LintTally,
) -> u8 {
    let rewrites = rewriting_of(settings).is_some();
    let status = run_end(&mut errors(rt), rewrites, tally.status());
    if settings.is_quiet {
        return status;
    }
    match summary(rt.alloc(), warn(parts), tally, file_count(parts)) {
        Ok(line) => {
            let _ = standard_error(rt).writeln(format_args!("{line}"));
            status
        }
        Err(AllocError) => no_memory(&mut errors(rt)),
    }
}

fn args_status(rt: &HostRuntime, args: &[String]) -> u8 {
    let [_, words @ ..] = args else {
        return words_status(rt, &[]);
    };
    match borrowed(rt.alloc(), words) {
        Ok(words) => words_status(rt, &words),
        Err(AllocError) => no_memory(&mut errors(rt)),
    }
}

fn main(rt: HostRuntime) -> ExitCode {
    let status = match words_of(rt.alloc(), env::args(&rt)) {
        Ok(words) => args_status(&rt, &words),
        Err(WordsError::NotText) => reported(
            &mut errors(&rt),
            WRONG_ARGUMENTS,
            "an argument isn't UTF-8",
        ),
        Err(WordsError::Memory) => no_memory(&mut errors(&rt)),
    };
    ExitCode::from(status)
}
