//! `timefd_format [OPTION].. [--] DESCRIPTION [MOMENT]..`: writes moments by a format description,
//! one a line. With `--read` it takes the moments from texts of another description.
//! `docs/proof/COMMANDS.md` lists the options, and how moments are written on the command line.
#![tactic(auto)]

mod absent;
mod asked;
mod bare;
mod bracket;
mod clock;
mod column;
mod completing;
mod converted;
mod description;
mod end;
mod entry;
mod expected;
mod fast;
mod field;
mod fields;
mod frame;
mod from_jiff;
mod guess_run;
mod guessed;
mod header;
mod language;
mod line;
mod lines;
mod message;
mod moment;
mod names;
mod next_record;
mod otherwise;
mod outcome;
mod partial;
mod progress;
mod quoting;
mod read_back;
mod records;
mod report;
mod run;
mod running;
mod seconds;
mod source;
mod status;
mod table;
mod to_read;
mod unknown_zone;
mod usage;
mod warned;
mod word;
mod words;
mod zone;
mod zones;

use asked::{Asked, GuessRequest, asked_of};
use guess_run::{GuessEnd, guess_end};
use running::run_status;
use status::{
    WRONG_ARGUMENTS, errors, guess_status, no_memory, reported, written, wrong_arguments,
};
use std::alloc::AllocError;
use std::env;
use std::io::{BufReader, BufWriter};
use std::process::ExitCode;
use timefd_bin_streams::{FromBufReader, ToWriter, WordsError, borrowed, words_of};

// Does what the words after the program's name ask for, and returns the status.
fn words_status(rt: &HostRuntime, words: &[&str]) -> u8 {
    match asked_of(words) {
        Ok(Asked::Help) => shown(rt, usage::USAGE),
        Ok(Asked::Version) => shown(rt, usage::VERSION),
        Ok(Asked::Run(request)) => {
            let from = words.len().saturating_sub(request.moment_count);
            run_status(rt, request, words.get(from..).unwrap_or(&[]))
        }
        Ok(Asked::Guess(request)) => {
            let from = words.len().saturating_sub(request.text_count);
            let end = end_of_guess(rt, request, words.get(from..).unwrap_or(&[]));
            guess_status(rt.alloc(), &mut errors(rt), end)
        }
        Err(error) => wrong_arguments(rt.alloc(), &mut errors(rt), error),
    }
}

// Writes a text to the standard output, and returns the status.
fn shown(rt: &HostRuntime, text: &str) -> u8 {
    written(
        rt.alloc(),
        &mut ToWriter::new(rt.stdout()),
        &mut errors(rt),
        text,
    )
}

// Looks for a description of the texts, or of the lines of the standard input if there are none.
fn end_of_guess(rt: &HostRuntime, request: GuessRequest, texts: &[&str]) -> GuessEnd {
    let Ok(output) = BufWriter::new(rt.alloc(), rt.stdout()) else {
        return GuessEnd::Memory;
    };
    let Ok(input) = BufReader::new(rt.alloc(), rt.stdin()) else {
        return GuessEnd::Memory;
    };
    guess_end(
        rt.alloc(),
        request,
        texts,
        &mut FromBufReader::new(input),
        &mut ToWriter::new(output),
        &mut errors(rt),
    )
}

fn args_status(rt: &HostRuntime, args: &[String]) -> u8 {
    let [_, words @ ..] = args else {
        return words_status(rt, &[]);
    };
    match borrowed(rt.alloc(), words) {
        Ok(words) => words_status(rt, &words),
        Err(AllocError) => no_memory(&mut errors(rt)),
    }
}

fn main(rt: HostRuntime) -> ExitCode {
    let status = match words_of(rt.alloc(), env::args(&rt)) {
        Ok(words) => args_status(&rt, &words),
        Err(WordsError::NotText) => reported(
            rt.alloc(),
            &mut errors(&rt),
            WRONG_ARGUMENTS,
            "an argument isn't UTF-8",
        ),
        Err(WordsError::Memory) => no_memory(&mut errors(&rt)),
    };
    ExitCode::from(status)
}
