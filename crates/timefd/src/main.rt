//! `timefd KIND [LIMIT]`, with `1`, `2`, `3` or `strftime` as the kind: reads a format description
//! of that kind from the standard input, and says on the standard output how much it holds, or why
//! it isn't one. The limit, for the kinds `1`, `2` and `3`, is how many nested descriptions there
//! may be around one another.
#![tactic(auto)]

mod end;
mod kind;
mod program;
mod reply;
mod run;
#[cfg(test)]
mod tests;

use program::execute;
use std::env;
use std::process::ExitCode;
use timefd_bin_streams::{FromReader, ToWriter};

// The exit status if the arguments can't be had.
const NO_ARGUMENTS: u8 = 3;

// All arguments, of which the first is the program's name.
fn args(rt: &HostRuntime) -> Option<Vec<String>> {
    env::args(rt).ok()?.collect(rt.alloc()).ok()
}

fn main(rt: HostRuntime) -> ExitCode {
    let Some(args) = args(&rt) else {
        return ExitCode::from(NO_ARGUMENTS);
    };
    let mut reader = FromReader::new(rt.stdin());
    let mut writer = ToWriter::new(rt.stdout());
    ExitCode::from(execute(rt.alloc(), &args, &mut reader, &mut writer))
}
