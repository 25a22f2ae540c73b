//! What callers of the format descriptions do with them, each in a module of its own: write a date
//! by a description, read one by a list of items, show where a text is at fault, and rewrite a
//! description of version 1. `main` runs each on a few texts and prints the results.
#![tactic(auto)]

mod date;
mod lint;
mod position;
mod read;
mod samples;
mod upgrade;
mod write;

use std::io;

fn main(rt: HostRuntime) -> io::Result<()> {
    samples::written(&rt, rt.alloc())?;
    samples::read(&rt, rt.alloc())?;
    samples::found(&rt, rt.alloc())?;
    samples::upgraded(&rt, rt.alloc())
}
