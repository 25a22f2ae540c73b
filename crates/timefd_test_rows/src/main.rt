//! Answers rows. Each line of the standard input is a word that says what is asked, and its fields. The same
//! line of the standard output is the answer. `stdin` and `stdout` of this crate test all that goes from
//! texts to a text. Empty lines and comments, which begin with `#`, are copied.
#![tactic(auto)]

mod agreed;
mod ask;
mod component;
mod dates;
mod fault;
mod fields;
mod language;
mod literal;
mod longest_literal;
mod rewritten;
mod row;
mod sources;
mod trees;
mod warnings;

use std::io::{self, BufRead, BufReader, BufWriter, Write};

fn main(rt: HostRuntime) -> io::Result<()> {
    let mut output = BufWriter::new(rt.alloc(), io::writer(&rt))?;
    for line in BufReader::new(rt.alloc(), rt.reader())?.lines(rt.alloc()) {
        let answer = row::answer(rt.alloc(), line?.as_str())?;
        writeln!(output, "{answer}")?;
    }
    output.flush()
}
