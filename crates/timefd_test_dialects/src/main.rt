//! Converts rows: a line of the standard input is the name of a dialect, a tab and a format, and
//! the same line of the standard output is its text of version 3, or why it has none. With `read `
//! before the name it is the text that reads what the format writes; with `traps ` the format's
//! traps, or `none`; with `back ` the format of a text of version 3. Empty lines and comments, which
//! begin with `#`, are copied. `stdin` and `stdout` of this crate are tests.
#![tactic(auto)]

mod row;

use std::io::{self, BufRead, BufReader, BufWriter, Write};

fn main(rt: HostRuntime) -> io::Result<()> {
    let mut output = BufWriter::new(rt.alloc(), io::writer(&rt))?;
    for line in BufReader::new(rt.alloc(), rt.reader())?.lines(rt.alloc()) {
        let answer = row::answer(rt.alloc(), line?.as_str())?;
        writeln!(output, "{answer}")?;
    }
    output.flush()
}
