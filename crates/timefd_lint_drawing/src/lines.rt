//! The lines of a drawing.

ghost use Rattle.std.specs.Prelude.{◌≡◌, ◌++◌, flat_map, OnOk, string_bytes};
ghost use Rattle.timefd_lint_drawing.specs.Lines as spec;

use crate::position::Position;
use crate::severity::{FindingSeverity, paint, word};
use crate::shown::push_safe;
use std::alloc::{AllocError, Global};

/// The colour of a part of a drawing.
#[derive(Clone, Copy)]
pub enum Paint {
    /// Of an error.
    Red,
    /// Of a warning.
    Yellow,
    /// Of a note, and of what frames the text.
    Cyan,
}

// The bytes that begin a colour: none if nothing is coloured.
fn begin(is_colored: bool, paint: Paint) -> &'static str
    ensures { result.now ≡ spec.begin is_colored paint }
{
    if !is_colored {
        return "";
    }
    match paint {
        Paint::Red => "\u{1B}[1;31m",
        Paint::Yellow => "\u{1B}[1;33m",
        Paint::Cyan => "\u{1B}[1;36m",
    }
}

// The bytes that end a colour: none if nothing is coloured.
fn plain(is_colored: bool) -> &'static str
    ensures { result.now ≡ spec.plain is_colored }
{
    if is_colored { "\u{1B}[0m" } else { "" }
}

// Appends texts, one after another: `write!` takes several times as long.
fn push_all(out: &mut String, parts: &[&str]) -> Result<(), AllocError>
    ensures { OnOk result (string_bytes out.new
        ≡ string_bytes out.old ++ flat_map (λ part. part.now) parts.now) }
{
    for part in parts {
        out.push_str(part)?;
    }
    Ok(())
}

/// The first line: the severity, the code, and the sentence.
pub fn push_head(
    out: &mut String,
    is_colored: bool,
    severity: FindingSeverity,
    code: &str,
    sentence: &str,
) -> Result<(), AllocError>
    ensures { OnOk result (string_bytes out.new ≡ string_bytes out.old
        ++ spec.head is_colored severity code.now sentence.now) }
{
    if !is_colored {
        out.push_str(word(severity))?;
        return push_all(out, &["[", code, "]: ", sentence, "\n"]);
    }
    let (paint, plain) = (begin(is_colored, paint(severity)), plain(is_colored));
    let word = word(severity);
    write!(out, "{paint}{word}[{code}]{plain}: {sentence}\n")
}

/// The line with the position.
pub fn push_position_line(
    alloc: Global,
    out: &mut String,
    is_colored: bool,
    margin: &str,
    file: &str,
    position: Position,
) -> Result<(), AllocError>
    ensures { OnOk result (string_bytes out.new ≡ string_bytes out.old
        ++ spec.position_line is_colored margin.now file.now position.line position.column) }
{
    push_arrow(out, is_colored, margin)?;
    push_safe(alloc, out, file)?;
    let Position { line, column } = position;
    write!(out, ":{line}:{column}\n")
}

// What comes before the file.
fn push_arrow(out: &mut String, is_colored: bool, margin: &str) -> Result<(), AllocError>
    ensures { OnOk result (string_bytes out.new ≡ string_bytes out.old
        ++ spec.arrow is_colored margin.now) }
{
    if !is_colored {
        return push_all(out, &[margin, "--> "]);
    }
    let (cyan, plain) = (begin(is_colored, Paint::Cyan), plain(is_colored));
    write!(out, "{margin}{cyan}-->{plain} ")
}

/// A line with a bar.
pub fn push_bar_line(out: &mut String, is_colored: bool, margin: &str) -> Result<(), AllocError>
    ensures { OnOk result (string_bytes out.new ≡ string_bytes out.old
        ++ spec.bar_line is_colored margin.now) }
{
    if !is_colored {
        return push_all(out, &[margin, " |\n"]);
    }
    let (cyan, plain) = (begin(is_colored, Paint::Cyan), plain(is_colored));
    write!(out, "{margin} {cyan}|{plain}\n")
}

/// The line of the text, from its three parts.
pub fn push_text_line(
    out: &mut String,
    is_colored: bool,
    number: u64,
    before: &str,
    at: &str,
    after: &str,
) -> Result<(), AllocError>
    ensures { OnOk result (string_bytes out.new ≡ string_bytes out.old
        ++ spec.text_line is_colored number before.now at.now after.now) }
{
    push_number(out, is_colored, number)?;
    push_all(out, &[before, at, after, "\n"])
}

// What comes before the text.
fn push_number(out: &mut String, is_colored: bool, number: u64) -> Result<(), AllocError>
    ensures { OnOk result (string_bytes out.new ≡ string_bytes out.old
        ++ spec.numbered is_colored number) }
{
    if !is_colored {
        return write!(out, "{number} | ");
    }
    let (cyan, plain) = (begin(is_colored, Paint::Cyan), plain(is_colored));
    write!(out, "{cyan}{number} |{plain} ")
}

/// A line with a bar, and carets of this colour after an indent.
pub fn push_caret_line(
    out: &mut String,
    is_colored: bool,
    paint: Paint,
    margin: &str,
    indent: &str,
    carets: &str,
) -> Result<(), AllocError>
    ensures { OnOk result (string_bytes out.new ≡ string_bytes out.old
        ++ spec.caret_line is_colored paint margin.now indent.now carets.now) }
{
    if !is_colored {
        return push_all(out, &[margin, " | ", indent, carets, "\n"]);
    }
    let (paint, cyan) = (begin(is_colored, paint), begin(is_colored, Paint::Cyan));
    let plain = plain(is_colored);
    write!(
        out,
        "{margin} {cyan}|{plain} {indent}{paint}{carets}{plain}\n"
    )
}

// The line with the help.
fn push_help_line(
    out: &mut String,
    is_colored: bool,
    margin: &str,
    help: &str,
) -> Result<(), AllocError>
    ensures { OnOk result (string_bytes out.new ≡ string_bytes out.old
        ++ spec.help_line is_colored margin.now help.now) }
{
    if !is_colored {
        return push_all(out, &[margin, " = help: ", help, "\n"]);
    }
    let (cyan, plain) = (begin(is_colored, Paint::Cyan), plain(is_colored));
    write!(out, "{margin} {cyan}={plain} help: {help}\n")
}

/// The line with the help, and for a further fault one that says what it was found without.
pub fn push_help_lines(
    out: &mut String,
    is_further: bool,
    is_colored: bool,
    margin: &str,
    help: &str,
) -> Result<(), AllocError>
    ensures { OnOk result (string_bytes out.new ≡ string_bytes out.old
        ++ spec.help_lines is_further is_colored margin.now help.now) }
{
    push_help_line(out, is_colored, margin, help)?;
    if is_further {
        return push_note_line(out, is_colored, margin);
    }
    Ok(())
}

fn push_note_line(out: &mut String, is_colored: bool, margin: &str) -> Result<(), AllocError>
    ensures { OnOk result (string_bytes out.new ≡ string_bytes out.old
        ++ spec.note_line is_colored margin.now) }
{
    let (cyan, plain) = (begin(is_colored, Paint::Cyan), plain(is_colored));
    write!(
        out,
        "{margin} {cyan}={plain} note: found with the errors before it left out\n"
    )
}
