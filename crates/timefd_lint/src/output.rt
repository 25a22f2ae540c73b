//! The standard streams, who reads them, and whether drawings are coloured: the only way of the program's texts to people.

ghost use Rattle.std.specs.Prelude.{◌≡◌, IfOk, IsFalse, None, OnOk, false};
ghost use Rattle.std.specs.Io.{WritesAtMost};
ghost use Rattle.std.specs.Io.KnownBytes.{WriteAppends};
ghost use Rattle.timefd_lint_drawing.specs.People.{for_people};
ghost use Rattle.timefd_lint.specs.Outputs.{IsShown, IsShownInColor, IsWithoutColor, known};
ghost use Rattle.timefd_lint.specs.Outputs as spec;

use std::alloc::{AllocError, Global};
use std::io::{IsTerminal, Result, Stderr, Write};
use timefd_bin_streams::{Sink, ToWriter, Variables, shows_colors};
use timefd_lint_drawing::people::show;
use timefd_lint_options::Color;

/// Who reads a stream.
#[derive(Clone, Copy)]
pub enum Audience {
    /// People at a terminal that shows the colours of messages.
    InColor,
    /// People at a terminal that shows no colours.
    WithoutColor,
    /// A program or whoever opens the file: they get each byte.
    Program,
}

impl Audience {
    /// Who reads a stream that is a terminal or isn't, where colours are wanted or aren't.
    pub fn of(is_terminal: bool, is_colored: bool) -> Audience
        ensures { result ≡ spec.audience_of is_terminal is_colored }
    {
        if !is_terminal {
            Audience::Program
        } else if is_colored {
            Audience::InColor
        } else {
            Audience::WithoutColor
        }
    }
}

/// Whether drawings on the standard output are coloured. By `auto` they are if it is a terminal, and the environment lets
/// that show colours.
pub fn is_colored<V: Variables>(variables: &V, is_terminal: bool, color: Color) -> bool
    ensures { spec.IsColored (V.have variables.now) is_terminal color result }
{
    match color {
        Color::Always => true,
        Color::Never => false,
        Color::Auto => is_terminal && shows_colors(variables),
    }
}

/// A text without colours of its own, for who reads a stream that shows the colours of messages or doesn't. An
/// `Err` says that memory ran out.
pub fn without_colors(
    alloc: Global,
    audience: Audience,
    text: Vec<u8>,
) -> std::result::Result<Vec<u8>, AllocError>
    ensures { IfOk result (λ plain. plain.items ≡ spec.without_colors audience text.items) }
{
    match audience {
        Audience::InColor => shown_without_colors(alloc, &text),
        Audience::WithoutColor | Audience::Program => Ok(text),
    }
}

// What people see of a text without colours.
fn shown_without_colors(alloc: Global, text: &[u8]) -> std::result::Result<Vec<u8>, AllocError>
    ensures { IfOk result (λ plain. plain.items ≡ for_people false text.now) }
{
    let mut plain = Vec::new(alloc);
    match show(alloc, false, text, &mut plain) {
        Ok(()) => Ok(plain),
        // The writer is in memory, so only memory can run out.
        Err(_) => Err(AllocError),
    }
}

/// A stream of texts, and who reads it. People see each character of a text: a terminal obeys and hides none,
/// except for newlines and the colours of messages.
#[derive(Drop)]
pub struct Output<W> {
    pub alloc: Global,
    pub audience: Audience,
    pub writer: W,
}

// Writes a text to people. Returns how long it is.
fn shown<W: Write>(alloc: Global, is_colored: bool, text: &[u8], writer: &mut W) -> Result<usize>
    ensures bound { WritesAtMost result text.now }
    ensures bytes { WriteAppends None None result text.now }
    ensures shown { OnOk result (IsShownInColor is_colored (W.contents writer.old)
        (W.contents writer.new) text.now) }
{
    show(alloc, is_colored, text, writer)?;
    Ok(text.len())
}

impl<W: Write> Write for Output<W> {
    // What programs are given. What people see is another text.
    ghost contents = { λ output. known output.audience (W.contents output.writer) };

    fn write(&mut self, buf: &[u8]) -> Result<usize>
        ensures bound { WritesAtMost result buf.now }
        ensures bytes { WriteAppends (known self.old.audience (W.contents self.old.writer))
            (known self.new.audience (W.contents self.new.writer)) result buf.now }
        ensures shown { OnOk result (IsShown self.old.audience (W.contents self.old.writer)
            (W.contents self.new.writer) buf.now) }
    {
        match self.audience {
            Audience::InColor => shown(self.alloc, true, buf, &mut self.writer),
            Audience::WithoutColor => shown(self.alloc, false, buf, &mut self.writer),
            Audience::Program => self.writer.write(buf),
        }
    }

    fn flush(&mut self) -> Result<()> {
        self.writer.flush()
    }
}

/// The standard output, which this writer writes to.
pub fn standard_output<W>(rt: &HostRuntime, is_colored: bool, writer: W) -> Output<W>
    ensures { result.writer ≡ writer }
{
    Output {
        alloc: rt.alloc(),
        audience: Audience::of(rt.stdout().is_terminal(), is_colored),
        writer,
    }
}

/// The standard error. Its messages have no colours.
pub fn standard_error(rt: &HostRuntime) -> Output<Stderr>
    ensures { IsWithoutColor result.audience }
{
    Output {
        alloc: rt.alloc(),
        audience: Audience::of(rt.stderr().is_terminal(), false),
        writer: rt.stderr(),
    }
}

/// The standard error, for messages.
pub fn errors(rt: &HostRuntime) -> ToWriter<Output<Stderr>>
    ensures { IsFalse (⟦<ToWriter<Output<Stderr>> as Sink>⟧.has_failed result) }
{
    ToWriter::new(standard_error(rt))
}
