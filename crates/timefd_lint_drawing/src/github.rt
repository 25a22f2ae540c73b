//! Annotations, as GitHub reads them in the output of a workflow step.

ghost use Rattle.std.specs.Prelude.{◌≡◌, ◌++◌, IfOk, OnOk};
ghost use Rattle.timefd_lint_drawing.specs.Findings.{located_of, said_of};
ghost use Rattle.timefd_lint_drawing.specs.Github as spec;

use crate::finding::{FindingLocation, FindingWords, described};
use crate::json::push_number;
use crate::position::Position;
use crate::severity::command;
use crate::shown::safe;
use std::alloc::{AllocError, Global};

/// A finding as an annotation on a line, where the ends are there if the part has one:
/// `::COMMAND file=FILE,line=LINE,endLine=LINE,col=COLUMN,endColumn=COLUMN,title=CODE::MESSAGE`. The file's name is made safe
/// for a terminal. An `Err` says that memory ran out.
pub fn annotation(
    alloc: Global,
    location: FindingLocation<'_, '_>,
    finding: FindingWords<'_, '_>,
) -> Result<Vec<u8>, AllocError>
    ensures { IfOk result (λ line. line.items
        ≡ spec.github (located_of location.entry) (said_of finding.entry)) }
{
    let file = safe(alloc, location.file)?;
    let message = described(alloc, finding)?;
    let mut out = Vec::new(alloc);
    out.extend_from_slice(command(finding.severity).as_bytes())?;
    push_property(&mut out, " file=", &file)?;
    push_lines(alloc, &mut out, location.start, location.end)?;
    push_columns(alloc, &mut out, location.start, location.end)?;
    push_property(&mut out, ",title=", finding.code)?;
    out.extend_from_slice(b"::")?;
    push_message(&mut out, &message)?;
    out.extend_from_slice(b"\n")?;
    Ok(out)
}

fn push_lines(
    alloc: Global,
    out: &mut Vec<u8>,
    start: Position,
    end: Option<Position>,
) -> Result<(), AllocError>
    ensures { OnOk result (out.new.items ≡ out.old.items ++ spec.line_fields start end) }
{
    push_number(alloc, out, ",line=", start.line)?;
    match end {
        Some(end) => push_number(alloc, out, ",endLine=", end.line),
        None => Ok(()),
    }
}

fn push_columns(
    alloc: Global,
    out: &mut Vec<u8>,
    start: Position,
    end: Option<Position>,
) -> Result<(), AllocError>
    ensures { OnOk result (out.new.items ≡ out.old.items ++ spec.column_fields start end) }
{
    push_number(alloc, out, ",col=", start.column as u64)?;
    match end {
        Some(end) => push_number(alloc, out, ",endColumn=", end.column as u64),
        None => Ok(()),
    }
}

// Appends what comes before a property's value, and the value.
fn push_property(out: &mut Vec<u8>, front: &str, value: &str) -> Result<(), AllocError>
    ensures { OnOk result (out.new.items
        ≡ out.old.items ++ (front.now ++ spec.escaped_property value.now)) }
{
    out.extend_from_slice(front.as_bytes())?;
    push_value(out, value)
}

fn push_value(out: &mut Vec<u8>, value: &str) -> Result<(), AllocError>
    ensures { OnOk result (out.new.items ≡ out.old.items ++ spec.escaped_property value.now) }
{
    for byte in value.as_bytes() {
        push_property_byte(out, *byte)?;
    }
    Ok(())
}

fn push_message(out: &mut Vec<u8>, message: &str) -> Result<(), AllocError>
    ensures { OnOk result (out.new.items ≡ out.old.items ++ spec.escaped_message message.now) }
{
    for byte in message.as_bytes() {
        push_message_byte(out, *byte)?;
    }
    Ok(())
}

// Appends a byte of a property's value. A colon or a comma would end the property, so it is escaped.
fn push_property_byte(out: &mut Vec<u8>, byte: u8) -> Result<(), AllocError>
    ensures { OnOk result (out.new.items ≡ out.old.items ++ spec.property_byte byte) }
{
    match byte {
        b':' => out.extend_from_slice(b"%3A"),
        b',' => out.extend_from_slice(b"%2C"),
        _ => push_message_byte(out, byte),
    }
}

// Appends a byte of a message. The end of a line would end the message and a percent sign begins an escape,
// so they are escaped.
fn push_message_byte(out: &mut Vec<u8>, byte: u8) -> Result<(), AllocError>
    ensures { OnOk result (out.new.items ≡ out.old.items ++ spec.message_byte byte) }
{
    match byte {
        b'%' => out.extend_from_slice(b"%25"),
        b'\r' => out.extend_from_slice(b"%0D"),
        b'\n' => out.extend_from_slice(b"%0A"),
        _ => Ok(out.push(byte)?),
    }
}
