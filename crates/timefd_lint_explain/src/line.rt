//! The lines that show nodes.

ghost use Rattle.std.specs.Prelude.{◌≡◌, ◌++◌, codes, IfSome, OnOk, string_bytes};
ghost use Rattle.timefd_lint_explain.specs.Lines as spec;
ghost use Rattle.timefd_lint_explain.specs.Lines.{AreLines, IsLine};

use crate::node::ShownNode;
use std::alloc::{AllocError, Global};
use timefd_lint_drawing::shown::push_safe;

/// Appends a line for each node of a text. An `Err` says that memory ran out.
pub fn push_lines(
    alloc: Global,
    out: &mut String,
    text: &str,
    nodes: &[ShownNode],
) -> Result<(), AllocError>
    ensures { OnOk result ((lines : _) × AreLines text.now nodes.now lines
        × (string_bytes out.new ≡ string_bytes out.old ++ lines)) }
{
    for node in nodes {
        push_line(alloc, out, text, node)?;
    }
    Ok(())
}

// Appends the line of a node.
fn push_line(
    alloc: Global,
    out: &mut String,
    text: &str,
    node: &ShownNode,
) -> Result<(), AllocError>
    ensures { OnOk result ((line : _) × IsLine text.now node.now line
        × (string_bytes out.new ≡ string_bytes out.old ++ line)) }
{
    push_number(out, node.bytes)?;
    push_indent(out, node.depth)?;
    push_quoted(alloc, out, text.get(node.start..node.end).unwrap_or(""))?;
    out.push_str(&node.words)?;
    push_example(alloc, out, &node.example)
}

/// Appends a number, padded with spaces to at least five columns, and two spaces.
pub fn push_number(out: &mut String, number: usize) -> Result<(), AllocError>
    ensures { OnOk result (string_bytes out.new
        ≡ string_bytes out.old ++ (spec.in_columns number ++ codes "  ")) }
{
    match padded_digit(number) {
        Some(text) => out.push_str(text),
        None => write!(out, "{number:5}  "),
    }
}

// What is appended for a number of one digit.
fn padded_digit(number: usize) -> Option<&'static str>
    ensures { IfSome result (λ text. text.now ≡ spec.in_columns number ++ codes "  ") }
{
    match number {
        0 => Some("    0  "),
        1 => Some("    1  "),
        2 => Some("    2  "),
        3 => Some("    3  "),
        4 => Some("    4  "),
        5 => Some("    5  "),
        6 => Some("    6  "),
        7 => Some("    7  "),
        8 => Some("    8  "),
        9 => Some("    9  "),
        _ => None,
    }
}

// Appends two spaces for each bracket.
fn push_indent(out: &mut String, depth: usize) -> Result<(), AllocError>
    ensures { OnOk result (string_bytes out.new ≡ string_bytes out.old ++ spec.indent depth) }
{
    for _ in 0..depth {
        out.push_str("  ")?;
    }
    Ok(())
}

// Appends the text that a node came from, if there is any.
fn push_quoted(alloc: Global, out: &mut String, text: &str) -> Result<(), AllocError>
    ensures { OnOk result (string_bytes out.new ≡ string_bytes out.old ++ spec.quoted text.now) }
{
    if text.is_empty() {
        return Ok(());
    }
    out.push_str("`")?;
    push_safe(alloc, out, text)?;
    out.push_str("`  ")
}

fn push_example(alloc: Global, out: &mut String, example: &str) -> Result<(), AllocError>
    ensures { OnOk result (string_bytes out.new ≡ string_bytes out.old ++ spec.as_example example.now) }
{
    if example.is_empty() {
        return out.push_str("\n");
    }
    out.push_str(", as `")?;
    push_safe(alloc, out, example)?;
    out.push_str("`\n")
}
