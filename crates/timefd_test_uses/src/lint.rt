//! Shows where a text has a fault, as a linter does.

ghost use Rattle.std.specs.Prelude.{◌≡◌, List, None, IfOk, IfSome, string_bytes};
ghost use Rattle.timefd_parse.specs.Faults as spec;
ghost use Rattle.timefd_parse.specs.Tree.{Tree};
ghost use Rattle.timefd_parse.specs.Broken.{FaultOf};
ghost use Rattle.timefd_parse.specs.Grammar.{Spells, nesting_limit};
ghost use Rattle.timefd_test_uses.specs.Messages.{IsMessage};

use crate::position::{LineColumn, caret_line, line_of, position_of};
use std::alloc::{AllocError, Global};
use timefd_parse::{DescriptionVersion, InvalidFormatDescription, ParseError, parse_borrowed};

/// What is wrong with a text of a version: `NAME:LINE:COLUMN: sentence`, then the line at fault,
/// and a caret under the column. `None` if nothing is wrong.
pub fn lint(
    alloc: Global,
    version: DescriptionVersion,
    name: &str,
    text: &str,
) -> Result<Option<String>, AllocError>
    ensures accepted { IfOk result (λ found. found ≡ None
        → (list : List Tree) × Spells version nesting_limit 0 text.now list) }
    ensures refused { IfOk result (λ found. IfSome found (λ message.
        (f : spec.Fault) × FaultOf version nesting_limit text.now f × IsMessage name.now text.now f (string_bytes message))) }
{
    match parse_borrowed(alloc, version, text) {
        Ok(_) => Ok(None),
        Err(ParseError::Invalid(fault)) => Ok(Some(message(alloc, name, text, &fault)?)),
        Err(ParseError::Memory(error)) => Err(error),
    }
}

/// The message about a fault.
fn message(
    alloc: Global,
    name: &str,
    text: &str,
    fault: &InvalidFormatDescription,
) -> Result<String, AllocError>
    ensures { IfOk result (λ message. IsMessage name.now text.now (spec.fault_of fault.now)
        (string_bytes message)) }
{
    let LineColumn { line, column } = position_of(text, fault.index());
    let shown = line_of(text, line - 1);
    let caret = caret_line(alloc, column - 1)?;
    format!(in alloc; "{name}:{line}:{column}: {fault}\n{shown}\n{caret}\n")
}
