//! Documents in an editor: positions in them, what is shown about them, and what is offered.

use crate::fault::RowFault;
use crate::fields::{one, three, two};
use crate::sources::text_of;
use std::alloc::{AllocError, Global};
use timefd_bin_streams::{FromReader, ToWriter};
use timefd_lang_warnings::{Level, Levels};
use timefd_lint_lsp::editor::{
    Action, DocumentPosition, DocumentRange, Finding, WantedActions, actions, findings, hover,
    index_of, position_of,
};
use timefd_lint_lsp::{EditorSettings, serve};
use timefd_lint_sources::{Finder, SourceText};

fn number(field: &str) -> Result<usize, RowFault> {
    match field.parse::<usize>() {
        Ok(number) => Ok(number),
        Err(_) => Err(RowFault::Field("a number")),
    }
}

/// The line and the UTF-16 unit of the byte at an index.
pub fn position(alloc: Global, fields: &[&str]) -> Result<String, RowFault> {
    let (text, index) = two(fields, "TEXT INDEX")?;
    let DocumentPosition { line, character } = position_of(text, number(index)?);
    Ok(format!(in alloc; "{line} {character}")?)
}

/// The index of the byte in a line, at a UTF-16 unit.
pub fn index(alloc: Global, fields: &[&str]) -> Result<String, RowFault> {
    let (text, line, character) = three(fields, "TEXT LINE UNIT")?;
    let position = DocumentPosition {
        line: number(line)?,
        character: number(character)?,
    };
    let index = index_of(text, position);
    Ok(format!(in alloc; "{index}")?)
}

fn rust(text: &str) -> SourceText<'_> {
    SourceText {
        file: "",
        finder: Finder::Rust(&[]),
        text,
        allowances: &[],
    }
}

fn position_shown(alloc: Global, position: DocumentPosition) -> Result<String, AllocError> {
    format!(in alloc; "({}, {})", position.line, position.character)
}

fn finding_shown(alloc: Global, count: usize, first: &Finding) -> Result<String, AllocError> {
    let code = first.code;
    let message = &first.message;
    let start = position_shown(alloc, first.range.start)?;
    let end = position_shown(alloc, first.range.end)?;
    match message.split_once('\n') {
        Some((sentence, help)) => {
            format!(in alloc; "{count} {code} {start} {end} {sentence} | {help}")
        }
        None => format!(in alloc; "{count} {code} {start} {end} {message}"),
    }
}

/// How many findings a source of Rust has; then the code of the first, where it begins and ends, and its
/// message.
pub fn all_findings(alloc: Global, fields: &[&str]) -> Result<String, RowFault> {
    let text = one(fields, "SOURCE")?;
    let levels = Some(Levels::all_at(Level::Warned));
    let found = findings(alloc, rust(text), levels)?;
    match found.first() {
        Some(first) => Ok(finding_shown(alloc, found.len(), first)?),
        None => Ok(String::from_str(alloc, "0")?),
    }
}

fn units_shown(alloc: Global, range: DocumentRange) -> Result<String, AllocError> {
    format!(in alloc; "{}-{}", range.start.character, range.end.character)
}

fn push_action(alloc: Global, shown: &mut String, action: &Action) -> Result<(), AllocError> {
    shown.push_str(&action.title)?;
    for edit in &action.edits {
        let units = units_shown(alloc, edit.range)?;
        shown.push_str(&format!(in alloc; " {units} {}", &edit.text)?)?;
    }
    shown.push_str("\n")
}

/// The actions that are offered from one byte of a source of Rust to another, one per line.
pub fn all_actions(alloc: Global, fields: &[&str]) -> Result<String, RowFault> {
    let (text, start, end) = three(fields, "SOURCE START END")?;
    let wanted = WantedActions {
        fixes: true,
        rewrites: true,
        fix_all: false,
    };
    let mut shown = String::new(alloc);
    for action in &actions(alloc, rust(text), wanted, number(start)?, number(end)?)? {
        push_action(alloc, &mut shown, action)?;
    }
    Ok(shown)
}

/// The part at a byte, and what is shown about it.
pub fn hovered(alloc: Global, fields: &[&str]) -> Result<String, RowFault> {
    let (text, index) = two(fields, "SOURCE INDEX")?;
    match hover(alloc, rust(text), number(index)?)? {
        Some(found) => {
            let units = units_shown(alloc, found.range)?;
            Ok(format!(in alloc; "{units} {}", &found.text)?)
        }
        None => Ok(String::from_str(alloc, "nothing")?),
    }
}

/// How a session ends, and what it writes.
pub fn session(alloc: Global, fields: &[&str]) -> Result<String, RowFault> {
    let input = one(fields, "INPUT")?;
    let settings = EditorSettings {
        keys: &[],
        calls: &[],
        levels: None,
    };
    let mut written: Vec<u8> = Vec::new(alloc);
    let mut source = FromReader::new(input.as_bytes());
    let mut sink = ToWriter::new(&mut written);
    let end = serve(alloc, settings, &mut source, &mut sink);
    let output = text_of(alloc, &written)?;
    Ok(format!(in alloc; "{end:?}: {output}")?)
}
