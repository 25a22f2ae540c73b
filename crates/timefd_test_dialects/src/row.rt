//! The answer to a row.

use std::alloc::{AllocError, Global};
use timefd_lang_dialect::{
    Converted, Dialect, DialectError, NoFormatError, RefusedPart, from_version_three,
    to_version_three, to_version_three_for_reading, traps,
};

/// What a row asks of a format, or of a text of version 3.
#[derive(Clone, Copy)]
enum Asked {
    /// The text of version 3 that writes what the format writes.
    Writing,
    /// The text of version 3 that reads what the format writes.
    Reading,
    /// The traps of the format.
    Traps,
    /// The format that writes what a text of version 3 writes.
    Back,
}

/// The line of output for a line of input.
pub fn answer(alloc: Global, line: &str) -> Result<String, AllocError> {
    if line.is_empty() || line.starts_with('#') {
        return String::from_str(alloc, line);
    }
    let Some((front, text)) = line.split_once('\t') else {
        return String::from_str(alloc, "a row is the name of a dialect, a tab and a format");
    };
    let (asked, name) = asked_of(front);
    let Some(dialect) = Dialect::named(name) else {
        return format!(in alloc; "`{name}` is no dialect");
    };
    match asked {
        Asked::Writing => answer_of(alloc, to_version_three(alloc, dialect, text)),
        Asked::Reading => answer_of(alloc, to_version_three_for_reading(alloc, dialect, text)),
        Asked::Traps => traps_line(alloc, dialect, text),
        Asked::Back => format_line(alloc, from_version_three(alloc, dialect, text)),
    }
}

/// What is asked, and the name of the dialect.
fn asked_of(front: &str) -> (Asked, &str) {
    match front.split_once(' ') {
        Some(("read", name)) => (Asked::Reading, name),
        Some(("traps", name)) => (Asked::Traps, name),
        Some(("back", name)) => (Asked::Back, name),
        _ => (Asked::Writing, front),
    }
}

fn answer_of(alloc: Global, answer: Result<Converted, DialectError>) -> Result<String, AllocError> {
    match answer {
        Ok(converted) => converted_line(alloc, &converted),
        Err(DialectError::Refused(refusal)) => refused(alloc, refusal),
        Err(DialectError::Memory(error)) => Err(error),
    }
}

/// The text, with the moments for which it writes the same unless it does so for all.
fn converted_line(alloc: Global, converted: &Converted) -> Result<String, AllocError> {
    let text = converted.text.as_str();
    let year = converted.limits.first_year;
    match (year, converted.limits.whole_minutes) {
        (0, false) => String::from_str(alloc, text),
        (0, true) => format!(in alloc; "{text}\twhole minutes"),
        (_, false) => format!(in alloc; "{text}\tfrom {year}"),
        (_, true) => format!(in alloc; "{text}\tfrom {year}, whole minutes"),
    }
}

fn refused(alloc: Global, refusal: RefusedPart) -> Result<String, AllocError> {
    format!(in alloc; "{} at byte {}", refusal.reason.name(), refusal.index)
}

/// The format, or the bracket that the dialect has no directive for.
fn format_line(
    alloc: Global,
    answer: Result<Converted, NoFormatError>,
) -> Result<String, AllocError> {
    match answer {
        Ok(converted) => converted_line(alloc, &converted),
        Err(NoFormatError::Lacking(index)) => format!(in alloc; "lacking at byte {index}"),
        Err(NoFormatError::Merged) => String::from_str(alloc, "merged"),
        Err(NoFormatError::Memory(error)) => Err(error),
    }
}

/// The traps of a format, each with its bytes, or `none`.
fn traps_line(alloc: Global, dialect: Dialect, format: &str) -> Result<String, AllocError> {
    let found = traps(alloc, dialect, format)?;
    let mut line = String::new(alloc);
    'traps: for at in 0..found.len() {
        let trap = found[at];
        let front = if at == 0 { "" } else { ", " };
        let name = trap.trap.name();
        let one = format!(in alloc; "{front}{name} at bytes {} to {}", trap.start, trap.end)?;
        line.push_str(&one)?;
    }
    if found.is_empty() {
        line.push_str("none")?;
    }
    Ok(line)
}
