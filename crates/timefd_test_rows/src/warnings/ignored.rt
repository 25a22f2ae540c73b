//! Files and folders that are ignored, by `.gitignore` files.

use crate::fault::RowFault;
use crate::fields::{one, two};
use std::alloc::{AllocError, Global};
use timefd_lint_files::{IgnoreFile, Pattern, is_ignored, pattern_of};

/// What a pattern matches at a path: files, folders, both or neither.
fn matched(alloc: Global, pattern: &Pattern, path: &str) -> Result<&'static str, AllocError> {
    let mut row = Vec::new(alloc);
    let matches_files = pattern.applies(path.as_bytes(), false, &mut row)?;
    let matches_folders = pattern.applies(path.as_bytes(), true, &mut row)?;
    match (matches_files, matches_folders) {
        (true, true) => Ok("files and folders"),
        (true, false) => Ok("files"),
        (false, true) => Ok("folders"),
        (false, false) => Ok("nothing"),
    }
}

/// Whether the pattern of a line matches files and folders of a path.
pub fn pattern(alloc: Global, fields: &[&str]) -> Result<String, RowFault> {
    let (line, path) = two(fields, "LINE PATH")?;
    match pattern_of(alloc, line.as_bytes())? {
        Some(pattern) => Ok(String::from_str(alloc, matched(alloc, &pattern, path)?)?),
        None => Err(RowFault::Field("a line with a pattern")),
    }
}

/// Whether a line has a pattern, and what the pattern says.
pub fn line(alloc: Global, fields: &[&str]) -> Result<String, RowFault> {
    let line = one(fields, "LINE")?;
    let answer = match pattern_of(alloc, line.as_bytes())? {
        Some(pattern) if pattern.is_negated => "kept",
        Some(_) => "ignored",
        None => "no pattern",
    };
    Ok(String::from_str(alloc, answer)?)
}

/// How many patterns a file has.
pub fn file(alloc: Global, fields: &[&str]) -> Result<String, RowFault> {
    let text = one(fields, "TEXT")?;
    let file = IgnoreFile::of_text(alloc, 0, text.as_bytes())?;
    let count = file.patterns.len();
    Ok(format!(in alloc; "{count}")?)
}

fn is_folder(kind: &str) -> Result<bool, RowFault> {
    match kind {
        "file" => Ok(false),
        "folder" => Ok(true),
        _ => Err(RowFault::Field("a kind: file or folder")),
    }
}

const FILES: RowFault = RowFault::Fields("KIND PATH [FOLDER TEXT]..");

/// The `.gitignore` files, each the name of its folder and its text.
fn files_of(alloc: Global, fields: &[&str]) -> Result<Vec<IgnoreFile>, RowFault> {
    let mut files = Vec::new(alloc);
    for pair in fields.chunks(2) {
        let [folder, text] = pair else {
            return Err(FILES);
        };
        let file = IgnoreFile::of_text(alloc, folder.len(), text.as_bytes())?;
        files.push(file)?;
    }
    Ok(files)
}

/// Whether `.gitignore` files ignore a file or a folder.
pub fn ignored(alloc: Global, fields: &[&str]) -> Result<String, RowFault> {
    let [kind, path, files @ ..] = fields else {
        return Err(FILES);
    };
    let files = files_of(alloc, files)?;
    let mut row = Vec::new(alloc);
    let answer = if is_ignored(&files, path.as_bytes(), is_folder(kind)?, &mut row)? {
        "ignored"
    } else {
        "kept"
    };
    Ok(String::from_str(alloc, answer)?)
}
