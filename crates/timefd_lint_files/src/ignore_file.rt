//! A `.gitignore` file.

ghost use Rattle.std.specs.Prelude.{◌≡◌, ◌≤◌, ◌++◌, length, IfOk, OnOk};
ghost use Rattle.timefd_lint_files.specs.IgnoreFiles as spec;
ghost use Rattle.timefd_lint_files.specs.IgnoreFiles.{AreRead, IsReadAs, IsReadFrom};

use crate::pattern::Pattern;
use crate::reading::pattern_of;
use std::alloc::{AllocError, Global};

/// A `.gitignore` file.
#[derive(Drop)]
pub struct IgnoreFile {
    /// How many bytes of a path name the file's folder. Its patterns match what follows them.
    pub folder_len: usize,
    /// What comes before these, in place of the folder's name. Empty if the file is in that folder.
    pub front: Vec<u8>,
    /// The patterns, in the order of the lines.
    pub patterns: Vec<Pattern>,
}

/// How many bytes come before the first line feed, or before the end.
fn line_len(text: &[u8]) -> usize
    ensures len { result ≡ spec.line_len text.now }
    ensures within { result ≤ length text.now }
{
    for (at, byte) in text.iter().enumerate() {
        if *byte == b'\n' {
            return at;
        }
    }
    text.len()
}

/// What follows a line of this length and its line feed.
fn after_line(text: &[u8], len: usize) -> &[u8]
    requires { len ≤ length text.now }
    ensures { result.now ≡ spec.after_line len text.now }
{
    match &text[len..] {
        [] => &[],
        [_, after @ ..] => after,
    }
}

fn push_any(patterns: &mut Vec<Pattern>, found: Option<Pattern>) -> Result<(), AllocError>
    ensures { OnOk result (patterns.new.items ≡ patterns.old.items ++ spec.listed found) }
{
    match found {
        Some(pattern) => {
            patterns.push(pattern)?;
            Ok(())
        }
        None => Ok(()),
    }
}

/// The patterns of a text, one a line.
#[tactic(auto, using(crate::proofs::IgnoreFileLemmas::at_first, crate::proofs::IgnoreFileLemmas::one_more, crate::proofs::IgnoreFileLemmas::at_last))]
fn patterns_of(alloc: Global, text: &[u8]) -> Result<Vec<Pattern>, AllocError>
    ensures { IfOk result (λ patterns. AreRead text.now patterns.items) }
{
    let mut patterns = Vec::new(alloc);
    let mut rest = text;
    'lines: while !rest.is_empty() {
        let len = line_len(rest);
        let found = pattern_of(alloc, &rest[..len])?;
        push_any(&mut patterns, found)?;
        rest = after_line(rest, len);
    }
    Ok(patterns)
}

impl IgnoreFile {
    /// Reads a file with this text, in the folder that the first `folder_len` bytes of a path name.
    ///
    /// # Errors
    ///
    /// An `Err` says that memory ran out.
    pub fn of_text(alloc: Global, folder_len: usize, text: &[u8]) -> Result<IgnoreFile, AllocError>
        ensures { IfOk result (λ file. IsReadAs folder_len text.now file) }
    {
        IgnoreFile::of_text_from(alloc, &[], folder_len, text)
    }

    /// Reads a file with this text, in another folder than the first `folder_len` bytes of a path name: from that
    /// one the path `front` leads there. The front is empty, or ends in `/`.
    ///
    /// # Errors
    ///
    /// An `Err` says that memory ran out.
    pub fn of_text_from(
        alloc: Global,
        front: &[u8],
        folder_len: usize,
        text: &[u8],
    ) -> Result<IgnoreFile, AllocError>
        ensures { IfOk result (λ file. IsReadFrom front.now folder_len text.now file) }
    {
        Ok(IgnoreFile {
            folder_len,
            front: front.to_vec(alloc)?,
            patterns: patterns_of(alloc, text)?,
        })
    }
}
