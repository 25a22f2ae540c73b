//! What `.gitignore` files say about a path.

ghost use Rattle.std.specs.Prelude.{◌≡◌, ◌++◌, IfOk};
ghost use Rattle.timefd_lint_files.specs.FileNames.{file_name};
ghost use Rattle.timefd_lint_files.specs.Rules as spec;

use crate::ignore_file::IgnoreFile;
use crate::last_name::file_name;
use crate::pattern::Pattern;
use std::alloc::AllocError;

/// What a pattern says about the paths that it matches.
#[derive(Clone, Copy, Debug, PartialEq, Eq)]
pub enum PatternVerdict {
    /// They are ignored.
    Ignored,
    /// They are kept, whatever earlier patterns say.
    Kept,
}

impl Pattern {
    /// What the pattern says about the paths that it matches.
    pub fn verdict(&self) -> PatternVerdict
        ensures { result ≡ spec.verdict self.now }
    {
        if self.is_negated {
            PatternVerdict::Kept
        } else {
            PatternVerdict::Ignored
        }
    }
}

/// A path with what comes before it.
fn with_front(front: &Vec<u8>, path: &[u8]) -> Result<Vec<u8>, AllocError>
    ensures { IfOk result (λ whole. whole.items ≡ front.now.items ++ path.now) }
{
    let mut whole = front.clone()?;
    whole.extend_from_slice(path)?;
    Ok(whole)
}

impl IgnoreFile {
    /// What the file's last matching pattern says about a path. `None` if no pattern matches.
    #[tactic(auto, using(crate::proofs::RuleLemmas::without_front, crate::proofs::RuleLemmas::after_front))]
    fn verdict(
        &self,
        path: &[u8],
        is_folder: bool,
        row: &mut Vec<bool>,
    ) -> Result<Option<PatternVerdict>, AllocError>
        ensures { IfOk result (λ verdict. verdict ≡ spec.verdict_in self.now path.now is_folder) }
    {
        let below = path.get(self.folder_len..).unwrap_or(&[]);
        if self.front.is_empty() {
            let verdict = last_verdict(&self.patterns, below, file_name(below), is_folder, row)?;
            return Ok(verdict);
        }
        let whole = with_front(&self.front, below)?;
        let verdict = last_verdict(&self.patterns, &whole, file_name(&whole), is_folder, row)?;
        Ok(verdict)
    }
}

/// What the last matching pattern says about a path with this last name. `None` if no pattern matches.
#[tactic(auto, using(crate::proofs::RuleLemmas::later_twice, crate::proofs::RuleLemmas::from_none))]
fn last_verdict(
    patterns: &[Pattern],
    path: &[u8],
    name: &[u8],
    is_folder: bool,
    row: &mut Vec<bool>,
) -> Result<Option<PatternVerdict>, AllocError>
    requires { name.now ≡ file_name path.now }
    ensures { IfOk result (λ verdict.
        verdict ≡ spec.last_verdict patterns.now path.now is_folder) }
{
    let mut last = None;
    for pattern in patterns {
        if pattern.applies_to(path, name, is_folder, row)? {
            last = Some(pattern.verdict());
        }
    }
    Ok(last)
}

/// What the deepest file that says anything about a path says. The files are those of the folders on the way
/// to the path, from the top.
#[tactic(auto, using(crate::proofs::RuleLemmas::later_twice, crate::proofs::RuleLemmas::from_none))]
fn deepest_verdict(
    files: &[IgnoreFile],
    path: &[u8],
    is_folder: bool,
    row: &mut Vec<bool>,
) -> Result<Option<PatternVerdict>, AllocError>
    ensures { IfOk result (λ verdict.
        verdict ≡ spec.deepest_verdict files.now path.now is_folder) }
{
    let mut deepest = None;
    for file in files {
        if let Some(verdict) = file.verdict(path, is_folder, row)? {
            deepest = Some(verdict);
        }
    }
    Ok(deepest)
}

/// Whether a path is ignored: the last matching pattern decides, in the deepest file that has one. The files
/// are those of the folders on the way to the path, from the top. The caller checks that no folder above the
/// path is ignored. The row is working space.
///
/// # Errors
///
/// An `Err` says that memory ran out.
pub fn is_ignored(
    files: &[IgnoreFile],
    path: &[u8],
    is_folder: bool,
    row: &mut Vec<bool>,
) -> Result<bool, AllocError>
    ensures { IfOk result (λ ignored. ignored ≡ spec.is_ignored files.now path.now is_folder) }
{
    match deepest_verdict(files, path, is_folder, row)? {
        Some(PatternVerdict::Ignored) => Ok(true),
        Some(PatternVerdict::Kept) | None => Ok(false),
    }
}

/// Whether a walk passes over a path: the path is excluded, whatever `ignores` says, or it is ignored. The
/// row is working space.
///
/// # Errors
///
/// An `Err` says that memory ran out.
pub fn is_passed_over(
    excluded: &[IgnoreFile],
    ignores: &[IgnoreFile],
    path: &[u8],
    is_folder: bool,
    row: &mut Vec<bool>,
) -> Result<bool, AllocError>
    ensures { IfOk result (λ passed. passed ≡ spec.is_passed_over excluded.now ignores.now path.now is_folder) }
{
    if is_ignored(excluded, path, is_folder, row)? {
        return Ok(true);
    }
    is_ignored(ignores, path, is_folder, row)
}
