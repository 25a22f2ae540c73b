//! A pattern of a `.gitignore` file, and whether it applies to a path.

ghost use Rattle.std.specs.Prelude.{◌≡◌};
ghost use Rattle.timefd_lint_files.specs.FileNames.{are_of_name};

use crate::last_name::file_name;
use crate::matching;
use crate::token::PatternToken;
use std::alloc::AllocError;

/// A pattern of a `.gitignore` file.
#[derive(Drop)]
pub struct Pattern {
    /// The tokens that match a path, relative to its file's folder.
    pub tokens: Vec<PatternToken>,
    /// Whether matching paths are kept instead of ignored.
    pub is_negated: bool,
    /// Whether it matches folders alone.
    pub is_for_folders: bool,
    /// Whether it matches a name in any folder, so that the last name of a path alone decides.
    pub is_of_name: bool,
    ghost named: { is_of_name ≡ are_of_name tokens.items },
}

impl Pattern {
    ghost use Rattle.std.specs.Prelude.{◌≡◌, ◌↔◌, IfOk, IsTrue};
    ghost use Rattle.timefd_lint_files.specs.FileNames.{file_name};
    ghost use Rattle.timefd_lint_files.specs.Matching.{matches};
    ghost use Rattle.timefd_lint_files.specs.Patterns as spec;
    ghost use Rattle.timefd_lint_files.specs.Patterns.{Applies};

    /// Whether the pattern's tokens match a path with this last name.
    #[tactic(auto, using(crate::proofs::FileNameLemmas::name_alone))]
    fn matches(&self, path: &[u8], name: &[u8], row: &mut Vec<bool>) -> Result<bool, AllocError>
        requires { name.now ≡ file_name path.now }
        ensures { IfOk result (λ answer. answer ≡ matches self.now.tokens.items path.now) }
    {
        if self.is_of_name {
            return matching::matches(&self.tokens[1..], name, row);
        }
        matching::matches(&self.tokens, path, row)
    }

    /// Whether the pattern matches a path with this last name.
    pub fn applies_to(
        &self,
        path: &[u8],
        name: &[u8],
        is_folder: bool,
        row: &mut Vec<bool>,
    ) -> Result<bool, AllocError>
        requires { name.now ≡ file_name path.now }
        ensures { IfOk result (λ applies. applies ≡ spec.applies self.now path.now is_folder) }
    {
        if self.is_for_folders && !is_folder {
            return Ok(false);
        }
        self.matches(path, name, row)
    }

    /// Whether the pattern matches a path, given relative to its file's folder, with a `/` between the names.
    /// The row is working space.
    pub fn applies(
        &self,
        path: &[u8],
        is_folder: bool,
        row: &mut Vec<bool>,
    ) -> Result<bool, AllocError>
        ensures exact { IfOk result (λ applies. IsTrue applies ↔ Applies self.now path.now is_folder) }
        ensures test { IfOk result (λ applies. applies ≡ spec.applies self.now path.now is_folder) }
    {
        self.applies_to(path, file_name(path), is_folder, row)
    }
}
