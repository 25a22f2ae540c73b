//! The pattern of a line of a `.gitignore` file.

ghost use Rattle.std.specs.Prelude.{◌≡◌, IfOk};
ghost use Rattle.timefd_lint_files.specs.Patterns.{HasTokens, IsRead};

use crate::last_name::are_of_name;
use crate::line::{PatternLine, line_of};
use crate::pattern::Pattern;
use crate::token::PatternToken;
use crate::tokens::push_tokens;
use std::alloc::{AllocError, Global};

/// The tokens of a line. A line that isn't anchored matches in any folder.
fn tokens_of(alloc: Global, line: PatternLine<'_>) -> Result<Vec<PatternToken>, AllocError>
    ensures { IfOk result (λ tokens. HasTokens line.entry tokens.items) }
{
    let mut tokens = Vec::new(alloc);
    if !line.is_anchored {
        tokens
            .push(PatternToken::Folders)
            .map_err(AllocError::from)?;
    }
    push_tokens(alloc, &mut tokens, line.text)?;
    Ok(tokens)
}

/// The pattern of a line, which is given without its line feed. `None` if the line is empty or a comment.
///
/// # Errors
///
/// An `Err` says that memory ran out.
pub fn pattern_of(alloc: Global, line: &[u8]) -> Result<Option<Pattern>, AllocError>
    ensures { IfOk result (λ found. IsRead line.now found) }
{
    let Some(line) = line_of(line) else {
        return Ok(None);
    };
    let tokens = tokens_of(alloc, line)?;
    let is_of_name = are_of_name(&tokens);
    Ok(Some(Pattern {
        tokens,
        is_negated: line.is_negated,
        is_for_folders: line.is_for_folders,
        is_of_name,
    }))
}
