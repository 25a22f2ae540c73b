//! Whether a pattern matches a path.

ghost use Rattle.std.specs.Prelude.{◌≡◌, ◌<◌, ◌↔◌, [], length, IfOk, IsTrue};
ghost use Rattle.timefd_lint_files.specs.Matching as spec;
ghost use Rattle.timefd_lint_files.specs.Matching.{IsRow, IsRowAfter, Matches};

use crate::ends::{LeftToMatch, without_end, without_front};
use crate::token::PatternToken;
use std::alloc::AllocError;

// A row has an entry for each position in a path, and for its end: whether the tokens match all bytes from
// that position on.

/// Turns the row of the tokens after the first one into the row of all tokens.
#[tactic(auto, using(crate::proofs::RowLemmas::at_end, crate::proofs::RowLemmas::one_more, crate::proofs::RowLemmas::whole))]
fn add_first(tokens: &[PatternToken], path: &[u8], row: &mut [bool])
    requires some { 0 < length tokens.now }
    requires after { IsRowAfter tokens.now path.now row.old }
    ensures { IsRow tokens.now path.now row.new }
{
    let first = &tokens[0];
    let takes_none = first.takes_none();
    let mut at = path.len();
    let mut fits = row[at];
    let mut goes_on = false;
    row[at] = takes_none && fits;
    'positions: while at > 0 {
        at -= 1;
        goes_on = first.takes(path[at], fits, goes_on);
        fits = row[at];
        row[at] = goes_on || (takes_none && fits);
    }
}

/// Turns the row of no tokens into the row of all tokens.
#[tactic(auto, using(crate::proofs::RowLemmas::after_first, crate::proofs::RowLemmas::as_slice))]
fn add_all(tokens: &[PatternToken], path: &[u8], row: &mut [bool])
    requires { IsRow [] path.now row.old }
    ensures { IsRow tokens.now path.now row.new }
{
    let mut from = tokens.len();
    'tokens: while from > 0 {
        from -= 1;
        add_first(&tokens[from..], path, row);
    }
}

/// Whether the tokens match the path, computed row by row. Takes one step for each pair of a token (or a
/// range of a class) and a byte.
#[tactic(auto, using(crate::proofs::RowLemmas::none_first, crate::proofs::MatchingLemmas::first_position))]
fn matches_by_rows(
    tokens: &[PatternToken],
    path: &[u8],
    row: &mut Vec<bool>,
) -> Result<bool, AllocError>
    ensures { IfOk result (λ matches. matches ≡ spec.matches tokens.now path.now) }
{
    row.clear();
    row.resize(path.len(), false)?;
    row.push(true)?;
    let answers = row.as_mut_slice();
    add_all(tokens, path, answers);
    Ok(answers[0])
}

/// Whether the remaining tokens match the rest of the path.
fn matches_left(left: LeftToMatch<'_>, row: &mut Vec<bool>) -> Result<bool, AllocError>
    ensures { IfOk result (λ matches. matches ≡ spec.matches left.entry.tokens.now left.entry.path.now) }
{
    if left.tokens.is_empty() {
        return Ok(left.path.is_empty());
    }
    matches_by_rows(left.tokens, left.path, row)
}

/// Whether the tokens match the path, which has a `/` between its names. Most paths don't match, and the
/// bytes at their ends already show it. Only what remains between two stars, or contains one, takes a step
/// for each pair of a token (or a range of a class) and a byte. The row is working space.
///
/// # Errors
///
/// An `Err` says that memory ran out.
#[tactic(auto, using(crate::proofs::MatchingLemmas::as_decided))]
pub fn matches(
    tokens: &[PatternToken],
    path: &[u8],
    row: &mut Vec<bool>,
) -> Result<bool, AllocError>
    ensures exact { IfOk result (λ matches. IsTrue matches ↔ Matches tokens.now path.now) }
    ensures test { IfOk result (λ matches. matches ≡ spec.matches tokens.now path.now) }
{
    let Some(front) = without_end(tokens, path) else {
        return Ok(false);
    };
    let Some(left) = without_front(front.tokens, front.path) else {
        return Ok(false);
    };
    matches_left(left, row)
}
