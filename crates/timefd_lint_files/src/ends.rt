//! Strips from a pattern and a path the bytes that their fronts or ends have in common.

ghost use Rattle.std.specs.Prelude.{◌≡◌};
ghost use Rattle.timefd_lint_files.specs.Matching as spec;
ghost use Rattle.timefd_lint_files.specs.Ends.{BeginsAlikeIn, Decides, EndsAlikeIn};

use crate::token::PatternToken;

/// What remains of a pattern and a path.
#[derive(Clone, Copy)]
pub struct LeftToMatch<'a> {
    pub tokens: &'a [PatternToken],
    pub path: &'a [u8],
}

/// How many tokens at the end match one byte each, namely the last bytes of the path. `None` if one of them
/// doesn't match its byte.
#[tactic(auto, using(crate::proofs::EndLemmas::none_after, crate::proofs::EndLemmas::one_after, crate::proofs::EndLemmas::other_after, crate::proofs::EndLemmas::end_of_path_after))]
fn end_len(tokens: &[PatternToken], path: &[u8]) -> Option<usize>
    ensures { EndsAlikeIn tokens.now path.now result }
{
    let mut count = 0;
    'bytes: while count < tokens.len() {
        let token = &tokens[tokens.len() - count - 1];
        if token.takes_none() {
            return Some(count);
        }
        if count == path.len() {
            return None;
        }
        if !token.takes(path[path.len() - count - 1], true, false) {
            return None;
        }
        count += 1;
    }
    Some(count)
}

/// How many tokens at the front match one byte each, namely the first bytes of the path. `None` if one of
/// them doesn't match its byte.
#[tactic(auto, using(crate::proofs::EndLemmas::none_before, crate::proofs::EndLemmas::one_before, crate::proofs::EndLemmas::other_before, crate::proofs::EndLemmas::end_of_path_before))]
fn front_len(tokens: &[PatternToken], path: &[u8]) -> Option<usize>
    ensures { BeginsAlikeIn tokens.now path.now result }
{
    let mut count = 0;
    'bytes: while count < tokens.len() {
        let token = &tokens[count];
        if token.takes_none() {
            return Some(count);
        }
        if count == path.len() {
            return None;
        }
        if !token.takes(path[count], true, false) {
            return None;
        }
        count += 1;
    }
    Some(count)
}

/// What comes before the end that both have in common. `None` if their ends differ.
pub fn without_end<'a>(tokens: &'a [PatternToken], path: &'a [u8]) -> Option<LeftToMatch<'a>>
    ensures { Decides (spec.matches tokens.now path.now) result }
{
    let Some(count) = end_len(tokens, path) else {
        return None;
    };
    Some(LeftToMatch {
        tokens: &tokens[..tokens.len() - count],
        path: &path[..path.len() - count],
    })
}

/// What comes after the front that both have in common. `None` if their fronts differ.
pub fn without_front<'a>(tokens: &'a [PatternToken], path: &'a [u8]) -> Option<LeftToMatch<'a>>
    ensures { Decides (spec.matches tokens.now path.now) result }
{
    let Some(count) = front_len(tokens, path) else {
        return None;
    };
    Some(LeftToMatch {
        tokens: &tokens[count..],
        path: &path[count..],
    })
}
