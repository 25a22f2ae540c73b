//! The lines of two texts, side by side.

ghost use Rattle.std.specs.Prelude.{◌≡◌, IfOk};
ghost use Rattle.std.specs.Io.BufRead.{drop_through, take_through};
ghost use Rattle.timefd_lint_rewrite.specs.Diffs as spec;

use std::alloc::{AllocError, Global};

/// A line, and the line that replaces it.
#[derive(Clone, Copy)]
pub struct Pair<'a> {
    pub old: &'a [u8],
    pub new: &'a [u8],
}

/// Each line of a text, and the line of another one that is at its place. An `Err` says that memory ran out.
#[tactic(auto, using(crate::proofs::PairLemmas::none_yet, crate::proofs::PairLemmas::pair_more, crate::proofs::PairLemmas::all_pairs, crate::proofs::PairLemmas::fewer))]
pub fn pairs_of<'a>(
    alloc: Global,
    old: &'a [u8],
    new: &'a [u8],
) -> Result<Vec<Pair<'a>>, AllocError>
    ensures { IfOk result (λ pairs. spec.AreSideBySide old.now new.now (spec.lines_of pairs.items)) }
{
    let mut pairs = Vec::new(alloc);
    let mut old_rest = old;
    let mut new_rest = new;
    'lines: while !old_rest.is_empty() {
        let pair = Pair {
            old: first_line(old_rest),
            new: first_line(new_rest),
        };
        pairs.push(pair)?;
        old_rest = after_line(old_rest);
        new_rest = after_line(new_rest);
    }
    Ok(pairs)
}

// The first line of a text, with its newline.
#[tactic(auto, using(crate::proofs::PairLemmas::first, crate::proofs::PairLemmas::at_most))]
fn first_line(text: &[u8]) -> &[u8]
    ensures { result.now ≡ take_through 10 text.now }
{
    let rest = after_line(text);
    &text[..text.len() - rest.len()]
}

// What follows the first line of a text.
fn after_line(text: &[u8]) -> &[u8]
    ensures { result.now ≡ drop_through 10 text.now }
{
    let mut rest = text;
    'bytes: while let [byte, after @ ..] = rest {
        if *byte == b'\n' {
            return after;
        }
        rest = after;
    }
    rest
}
