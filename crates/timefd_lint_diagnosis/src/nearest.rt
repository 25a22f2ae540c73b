//! The nearest of some words.

ghost use Rattle.std.specs.Prelude.{◌≡◌, ◌≤◌, IfOk, chars, length, nat_eq, option_map};
ghost use Rattle.std.specs.List.{list_any};
ghost use Rattle.timefd_lint_diagnosis.specs.Edits.{IsDistance};
ghost use Rattle.timefd_lint_diagnosis.specs.Nearest as spec;
ghost use Rattle.timefd_lint_diagnosis.specs.Nearest.{IsNearest, IsNext, IsSoFar};
ghost use Rattle.timefd_lint_diagnosis.specs.Words.{texts};

use crate::few::few_edits;
use std::alloc::{AllocError, Global};
use strsim::damerau_levenshtein;

// The nearest word so far, and how many edits away it is; one more than the edits of a near word if
// there is none yet.
#[derive(Clone, Copy)]
struct Best<'a> {
    edits: usize,
    found: Option<&'a str>,
}

// How many edits away a word still counts as near, by its number of characters: a third of them,
// but at least one; none for a word of fewer than two characters.
fn reach_of(count: usize) -> usize
    ensures { result ≡ spec.reach_of count }
{
    if count < 2 { 0 } else { (count / 3).max(1) }
}

/// The nearest of the words: the one that takes the fewest edits from this word, and the first of
/// several such. An edit puts in, takes away or replaces a character, or swaps two neighbours.
/// `None` if each takes more edits than a third of this word's characters, and more than one, or if
/// this word has fewer than two characters. An `Err` says that memory ran out.
pub fn nearest<'a>(
    alloc: Global,
    words: &[&'a str],
    word: &str,
) -> Result<Option<&'a str>, AllocError>
    ensures { IfOk result (λ found.
        IsNearest (texts words.now) word.now (option_map (λ w. w.now) found)) }
{
    let best = best_of_all(alloc, words, word)?;
    Ok(best.found)
}

// The best of all words, looked at in order.
fn best_of_all<'a>(alloc: Global, words: &[&'a str], word: &str) -> Result<Best<'a>, AllocError>
    ensures { IfOk result (λ best. IsSoFar (texts words.now) word.now best.edits best.found) }
{
    let count = char_count(word);
    let mut best = Best {
        edits: reach_of(count) + 1,
        found: None,
    };
    for candidate in words {
        best = next_best(alloc, word, count, best, candidate)?;
    }
    Ok(best)
}

// The best so far, or one more word if it is better. Words that are longer or shorter by more
// characters than the best has edits, or that lack as many, aren't compared.
fn next_best<'a>(
    alloc: Global,
    word: &str,
    count: usize,
    best: Best<'a>,
    candidate: &'a str,
) -> Result<Best<'a>, AllocError>
    requires { count ≡ length (chars word.now) }
    ensures { IfOk result (IsNext word.now best.entry candidate.entry) }
{
    if best.edits <= 2 {
        return Ok(next_few(word, best, candidate));
    }
    if count.abs_diff(char_count(candidate)) >= best.edits {
        return Ok(best);
    }
    if lacking(word, candidate) >= best.edits {
        return Ok(best);
    }
    let edits = distance(alloc, word, candidate)?;
    if edits < best.edits {
        Ok(Best {
            edits,
            found: Some(candidate),
        })
    } else {
        Ok(best)
    }
}

// The result of `next_best` if the best is at most two edits away, which takes no memory.
fn next_few<'a>(word: &str, best: Best<'a>, candidate: &'a str) -> Best<'a>
    requires { best.edits ≤ 2 }
    ensures { IsNext word.now best.entry candidate.entry result }
{
    let few = few_edits(word, candidate);
    if few < best.edits {
        Best {
            edits: few,
            found: Some(candidate),
        }
    } else {
        best
    }
}

// The least number of edits that turn the first word into the second.
fn distance(alloc: Global, word: &str, other: &str) -> Result<usize, AllocError>
    ensures { IfOk result (IsDistance (chars word.now) (chars other.now)) }
{
    damerau_levenshtein(alloc, word, other)
}

// A number of characters of a word that another one lacks. It takes at least as many edits to turn
// the one into the other.
fn lacking(word: &str, other: &str) -> usize
    ensures { result ≤ spec.lacking (chars other.now) (chars word.now) }
{
    let mut count: usize = 0;
    for character in word.chars() {
        count = count.saturating_add(lack_of(other, character));
    }
    count
}

// 1 if the text lacks the character, else 0.
fn lack_of(text: &str, character: char) -> usize
    ensures { result ≡ spec.lack_of (chars text.now) character }
{
    if has(text, character) { 0 } else { 1 }
}

fn has(text: &str, character: char) -> bool
    ensures { result ≡ list_any (nat_eq character) (chars text.now) }
{
    text.chars().any(|c| c == character)
}

fn char_count(text: &str) -> usize
    ensures { result ≡ length (chars text.now) }
{
    text.chars().count()
}
