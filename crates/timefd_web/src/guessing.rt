//! The descriptions that texts may be written by.

ghost use Rattle.std.specs.Prelude.{◌≡◌, ℕ, IfOk};
ghost use Rattle.std.specs.Str.Lines.{lines};
ghost use Rattle.timefd_description.specs.Guessing.Found.{texts};
ghost use Rattle.timefd_web.specs.Guesses as spec;

use crate::records::{Record, push_list};
use std::alloc::{AllocError, Global};
use timefd_description::guessing::{Guess, guesses};
use timefd_lint_drawing::json::{push_number, push_text};

/// The descriptions that the lines of a text may be written by, likeliest first, as a JSON object. An
/// `Err` says that memory ran out, and nothing about the text.
pub fn guesses_of(alloc: Global, text: &str) -> Result<Vec<u8>, AllocError>
    ensures guesses { IfOk result (λ object. spec.Guessed text.now object.items) }
{
    let texts = lines_of(alloc, text)?;
    let found = guesses(alloc, &texts)?;
    guesses_object(alloc, &found, texts.len())
}

/// The lines of a text, as `lines` of the standard library has them.
fn lines_of<'a>(alloc: Global, text: &'a str) -> Result<Vec<&'a str>, AllocError>
    ensures { IfOk result (λ all. texts all.items ≡ lines text.now) }
{
    text.lines().collect(alloc)
}

fn guesses_object(alloc: Global, found: &[Guess], count: usize) -> Result<Vec<u8>, AllocError>
    ensures { IfOk result (λ object. object.items ≡ spec.guesses_object found.now count) }
{
    let mut out = Vec::new(alloc);
    push_list(alloc, &mut out, "{\"guesses\":", found)?;
    push_number(alloc, &mut out, ",\"texts\":", count as u64)?;
    out.extend_from_slice(b"}")?;
    Ok(out)
}

impl Record for Guess {
    ghost object_text = { spec.guess_object };

    fn object(&self, alloc: Global) -> Result<Vec<u8>, AllocError> {
        guess_object(alloc, *self)
    }
}

fn guess_object(alloc: Global, guess: Guess) -> Result<Vec<u8>, AllocError>
    ensures { IfOk result (λ object. object.items ≡ spec.guess_object guess) }
{
    let mut out = Vec::new(alloc);
    push_text(&mut out, "{\"description\":", guess.description)?;
    push_number(alloc, &mut out, ",\"undecided\":", guess.undecided as u64)?;
    out.extend_from_slice(b"}")?;
    Ok(out)
}
