//! A word that is none of those that there are.

ghost use Rattle.std.specs.Prelude.{◌≡◌, IfOk, option_map, string_bytes};
ghost use Rattle.timefd_lint_diagnosis.specs.Words.{texts};
ghost use Rattle.timefd_lint.specs.NoneOf as spec;

use std::alloc::{AllocError, Global};
use timefd_lint_diagnosis::nearest::nearest;
use timefd_lint_drawing::shown::safe;

/// Says, after these words, that a name is none of these, which one is nearest, and which there are. An `Err` says
/// that memory ran out.
pub fn none_of(alloc: Global, what: &str, all: &[&str], name: &str) -> Result<String, AllocError>
    ensures { IfOk result (λ text. spec.IsNoneOf what.now (texts all.now) name.now (string_bytes text)) }
{
    let nearest = nearest(alloc, all, name)?;
    let words = all.join(alloc, ", ")?;
    sentence(alloc, what, name, nearest, &words)
}

fn sentence(
    alloc: Global,
    what: &str,
    name: &str,
    nearest: Option<&str>,
    words: &str,
) -> Result<String, AllocError>
    ensures { IfOk result (λ text. string_bytes text
        ≡ spec.sentence what.now name.now (option_map (λ w. w.now) nearest.entry) words.now) }
{
    let front = front(alloc, what, name)?;
    match nearest {
        Some(word) => format!(in alloc; "{front}; the nearest is `{word}`; all are {words}"),
        None => format!(in alloc; "{front}; all are {words}"),
    }
}

fn front(alloc: Global, what: &str, name: &str) -> Result<String, AllocError>
    ensures { IfOk result (λ text. string_bytes text ≡ spec.front what.now name.now) }
{
    let name = safe(alloc, name)?;
    format!(in alloc; "{what} `{name}`")
}
