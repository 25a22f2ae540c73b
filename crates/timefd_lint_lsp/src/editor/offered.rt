//! The words that may be written where a name, a key or a value is begun.

ghost use Rattle.std.specs.Prelude.{◌≡◌, ◌++◌, ◌∷◌, [], IfOk, OnOk};
ghost use Rattle.std.specs.List.{filter};
ghost use Rattle.timefd_lint_diagnosis.specs.Words.{texts};
ghost use Rattle.timefd_language.specs.Bytes.{is_version_three};
ghost use Rattle.timefd_lint_lsp.specs.Editor.Offered.{around};
ghost use Rattle.timefd_lint_lsp.specs.Editor.Offered as spec;

use crate::editor::given::{begins, is_given_after, is_given_before};
use std::alloc::{AllocError, Global};
use timefd_lint_diagnosis::Slot;
use timefd_lint_diagnosis::words::words_at;
use timefd_parse::DescriptionVersion;

/// A word that is begun, and what it is.
#[derive(Clone, Copy)]
pub struct Begun<'a> {
    pub version: DescriptionVersion,
    pub slot: Slot,
    /// The text of the description before the word.
    pub before: &'a str,
    /// The word, up to the cursor.
    pub word: &'a str,
    /// The text after the cursor.
    pub after: &'a str,
}

/// All words that may be written there, in the order of their table: those that begin as the word does, without the
/// keys that the bracket already has. An `Err` says that memory ran out.
pub fn offered(alloc: Global, begun: Begun<'_>) -> Result<Vec<&'static str>, AllocError>
    ensures { IfOk result (λ words. texts words.items ≡ spec.offered (around begun.entry)) }
{
    let mut words: Vec<&'static str> = Vec::new(alloc);
    push_all(&mut words, begun, words_at(begun.slot, begun.version))?;
    Ok(words)
}

#[tactic(auto, using(crate::proofs::EditorLemmas::OfferedLemmas::one_more, crate::proofs::EditorLemmas::OfferedLemmas::at_last))]
fn push_all(
    words: &mut Vec<&'static str>,
    begun: Begun<'_>,
    all: &[&'static str],
) -> Result<(), AllocError>
    ensures { OnOk result (texts words.new.items ≡ texts words.old.items
        ++ filter (spec.is_offered (around begun.entry)) (texts all.now)) }
{
    for word in all {
        push_if(words, begun, word)?;
    }
    Ok(())
}

// Adds a word, if it may be written there.
#[tactic(auto, using(crate::proofs::EditorLemmas::OfferedLemmas::one_kept, crate::proofs::EditorLemmas::OfferedLemmas::none_kept))]
fn push_if(
    words: &mut Vec<&'static str>,
    begun: Begun<'_>,
    word: &'static str,
) -> Result<(), AllocError>
    ensures { OnOk result (texts words.new.items ≡ texts words.old.items
        ++ filter (spec.is_offered (around begun.entry)) (word.now ∷ [])) }
{
    if is_offered(begun, word) {
        words.push(word)?;
    }
    Ok(())
}

fn is_offered(begun: Begun<'_>, word: &str) -> bool
    ensures { result ≡ spec.is_offered (around begun.entry) word.now }
{
    begins(begun.version, begun.word.as_bytes(), word.as_bytes()) && is_left(begun, word)
}

// Whether a word isn't a key that the bracket already has.
fn is_left(begun: Begun<'_>, word: &str) -> bool
    ensures { result ≡ spec.is_left (around begun.entry) word.now }
{
    match begun.slot {
        Slot::Key(_) => !is_given(begun, word.as_bytes()),
        Slot::Name | Slot::Value(_) => true,
    }
}

fn is_given(begun: Begun<'_>, key: &[u8]) -> bool
    ensures { result ≡ spec.is_given (around begun.entry) key.now }
{
    is_given_before(begun.version, key, begun.before.as_bytes())
        || is_given_after(begun.version, key, begun.after.as_bytes())
}
