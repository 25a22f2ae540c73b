//! The head of a bracket: its name and its modifiers.

ghost use Rattle.std.specs.Prelude.{ℕ, ◌≡◌, ◌∷◌, [], IfSome, MatchResult, Option};
ghost use Rattle.std.specs.Result.{IfErr};
ghost use Rattle.timefd_lang_component.specs.Tree.{Text};
ghost use Rattle.timefd_language.specs.Bytes.{is_version_three};
ghost use Rattle.timefd_language.specs.Spans.{SpansVersion};
ghost use Rattle.timefd_parse.specs.Checked.{Checks};
ghost use Rattle.timefd_parse.specs.Heads.{ReadsHead};

pub mod modifier;
pub mod modifiers;
pub mod positions;
pub mod verdict;

use crate::head::modifier::read_modifier;
use crate::head::modifiers::Modifiers;
use timefd_lang_fault::{Fault, Name, Rule};
use timefd_language::description_version::DescriptionVersion;
use timefd_language::name::name_of;
use timefd_language::text::{Class, cut};

/// What a bracket holds before its first nested description, or before its end.
#[derive(Clone, Copy)]
pub struct Head<'a> {
    /// The word that names the bracket, and the number of bytes from there to the end of the text.
    pub word: &'a str,
    pub remaining: usize,
    /// What the word names.
    pub name: Option<Name>,
    /// The white bytes after all that.
    pub white: &'a str,
}

/// The head of a bracket, and the rest. `inside` is the text after the `[`. The modifiers of the
/// head are added to `modifiers`, which has none yet.
pub fn read_head<'a>(
    version: DescriptionVersion,
    inside: &'a str,
    modifiers: &mut Modifiers<'a>,
) -> Result<(Head<'a>, &'a str), Fault<'a>>
    requires { (name : Option Name) (total : ℕ) → Checks (is_version_three version) name total
        modifiers.old [] }
    ensures head { ReadsHead (is_version_three version) inside.now modifiers.new result }
    ensures span { IfErr result (SpansVersion (is_version_three version) (91 ∷ inside.now)) }
    ensures fault { IfSome modifiers.new.fault (SpansVersion (is_version_three version) (91 ∷ inside.now)) }
{
    let (white, named) = cut(inside, Class::White);
    let (word, after_word) = cut(named, Class::Word);
    if word.is_empty() {
        let remaining = if white.is_empty() {
            inside.len() + 1
        } else {
            inside.len()
        };
        return Err(Fault {
            rule: Rule::MissingName,
            remaining,
            len: 1,
        });
    }
    let name = name_of(version, word);
    let mut rest = after_word;
    'modifiers: loop {
        let (white, after) = cut(rest, Class::White);
        let Some((modifier, after_modifier)) = read_modifier(version, name, after)? else {
            let head = Head {
                word,
                remaining: named.len(),
                name,
                white,
            };
            return Ok((head, after));
        };
        modifiers.take(version, name, modifier);
        rest = after_modifier;
    }
}
