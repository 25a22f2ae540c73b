//! One modifier of a head.

ghost use Rattle.std.specs.Prelude.{◌++◌};
ghost use Rattle.std.specs.Result.{IfErr};
ghost use Rattle.timefd_lang_component.specs.Tree.{Text};
ghost use Rattle.timefd_language.specs.Bytes.{is_version_three};
ghost use Rattle.timefd_language.specs.Slots.{EndsAfterHead};
ghost use Rattle.timefd_language.specs.Spans.{SpansVersion};
ghost use Rattle.timefd_parse.specs.ReadModifiers.{ReadsModifier};

use crate::head::modifiers::{colon_rule, key_rule};
use timefd_lang_fault::{Fault, Name};
use timefd_language::description_version::DescriptionVersion;
use timefd_language::text::{Class, after_colon, cut};

/// A key and its value. A position is given as the number of bytes from there to the end of the
/// text.
#[derive(Clone, Copy)]
pub struct Modifier<'a> {
    pub key: &'a str,
    pub key_remaining: usize,
    pub value: &'a str,
    pub value_remaining: usize,
}

/// The modifier that a text begins with in a bracket with this name, and the rest. `None` if the
/// text begins with neither a key nor a colon.
#[inline(always)]
pub fn read_modifier<'a>(
    version: DescriptionVersion,
    name: Option<Name>,
    text: &'a str,
) -> Result<Option<(Modifier<'a>, &'a str)>, Fault<'a>>
    ensures modifier { ReadsModifier text.now result }
    ensures span { (front : Text) → EndsAfterHead (is_version_three version) front name
        → IfErr result (SpansVersion (is_version_three version) (front ++ text.now)) }
{
    let (key, after) = cut(text, Class::Key);
    let Some(assigned) = after_colon(after) else {
        if key.is_empty() {
            return Ok(None);
        }
        return Err(Fault {
            rule: key_rule(name, key),
            remaining: text.len(),
            len: key.len(),
        });
    };
    let (value, rest) = cut(assigned, Class::Word);
    if key.is_empty() {
        return Err(Fault {
            rule: colon_rule(version, name, key),
            remaining: text.len(),
            len: 1,
        });
    }
    if value.is_empty() {
        return Err(Fault {
            rule: colon_rule(version, name, key),
            remaining: after.len(),
            len: 1,
        });
    }
    let modifier = Modifier {
        key,
        key_remaining: text.len(),
        value,
        value_remaining: assigned.len(),
    };
    Ok(Some((modifier, rest)))
}
