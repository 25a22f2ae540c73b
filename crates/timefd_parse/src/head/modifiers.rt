//! What the modifiers of a head set, read one at a time.

ghost use Rattle.std.specs.Prelude.{ℕ, Bool, length, ◌≡◌, ◌<◌, ◌++◌, ◌∷◌, [], IfSome, List, Option, option_map};
ghost use Rattle.std.specs.Result.{IfErr};
ghost use Rattle.timefd_lang_component.specs.Tree.{Text};
ghost use Rattle.timefd_language.specs.Bytes.{ZeroOrMore, is_key_byte, is_version_three};
ghost use Rattle.timefd_language.specs.Slots.{EndsAfterHead, WantsIn};
ghost use Rattle.timefd_language.specs.Head.{Placed};
ghost use Rattle.timefd_lang_fault.specs.Faults.{invalid_modifier};
ghost use Rattle.timefd_lang_fault.specs.RuleKinds.{rule_kind};
ghost use Rattle.timefd_language.specs.Lookup.{key_for, keys_of};
ghost use Rattle.timefd_language.specs.Spans.{SpansVersion};
ghost use Rattle.timefd_parse.specs.ReadModifiers.{IsPlaced, StandsIn};
ghost use Rattle.timefd_language.specs.Values.{key_in};

use crate::head::modifier::Modifier;
use crate::head::positions::Positions;
use timefd_lang_fault::{Fault, Key, Name, Rule};
use timefd_language::description_version::DescriptionVersion;
use timefd_language::key::{key_of, spelling};
use timefd_language::setting::{Setting, Settings};
use timefd_language::value::setting_of;

/// What the modifiers set, the positions of their keys, and the fault of the first bad one. No
/// modifier after a bad one is looked at.
#[derive(Clone, Copy)]
pub struct Modifiers<'a> {
    pub settings: Settings,
    pub positions: Positions,
    pub fault: Option<Fault<'a>>,
}

impl<'a> Modifiers<'a> {
    ghost use Rattle.timefd_parse.specs.Checked.{Checks, ChecksOne};

    /// No modifiers.
    #[inline(always)]
    pub fn new(version: DescriptionVersion) -> Modifiers<'a>
        ensures { (name : Option Name) (total : ℕ) → Checks (is_version_three version) name total
            result [] }
    {
        Modifiers {
            settings: Settings::new(version),
            positions: Positions::new(),
            fault: None,
        }
    }

    /// Takes the next modifier of a bracket with this name.
    #[inline(never)]
    pub fn take(&mut self, version: DescriptionVersion, name: Option<Name>, modifier: Modifier<'a>)
        ensures checks { (total : ℕ) (ps : List Placed) (p : Placed) → Checks (is_version_three version)
            name total self.old ps
            → IsPlaced total modifier.entry p → Checks (is_version_three version) name total
            self.new (ps ++ p ∷ []) }
        ensures span { (text : Text) → StandsIn (is_version_three version) text name modifier.entry
            → IfSome self.old.fault (SpansVersion (is_version_three version) text)
            → IfSome self.new.fault (SpansVersion (is_version_three version) text) }
    {
        if self.fault.is_some() {
            return;
        }
        match self.check(version, name, modifier) {
            Ok((key, setting)) => {
                self.settings.set(setting);
                self.positions.set(key, modifier.key_remaining);
            }
            Err(fault) => self.fault = Some(fault),
        }
    }

    /// What a modifier sets, after those that were taken, or its fault.
    fn check(
        &self,
        version: DescriptionVersion,
        name: Option<Name>,
        modifier: Modifier<'a>,
    ) -> Result<(Key, Setting), Fault<'a>>
        ensures checks { (total : ℕ) (ps : List Placed) (p : Placed) → Checks (is_version_three version)
            name total self.now ps
            → self.now.fault ≡ None → IsPlaced total modifier.entry p
            → ChecksOne (is_version_three version) name total result ps p }
        ensures span { (text : Text) → StandsIn (is_version_three version) text name modifier.entry
            → IfErr result (SpansVersion (is_version_three version) text) }
    {
        let Some(key) = known_key(version, name, modifier.key) else {
            return Err(Fault {
                rule: key_rule(name, modifier.key),
                remaining: modifier.key_remaining,
                len: modifier.key.len(),
            });
        };
        if version.is_strict() && self.positions.of(key).is_some() {
            return Err(Fault {
                rule: Rule::DuplicateModifier(spelling(key)),
                remaining: modifier.key_remaining,
                len: modifier.key.len(),
            });
        }
        match setting_of(key, version, modifier.value) {
            Some(setting) => Ok((key, setting)),
            None => Err(Fault {
                rule: Rule::UnknownValue(modifier.value, key),
                remaining: modifier.value_remaining,
                len: modifier.value.len(),
            }),
        }
    }
}

/// The key that a word spells, one of those that the name takes. An unknown name takes none.
#[inline(always)]
fn known_key(version: DescriptionVersion, name: Option<Name>, word: &str) -> Option<Key>
    ensures { option_map key_for result ≡ key_in (is_version_three version) word.now (keys_of name) }
{
    key_of(name?, version, word)
}

/// The rule that a word breaks that isn't a key of the bracket with this name.
#[inline(never)]
pub fn key_rule<'a>(name: Option<Name>, word: &'a str) -> Rule<'a>
    ensures kind { rule_kind result ≡ invalid_modifier word.now }
    ensures wanted { (strict : Bool) (front : Text) → EndsAfterHead strict front name → 0 < length word.now
        → WantsIn strict front result }
{
    match name {
        Some(name) => Rule::UnknownKey(word, name),
        None => Rule::InvalidModifier(word),
    }
}

/// The rule that is broken at a colon, where no key precedes it or no value follows. `word` is what
/// precedes it.
#[inline(never)]
pub fn colon_rule<'a>(version: DescriptionVersion, name: Option<Name>, word: &str) -> Rule<'a>
    ensures kind { rule_kind result ≡ invalid_modifier [] }
    ensures wanted { (front at : Text) → EndsAfterHead (is_version_three version) at name
        → ZeroOrMore is_key_byte word.now → front ≡ at ++ word.now
        → WantsIn (is_version_three version) front result }
{
    match known_key(version, name, word) {
        Some(key) => Rule::UnknownValue("", key),
        None => Rule::InvalidModifier(""),
    }
}
