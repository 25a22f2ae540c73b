//! What a word after a text should be: a name, a key or a value.

ghost use Rattle.std.specs.Prelude.{◌≡◌, IfSome, MatchOption};
ghost use Rattle.timefd_language.specs.Bytes.{StopsBefore, ZeroOrMore, is_version_three, is_word_byte};
ghost use Rattle.timefd_lang_fault.specs.declared.rule.Slot.{Slot};
ghost use Rattle.timefd_language.specs.Slots as spec;
ghost use Rattle.timefd_language.specs.Slots.{IsSlotAt, IsSlotAfter};
ghost use Rattle.timefd_lint_lsp.specs.Editor.OpenSlots.{IsOpenSlot};
ghost use Rattle.timefd_lint_lsp.specs.Editor.SlotSearches.{is_inside, IsAfterAll, IsLastBracket, IsNamedHead, NamesHead};

use crate::editor::scan::scanned;
use timefd_lang_fault::Slot;
use timefd_language::key::key_of;
use timefd_language::name::name_of;
use timefd_language::text::{Class, cut};
use timefd_parse::{DescriptionVersion, bracket_name, first_modifier};

/// What a word after this text would be: a name, a key or a value. `None` if the text doesn't end within the head of
/// a component's bracket, or if the name or the key before the word isn't known.
pub fn open_slot(version: DescriptionVersion, text: &str) -> Option<Slot>
    ensures { IsOpenSlot version text.now result }
{
    let scan = scanned(version, text.as_bytes());
    if !scan.is_in_component() {
        return None;
    }
    if scan.is_blank {
        return Some(Slot::Name);
    }
    slot_after(version, text, "a")
}

/// What a modifier's word after this text should have been: a key, or the value of one. If the word
/// is empty, a colon is there, and is taken for the colon of a key without a value. `None` if it
/// isn't known, because there is no name or no key.
pub fn slot_after(version: DescriptionVersion, front: &str, word: &str) -> Option<Slot>
    ensures slot { IsSlotAfter (is_version_three version) front.now word.now result }
{
    let (name, between) = head_in(front)?;
    slot_at(version, name, between, word)
}

// The name of the bracket that a text ends in, and what follows its modifiers.
fn head_in(front: &str) -> Option<(&str, &str)>
    ensures found { IfSome result (λ head. IsNamedHead front.now head.0.now head.1.now) }
    ensures heads { NamesHead front.now result }
{
    let bracket = last_bracket(front)?;
    let (name, modifiers) = bracket_name(bracket)?;
    Some((name, after_modifiers(modifiers)))
}

// The end of a text from its last `[` on, if it has one.
fn last_bracket(text: &str) -> Option<&str>
    ensures { MatchOption result (ZeroOrMore is_inside text.now)
        (λ bracket. IsLastBracket text.now bracket.now) }
{
    let at = text.rfind('[')?;
    let (_, bracket) = text.split_at(at);
    Some(bracket)
}

// What follows the modifiers that a text begins with.
fn after_modifiers(text: &str) -> &str
    requires { StopsBefore is_word_byte text.now }
    ensures { IsAfterAll text.now result.now }
{
    let mut rest = text;
    'modifiers: while let Some((_, after)) = first_modifier(rest) {
        rest = after;
    }
    rest
}

// What a word should have been that follows a head with this name, and then `between`.
fn slot_at(version: DescriptionVersion, name: &str, between: &str, word: &str) -> Option<Slot>
    ensures { MatchOption result
        ((slot : Slot) → ¬ IsSlotAt (is_version_three version) name.now between.now word.now
        slot)
        (IsSlotAt (is_version_three version) name.now between.now word.now) }
{
    let named = name_of(version, name)?;
    let (white, rest) = cut(between, Class::White);
    let (key, after) = cut(rest, Class::Key);
    if white.is_empty() {
        return None;
    }
    if rest.is_empty() && !word.is_empty() {
        return Some(Slot::Key(named));
    }
    if after == colon_before(word) {
        Some(Slot::Value(key_of(named, version, key)?))
    } else {
        None
    }
}

// What is between a key and its value: nothing if the value is empty, as the colon is at fault
// then.
fn colon_before(word: &str) -> &'static str
    ensures { result.now ≡ spec.colon_before word.now }
{
    if word.is_empty() { "" } else { ":" }
}
