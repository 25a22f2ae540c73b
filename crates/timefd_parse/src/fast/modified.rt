//! Brackets that hold the name of a component and modifiers, spelled as in the tables, with any white
//! bytes before the name, before each modifier and before the `]`.

ghost use Rattle.std.specs.Prelude.{ℕ, ◌≡◌, ◌++◌, List, None, IsFalse, IsTrue, MatchOption, ⊤};
ghost use Rattle.timefd_lang_component.specs.Tree.{Text};
ghost use Rattle.timefd_language.specs.Bytes.{ZeroOrMore, is_version_three, is_white};
ghost use Rattle.timefd_language.specs.Head.{Placed};
ghost use Rattle.timefd_language.specs.Settings.{defaults};
ghost use Rattle.timefd_language.specs.Verdict.{combination};
ghost use Rattle.timefd_parse.specs.Judged.{ShowsPositions};
ghost use Rattle.timefd_parse.specs.Positions.{no_positions};
ghost use Rattle.timefd_parse.specs.Quick.{FollowsWhite, FollowsWhiteByte, IsModified, IsNoted, TakesModifiers};
ghost use Rattle.timefd_parse.specs.Read.{IsBare};

use crate::fast::bare::bare_of_few;
use crate::fast::values::value_in;
use crate::fast::words::{after_word, key_in, name_in};
use crate::head::positions::Positions;
use crate::head::verdict::combination_fault;
use timefd_items::Component;
use timefd_lang_fault::{ComponentName, Key};
use timefd_language::component::component_of;
use timefd_language::description_version::DescriptionVersion;
use timefd_language::setting::{Setting, Settings};
use timefd_language::text::{Class, after_colon, cut, tail};

/// The component of a bracket that holds a name and modifiers, or one of the names that `bare` leaves out, and what
/// follows the bracket. `inside` is the text after the `[`.
#[inline(always)]
pub fn with_modifiers(version: DescriptionVersion, inside: &str) -> Option<(Component, &str)>
    ensures { MatchOption result ⊤ (λ x. IsBare version inside.now x.0 x.1.now) }
{
    match bare_of_few(version, inside) {
        Some((component, _, rest)) => Some((component, rest)),
        None => modified(version, unspaced(inside)),
    }
}

/// The text without the white bytes that it begins with.
#[inline(always)]
fn unspaced(text: &str) -> &str
    ensures { FollowsWhite text.now result.now }
{
    match text.as_bytes() {
        [first, ..] if *first > b' ' => text,
        _ => after_white(text),
    }
}

/// The result of `unspaced` for any text.
#[inline(never)]
fn after_white(text: &str) -> &str
    ensures { FollowsWhite text.now result.now }
{
    cut(text, Class::White).1
}

/// The component of a bracket in which this follows the `[` and any white bytes, and what follows the
/// bracket.
#[inline(never)]
fn modified(version: DescriptionVersion, named: &str) -> Option<(Component, &str)>
    ensures { (white : Text) → ZeroOrMore is_white white
        → MatchOption result ⊤ (λ x. IsBare version (white ++ named.now) x.0 x.1.now) }
{
    let (name, text) = name_in(named)?;
    let mut settings = Settings::new(version);
    let mut positions = Positions::new();
    let rest = take(version, name, text, &mut settings, &mut positions)?;
    let component = component_of(name, settings)?;
    if refuses(version, component, &positions) {
        return None;
    }
    Some((component, rest))
}

/// Whether version 3 refuses one of the keys with the component.
#[inline(always)]
fn refuses(version: DescriptionVersion, component: Component, positions: &Positions) -> bool
    ensures { IsFalse result → (total : ℕ) (ps : List Placed) → (IsTrue (is_version_three version)
        → ShowsPositions total positions.now ps)
        → combination (is_version_three version) component ps ≡ None }
{
    if !version.is_strict() {
        return false;
    }
    combination_fault(version, component, positions).is_some()
}

/// What follows the white byte that a text begins with.
#[inline(always)]
fn after_white_byte(text: &str) -> Option<&str>
    ensures { MatchOption result ⊤ (λ rest. FollowsWhiteByte text.now rest.now) }
{
    match text.as_bytes() {
        [b' ' | b'\t' | b'\n' | 12 | b'\r', ..] => Some(tail(text)),
        _ => None,
    }
}

/// Takes the modifiers after a name, up to the `]`, and returns what follows the `]`.
#[inline(always)]
fn take<'a>(
    version: DescriptionVersion,
    name: ComponentName,
    text: &'a str,
    settings: &mut Settings,
    positions: &mut Positions,
) -> Option<&'a str>
    requires settings { settings.old ≡ defaults (is_version_three version) }
    requires positions { positions.old ≡ no_positions }
    ensures { MatchOption result ⊤ (λ rest. TakesModifiers (is_version_three version) name text.now
        settings.new
        positions.new rest.now) }
{
    let mut rest = text;
    'modifiers: loop {
        if let Some(after) = after_word(rest, "]") {
            return Some(after);
        }
        let word = after_white_byte(rest)?;
        match modifier(name, word) {
            Some((key, setting, after)) => {
                if repeated(version, positions, key, word.len()) {
                    return None;
                }
                settings.set(setting);
                rest = after;
            }
            // More white bytes may follow, or the `]`.
            None => rest = word,
        }
    }
}

/// Whether the key is a repeated one, which version 3 refuses. If it isn't, its position is noted. The
/// other versions accept repeated keys and need no positions.
#[inline(always)]
fn repeated(
    version: DescriptionVersion,
    positions: &mut Positions,
    key: Key,
    remaining: usize,
) -> bool
    ensures { IsFalse result → IsTrue (is_version_three version) → IsNoted positions.old key remaining
        positions.new }
{
    if !version.is_strict() {
        return false;
    }
    positions.note(key, remaining)
}

/// The modifier that a text begins with, and what follows it.
#[inline(always)]
fn modifier(name: ComponentName, text: &str) -> Option<(Key, Setting, &str)>
    ensures { MatchOption result ⊤ (λ x. IsModified name text.now x.0 x.1 x.2.now) }
{
    let (key, after) = key_in(name, text)?;
    let (setting, rest) = value_in(key, after_colon(after)?)?;
    Some((key, setting, rest))
}
