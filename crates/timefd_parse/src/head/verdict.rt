//! What the head of a bracket is by itself, whatever nested descriptions follow it.

ghost use Rattle.std.specs.Prelude.{ℕ, ◌≡◌, ◌∷◌, Some, IfOk, IfSome, IsTrue, List, MatchOption, MatchResult, length, ⊤};
ghost use Rattle.std.specs.Result.{IfErr};
ghost use Rattle.timefd_language.specs.Bytes.{is_version_three};
ghost use Rattle.timefd_lang_component.specs.Modern.{modern};
ghost use Rattle.timefd_lang_component.specs.Tree.{Text};
ghost use Rattle.timefd_language.specs.Head as spec;
ghost use Rattle.timefd_language.specs.Head.{Placed};
ghost use Rattle.timefd_language.specs.Names.{row_for};
ghost use Rattle.timefd_language.specs.Spans.{SpansVersion};
ghost use Rattle.timefd_language.specs.Verdict as rules;
ghost use Rattle.timefd_lang_fault.specs.declared.name.Name as spec_name;
ghost use Rattle.timefd_parse.specs.Checked.{ShowsFault};
ghost use Rattle.timefd_parse.specs.Heads.{BeginsWithHead, ShowsHead};
ghost use Rattle.timefd_parse.specs.Spans.{HaveKeys, SpansRefusal};
ghost use Rattle.timefd_parse.specs.HeadVerdicts as judging;
ghost use Rattle.timefd_parse.specs.HeadVerdicts.{BeginsJudged, IsPlain, IsVerdict, ReadsJudgedHead};
ghost use Rattle.timefd_parse.specs.Judged.{JudgedComponent, ShowsPositions};

use crate::fast::words::after_word;
use crate::head::modifiers::Modifiers;
use crate::head::positions::Positions;
use crate::head::{Head, read_head};
use timefd_items::Component;
use timefd_lang_fault::{ComponentName, Fault, Name, Rule};
use timefd_language::combination::refusals;
use timefd_language::component::component_of;
use timefd_language::description_version::DescriptionVersion;
use timefd_language::key::spelling;
use timefd_language::text::{Start, start_of};

/// What a head is by itself.
#[derive(Clone, Copy)]
pub enum HeadVerdict<'a> {
    Component(Component),
    /// An optional item, and whether it is formatted.
    Optional(bool),
    /// The first of several descriptions that fits.
    First,
    /// The fault of the first rule that its name or its modifiers break.
    Refused(Fault<'a>),
}

/// A head that was read, reduced to what is needed once its bracket is closed: this stays on the
/// stack while the nested descriptions are read.
#[derive(Clone, Copy)]
pub struct JudgedHead<'a> {
    pub verdict: HeadVerdict<'a>,
    /// Whether nested descriptions may follow it, and whether white bytes do.
    pub nests: bool,
    pub spaced: bool,
}

/// The head of a bracket, and the rest. `inside` is the text after the `[`.
#[inline(never)]
pub fn judged_head<'a>(
    version: DescriptionVersion,
    inside: &'a str,
) -> Result<(JudgedHead<'a>, &'a str), Fault<'a>>
    ensures head { ReadsJudgedHead (is_version_three version) inside.now result }
    ensures span { MatchResult result (λ x. SpansRefusal (is_version_three version) (91 ∷ inside.now) x.0.verdict)
        (SpansVersion (is_version_three version) (91 ∷ inside.now)) }
{
    if let Some(plain) = plain_head(version, inside) {
        return Ok(plain);
    }
    let mut modifiers = Modifiers::new(version);
    let (head, rest) = read_head(version, inside, &mut modifiers)?;
    let judged = JudgedHead {
        verdict: head_verdict(version, &head, &modifiers),
        nests: nests(head.name),
        spaced: !head.white.is_empty(),
    };
    Ok((judged, rest))
}

/// The head of a bracket that begins with `optional [` or `first [`, and the text from that `[` on.
#[inline(always)]
fn plain_head<'a>(version: DescriptionVersion, inside: &'a str) -> Option<(JudgedHead<'a>, &'a str)>
    ensures head { MatchOption result ⊤ (λ x. BeginsJudged (is_version_three version) inside.now x.0
        x.1.now) }
    ensures span { (text : Text) → MatchOption result ⊤ (λ x. SpansRefusal (is_version_three version) text x.0.verdict) }
{
    match inside.as_bytes() {
        [b'o', b'p', ..] => plainly(version, inside, "optional ", HeadVerdict::Optional(true)),
        [b'f', ..] => plainly(version, inside, "first ", HeadVerdict::First),
        _ => None,
    }
}

/// The result of `plain_head` for one of the words, with the space after it. `verdict` is what the
/// word is.
#[inline(always)]
fn plainly<'a>(
    version: DescriptionVersion,
    inside: &'a str,
    word: &str,
    verdict: HeadVerdict<'a>,
) -> Option<(JudgedHead<'a>, &'a str)>
    requires { IsPlain word.now verdict }
    ensures head { MatchOption result ⊤ (λ x. BeginsJudged (is_version_three version) inside.now x.0
        x.1.now) }
    ensures span { (text : Text) → MatchOption result ⊤ (λ x. SpansRefusal (is_version_three version) text x.0.verdict) }
{
    let rest = after_word(inside, word)?;
    let Start::Opening(_) = start_of(rest) else {
        return None;
    };
    let judged = JudgedHead {
        verdict,
        nests: true,
        spaced: true,
    };
    Some((judged, rest))
}

/// Whether nested descriptions may follow this name.
fn nests(name: Option<Name>) -> bool
    ensures { result ≡ judging.nests name }
{
    match name {
        Some(Name::Optional | Name::First) => true,
        Some(Name::Component(_)) | None => false,
    }
}

/// What a head is.
fn head_verdict<'a>(
    version: DescriptionVersion,
    head: &Head<'a>,
    modifiers: &Modifiers<'a>,
) -> HeadVerdict<'a>
    ensures verdict { (total : ℕ) (h : spec.Head) → ShowsHead (is_version_three version) total head.now
        modifiers.now h
        → IsVerdict (is_version_three version) total h (judging.nests head.now.name) result }
    ensures span { (text rest : Text) (h : spec.Head)
        → BeginsWithHead (is_version_three version) text head.now modifiers.now rest h
        → IfSome modifiers.now.fault (SpansVersion (is_version_three version) text) → SpansRefusal (is_version_three version) text result }
{
    let Some(name) = head.name else {
        return HeadVerdict::Refused(Fault {
            rule: Rule::UnknownName(head.word),
            remaining: head.remaining,
            len: head.word.len(),
        });
    };
    match name {
        Name::Component(name) => match component(version, head, modifiers, name) {
            Ok(component) => HeadVerdict::Component(component),
            Err(fault) => HeadVerdict::Refused(fault),
        },
        Name::Optional => match modifiers.fault {
            Some(fault) => HeadVerdict::Refused(fault),
            None => HeadVerdict::Optional(modifiers.settings.format),
        },
        Name::First => match modifiers.fault {
            Some(fault) => HeadVerdict::Refused(fault),
            None => HeadVerdict::First,
        },
    }
}

/// The fault of the first key that version 3 refuses with the component.
#[inline(always)]
pub fn combination_fault(
    version: DescriptionVersion,
    component: Component,
    positions: &Positions,
) -> Option<Fault<'static>>
    ensures fault { (total : ℕ) (ps : List Placed) → (IsTrue (is_version_three version) → ShowsPositions
        total positions.now ps)
        → ShowsFault total result (rules.combination (is_version_three version) component ps) }
    ensures span { (text : Text) (ps : List Placed) → (IsTrue (is_version_three version) → ShowsPositions
        (length text) positions.now ps)
        → HaveKeys text ps → IfSome result (SpansVersion (is_version_three version) text) }
{
    if !version.is_strict() {
        return None;
    }
    'refusals: for refusal in refusals(component) {
        if let Some(remaining) = positions.of(refusal.key) {
            let key = spelling(refusal.key);
            return Some(Fault {
                rule: Rule::RefusedModifier(key, refusal.refuser),
                remaining,
                len: key.len(),
            });
        }
    }
    None
}

/// The component of a bracket that has the name of one.
fn component<'a>(
    version: DescriptionVersion,
    head: &Head<'a>,
    modifiers: &Modifiers<'a>,
    name: ComponentName,
) -> Result<Component, Fault<'a>>
    ensures tree { (total : ℕ) (h : spec.Head) → ShowsHead (is_version_three version) total
        head.now modifiers.now h
        → head.now.name ≡ Some (spec_name.Name.Component name)
        → JudgedComponent total result (rules.component_verdict (is_version_three version) h (Some
        (row_for name))) }
    ensures modern { IfOk result (λ c. modern c ≡ c) }
    ensures span { (text rest : Text) (h : spec.Head)
        → BeginsWithHead (is_version_three version) text head.now modifiers.now rest h
        → IfSome modifiers.now.fault (SpansVersion (is_version_three version) text) → IfErr result (SpansVersion (is_version_three version) text) }
{
    if let Some(fault) = modifiers.fault {
        return Err(fault);
    }
    let Some(component) = component_of(name, modifiers.settings) else {
        return Err(Fault {
            rule: Rule::MissingModifier("count"),
            remaining: head.remaining,
            len: head.word.len(),
        });
    };
    match combination_fault(version, component, &modifiers.positions) {
        Some(fault) => Err(fault),
        None => Ok(component),
    }
}
