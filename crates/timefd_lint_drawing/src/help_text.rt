//! The help for a fault, in words.

ghost use Rattle.std.specs.Prelude.{◌≡◌, ◌++◌, codes, flat_map, IfOk, OnOk, string_bytes};
ghost use Rattle.timefd_lint_drawing.specs.HelpText as spec;

use std::alloc::{AllocError, Global};
use timefd_lint_diagnosis::{Help, Slot};

// Room for most help texts.
const ROOM: usize = 48;

/// The help in words. An `Err` says that memory ran out.
pub fn help_text(alloc: Global, help: Help) -> Result<String, AllocError>
    ensures { IfOk result (λ text. string_bytes text ≡ spec.help_text help) }
{
    match help {
        Help::Words {
            slot,
            nearest: Some(word),
            ..
        } => {
            let mut text = String::with_capacity(alloc, ROOM)?;
            push_nearest(&mut text, subject(slot), word)?;
            Ok(text)
        }
        Help::Words {
            slot,
            allowed,
            nearest: None,
        } => allowed_text(alloc, slot, allowed),
        Help::LeaveOut(key) => {
            format!(in alloc; "leave out `{key}`, or set `repr` to what takes it")
        }
        Help::Advice(advice) => String::from_str(alloc, advice),
    }
}

fn push_nearest(out: &mut String, subject: &str, word: &str) -> Result<(), AllocError>
    ensures { OnOk result (string_bytes out.new ≡ string_bytes out.old
        ++ (codes "the nearest " ++ (subject.now ++ (codes " is `" ++ (word.now ++ codes "`"))))) }
{
    out.push_str("the nearest ")?;
    out.push_str(subject)?;
    out.push_str(" is `")?;
    out.push_str(word)?;
    out.push_str("`")
}

fn allowed_text(alloc: Global, slot: Slot, allowed: &[&str]) -> Result<String, AllocError>
    ensures { IfOk result (λ text. string_bytes text ≡ spec.allowed_text slot allowed.now) }
{
    if allowed.is_empty() {
        return String::from_str(alloc, wordless(slot));
    }
    let subject = subject(slot);
    let words = listed(alloc, allowed)?;
    format!(in alloc; "a {subject} here is one of {words}")
}

// What a word was meant to be.
fn subject(slot: Slot) -> &'static str
    ensures { result.now ≡ spec.subject slot }
{
    match slot {
        Slot::Name => "name",
        Slot::Key(_) => "key",
        Slot::Value(_) => "value",
    }
}

// What the help says if no word is allowed.
fn wordless(slot: Slot) -> &'static str
    ensures { result.now ≡ spec.wordless slot }
{
    match slot {
        Slot::Key(_) => "this bracket takes no modifier",
        Slot::Name | Slot::Value(_) => "a number from 1 to 65535",
    }
}

fn listed(alloc: Global, words: &[&str]) -> Result<String, AllocError>
    ensures { IfOk result (λ text. string_bytes text ≡ spec.listed words.now) }
{
    let mut out = String::new(alloc);
    if let [first, rest @ ..] = words {
        push_quoted(&mut out, first)?;
        push_others(&mut out, rest)?;
    }
    Ok(out)
}

fn push_others(out: &mut String, words: &[&str]) -> Result<(), AllocError>
    ensures { OnOk result (string_bytes out.new ≡ string_bytes out.old
        ++ flat_map (λ word. codes ", " ++ spec.quoted word) words.now) }
{
    for word in words {
        out.push_str(", ")?;
        push_quoted(out, word)?;
    }
    Ok(())
}

fn push_quoted(out: &mut String, word: &str) -> Result<(), AllocError>
    ensures { OnOk result (string_bytes out.new ≡ string_bytes out.old ++ spec.quoted word.entry) }
{
    out.push_str("`")?;
    out.push_str(word)?;
    out.push_str("`")
}
