//! What is wrong with a text besides its first fault.

ghost use Rattle.std.specs.Prelude.{◌≡◌, ◌<◌, IfOk, option_map, string_bytes};
ghost use Rattle.timefd_lang_fault.specs.Placed.{IsPlaced};
ghost use Rattle.timefd_lang_fault.specs.Faults.{fault_of};
ghost use Rattle.std.specs.Str.{IsCharBoundary};
ghost use Rattle.timefd_lint_diagnosis.specs.Further.{AreFurther, sides_of};
ghost use Rattle.timefd_lint_diagnosis.specs.Further as spec;

use crate::diagnosing::diagnose;
use crate::diagnostic::Diagnostic;
use std::alloc::{AllocError, Global};
use timefd_lang_fault::Code;
use timefd_language::text::{Class, cut};
use timefd_parse::Language;

/// How many faults of a text are reported at most, besides its first one.
pub const MOST_FURTHER: usize = 19;

/// What the stretch begins with that is left out for a fault.
#[derive(Clone, Copy)]
pub enum LeftOutMark {
    /// A bracket, which is left out up to its end.
    Bracket,
    /// The backslash of an escape.
    Backslash,
    /// A closing bracket.
    Closing,
    /// The percent sign of a directive.
    Percent,
}

/// The text on both sides of what is left out.
#[derive(Clone, Copy)]
pub struct Sides<'a> {
    pub before: &'a str,
    pub after: &'a str,
}

/// What is wrong with a text besides this first fault: what was at fault is left out, and the text is
/// looked at again, at most `most` times. The span of each diagnostic counts bytes of the whole text. An
/// `Err` says that memory ran out.
#[tactic(auto, using(crate::proofs::FurtherLemmas::at_first, crate::proofs::FurtherLemmas::one_more, crate::proofs::FurtherLemmas::nothing_left, crate::proofs::FurtherLemmas::accepted, crate::proofs::FurtherLemmas::enough))]
pub fn further_faults(
    alloc: Global,
    language: Language,
    text: &str,
    first: &Diagnostic,
    most: usize,
) -> Result<Vec<Diagnostic>, AllocError>
    requires { IsPlaced text.now (fault_of first.now.fault) }
    ensures { IfOk result (λ found. AreFurther most language
        (spec.without language text.now (fault_of first.now.fault)) found.items) }
{
    let mut found = Vec::new(alloc);
    let mut rest = without(alloc, language, text, first)?;
    'faults: for count in 0..most {
        let Some(left) = rest else {
            return Ok(found);
        };
        let Some(diagnostic) = diagnose(alloc, language, &left)? else {
            return Ok(found);
        };
        rest = without(alloc, language, &left, &diagnostic)?;
        found.push(diagnostic)?;
    }
    Ok(found)
}

// The text with spaces instead of what is at fault, if that can be left out.
fn without(
    alloc: Global,
    language: Language,
    text: &str,
    diagnostic: &Diagnostic,
) -> Result<Option<String>, AllocError>
    requires { IsPlaced text.now (fault_of diagnostic.now.fault) }
    ensures { IfOk result (λ left. option_map string_bytes left
        ≡ spec.without language text.now (fault_of diagnostic.now.fault)) }
{
    let Some(mark) = mark_of(language, diagnostic.code) else {
        return Ok(None);
    };
    match sides_at(mark, text, diagnostic.fault.index()) {
        Some(sides) => Ok(Some(with_spaces(alloc, text, sides)?)),
        None => Ok(None),
    }
}

fn with_spaces(alloc: Global, text: &str, sides: Sides<'_>) -> Result<String, AllocError>
    ensures { IfOk result (λ left. string_bytes left ≡ spec.with_spaces text.now
        (sides.entry.before.now, sides.entry.after.now)) }
{
    let Sides { before, after } = sides;
    let len = text
        .len()
        .saturating_sub(before.len())
        .saturating_sub(after.len());
    let spaces = " ".repeat(alloc, len)?;
    let mut left = String::with_capacity(alloc, text.len())?;
    left.push_str(before)?;
    left.push_str(&spaces)?;
    left.push_str(after)?;
    Ok(left)
}

// What begins the stretch that is left out for a fault, if one is.
fn mark_of(language: Language, code: Code) -> Option<LeftOutMark>
    ensures { result ≡ spec.mark_of language code }
{
    match language {
        Language::Version(_) => version_mark(code),
        Language::Strftime => Some(LeftOutMark::Percent),
    }
}

fn version_mark(code: Code) -> Option<LeftOutMark>
    ensures { result ≡ spec.version_mark code }
{
    match code {
        Code::UnknownName
        | Code::InvalidModifier
        | Code::MissingName
        | Code::MissingModifier
        | Code::DuplicateModifier
        | Code::RefusedModifier => Some(LeftOutMark::Bracket),
        Code::InvalidEscape => Some(LeftOutMark::Backslash),
        Code::UnescapedBracket => Some(LeftOutMark::Closing),
        Code::UnclosedBracket
        | Code::MissingSpace
        | Code::MissingDescription
        | Code::MissingAlternative
        | Code::NestedTooDeep
        | Code::SeveralDescriptions
        | Code::OptionalItem
        | Code::FirstItem
        | Code::UnsupportedFlag
        | Code::UnsupportedLetter
        | Code::NestedInComponent => None,
    }
}

fn char_of(mark: LeftOutMark) -> char
    ensures byte { result ≡ spec.byte_of mark }
    ensures ascii { result < 128 }
{
    match mark {
        LeftOutMark::Bracket => '[',
        LeftOutMark::Backslash => '\\',
        LeftOutMark::Closing => ']',
        LeftOutMark::Percent => '%',
    }
}

// The text on both sides of what is left out for a fault at an index.
fn sides_at(mark: LeftOutMark, text: &str, index: usize) -> Option<Sides<'_>>
    requires { IsCharBoundary text.now index }
    ensures { sides_of result ≡ spec.sides_at mark text.now index }
{
    let (front, rest) = text.split_at(index);
    let opened = opened(char_of(mark), front, rest)?;
    match mark {
        LeftOutMark::Bracket => closed(opened),
        LeftOutMark::Backslash | LeftOutMark::Closing | LeftOutMark::Percent => Some(opened),
    }
}

// The text on both sides of what is left out, by its beginning alone: the character at the index, or
// all from the last such character before the index up to the index.
fn opened<'a>(mark: char, front: &'a str, rest: &'a str) -> Option<Sides<'a>>
    requires { mark < 128 }
    ensures { sides_of result ≡ spec.opened mark front.now rest.now }
{
    if let Some(after) = rest.strip_prefix(mark) {
        return Some(Sides {
            before: front,
            after,
        });
    }
    let at = front.rfind(mark)?;
    let (before, _) = front.split_at(at);
    Some(Sides {
        before,
        after: rest,
    })
}

// The text on both sides, if what is left out continues up to the next closing bracket.
fn closed<'a>(opened: Sides<'a>) -> Option<Sides<'a>>
    ensures { sides_of result ≡ spec.closed (opened.entry.before.now, opened.entry.after.now) }
{
    let (_, rest) = cut(opened.after, Class::Run);
    let after = rest.strip_prefix(']')?;
    Some(Sides {
        before: opened.before,
        after,
    })
}
