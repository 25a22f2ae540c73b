//! The pieces of a text, one following another.

ghost use Rattle.std.specs.Prelude.{ℕ, Bool, ◌≡◌, ◌+◌, ◌*◌, ◌≤◌, ◌<◌, ◌∷◌, [], length, IsFalse, IsTrue, MatchOption};
ghost use Rattle.std.specs.Result.{IfErr};
ghost use Rattle.std.specs.Str.{IsUtf8};
ghost use Rattle.timefd_language.specs.declared.description_version.DescriptionVersion as spec_version;
ghost use Rattle.timefd_language.specs.Broken.{BeginsNoEscape};
ghost use Rattle.timefd_language.specs.Bytes.{is_version_three};
ghost use Rattle.timefd_parse.specs.Read.{BeginsRun, BeginsClosing, LeadsOn, ReadsEscape, ReadsPiece, ReadsNext, ReadsMembers, ReadsNested, ReadsItems, IsEnclosed};
ghost use Rattle.timefd_lang_fault.specs.Words.{too_highly_nested};
ghost use Rattle.timefd_lang_fault.specs.ReadErrors.{IsInvalid};
ghost use Rattle.timefd_lang_fault.specs.ReadErrors.{IsFault, MemoryOr};
ghost use Rattle.timefd_items.specs.Builder.{built};
ghost use Rattle.timefd_lang_fault.specs.Faults.{fault, unclosed_bracket};
ghost use Rattle.timefd_lang_component.specs.Tree.{Text, literal};
ghost use Rattle.timefd_language.specs.Spans.{SpansVersion};
ghost use Rattle.timefd_parse.specs.FirstPiece.{EndsWith};
ghost use Rattle.timefd_parse.specs.Spans.{HasByteAt};

use crate::bracket::verdict::{BracketExtent, Nested, verdict};
use crate::building::{add, pack};
use crate::fast::bare::bare;
use crate::fast::modified::with_modifiers;
use crate::head::verdict::judged_head;
use crate::piece::{Piece, component_piece};
use std::alloc::Global;
use timefd_items::{BorrowedFormatItem, DescriptionBuilder};
use timefd_lang_fault::{Fault, ReadError, Rule};
use timefd_language::description_version::DescriptionVersion;
use timefd_language::text::{Class, Start, cut, cut_run, escaped, first_len, start_of};

/// The run that a text begins with.
#[inline(always)]
fn run<'a>(version: DescriptionVersion, text: &'a str) -> (&'a str, &'a str)
    requires { BeginsRun version text.now }
    ensures { (limit n : ℕ) → LeadsOn version limit n text.now (literal result.0.now) result.1.now }
{
    cut_run(version, text)
}

/// A `]` outside nested descriptions, where version 3 needs an escape.
fn closing<'a>(version: DescriptionVersion, text: &'a str) -> Result<(&'a str, &'a str), Fault<'a>>
    requires { BeginsClosing text.now }
    ensures escape { (limit : ℕ) → ReadsEscape version limit 0 text.now result }
    ensures span { IfErr result (SpansVersion (is_version_three version) text.now) }
{
    if let DescriptionVersion::Three = version {
        return Err(Fault {
            rule: Rule::UnescapedBracket,
            remaining: text.len(),
            len: 1,
        });
    }
    Ok(text.split_at(1))
}

/// What a backslash and the text following it begin with: an escape, or in version 1 a run.
fn backslash<'a>(
    version: DescriptionVersion,
    text: &'a str,
    following: &'a str,
) -> Result<(&'a str, &'a str), Fault<'a>>
    requires { text.now ≡ 92 ∷ following.now }
    ensures escape { (limit n : ℕ) → ReadsEscape version limit n text.now result }
    ensures span { IfErr result (SpansVersion (is_version_three version) text.now) }
{
    if let DescriptionVersion::One = version {
        return Ok(run(version, text));
    }
    if let Some((byte, rest)) = escaped(following) {
        return Ok((byte, rest));
    }
    if following.is_empty() {
        return Err(Fault {
            rule: Rule::InvalidEscape,
            remaining: 1,
            len: 1,
        });
    }
    Err(Fault {
        rule: Rule::InvalidEscape,
        remaining: following.len(),
        len: first_len(following),
    })
}

/// In version 1 the second of two opening brackets, and what follows it.
fn doubled<'a>(version: DescriptionVersion, inside: &'a str) -> Option<(&'a str, &'a str)>
    ensures { MatchOption result (BeginsNoEscape version inside.now)
        (λ x. (version ≡ spec_version.DescriptionVersion.One) × (x.0.now ≡ 91 ∷ [])
        × (inside.now ≡ 91 ∷ x.1.now) × IsUtf8 x.1.now) }
{
    if let (DescriptionVersion::One, Start::Opening(_)) = (version, start_of(inside)) {
        return Some(inside.split_at(1));
    }
    None
}

/// The fault of a bracket with this fault inside it: if something inside is unclosed, so is the
/// bracket.
fn enclosed<'a>(error: ReadError<'a>, start: usize) -> ReadError<'a>
    ensures fault { IsEnclosed start error.entry result }
    ensures span { (strict : Bool) (text : Text) → HasByteAt text start → MemoryOr (SpansVersion strict text) error.entry
        → MemoryOr (SpansVersion strict text) result }
    ensures invalid { IsInvalid error.entry → IsInvalid result }
{
    match error {
        ReadError::Invalid(
            Fault {
                rule: Rule::UnclosedBracket,
                ..
            },
        ) => unclosed(start),
        error => error,
    }
}

/// The fault of a bracket that is never closed.
fn unclosed<'a>(start: usize) -> ReadError<'a>
    ensures fault { MemoryOr (λ f. IsFault start f (fault unclosed_bracket 0)) result }
    ensures span { (strict : Bool) (text : Text) → HasByteAt text start → MemoryOr (SpansVersion strict text) result }
    ensures invalid { IsInvalid result }
{
    ReadError::Invalid(Fault {
        rule: Rule::UnclosedBracket,
        remaining: start,
        len: 1,
    })
}

/// The fault of an opening bracket that would nest a description too deep.
fn too_deep<'a>(remaining: usize) -> ReadError<'a>
    ensures fault { MemoryOr (λ f. IsFault remaining f (fault too_highly_nested 0)) result }
    ensures span { (strict : Bool) (text : Text) → HasByteAt text remaining → MemoryOr (SpansVersion strict text) result }
    ensures invalid { IsInvalid result }
{
    ReadError::Invalid(Fault {
        rule: Rule::NestedTooDeep,
        remaining,
        len: 1,
    })
}

/// The piece that a text of a version begins with, and what follows it; `None` at the end of a
/// description. It is inside `around` nested descriptions, of at most `limit`. A reader that builds,
/// which only version 3 needs, adds a bracket with nested descriptions to the builder, and the piece
/// is `Compound`. A reader that doesn't build takes no memory. This call is this port's own.
///
/// The error is `Invalid` with the fault of what the text begins with, or `Memory` if memory ran out.
#[inline(always)]
#[cycle(read)]
pub fn next_piece<'a, const BUILDS: bool>(
    builder: &mut DescriptionBuilder<'a>,
    version: DescriptionVersion,
    text: &'a str,
    limit: u8,
    around: u8,
) -> Result<Option<(Piece<'a>, &'a str)>, ReadError<'a>>
    requires within { around ≤ limit }
    requires builds { IsTrue BUILDS → IsTrue (is_version_three version) }
    ensures next { ReadsNext version BUILDS limit around text.now (built builder.old)
        (built builder.new) result }
    ensures invalid { IsFalse BUILDS → IfErr result IsInvalid }
    ensures span { IfErr result (MemoryOr (SpansVersion (is_version_three version) text.now)) }
    ensures some { IfErr result (λ _. 0 < length text.now) }
{
    match start_of(text) {
        Start::End => Ok(None),
        Start::Closing(_) if around > 0 => Ok(None),
        Start::Closing(_) => {
            let (literal, rest) = closing(version, text)?;
            Ok(Some((Piece::Literal(literal), rest)))
        }
        Start::Opening(inside) => {
            if let Some((component, bytes, rest)) = bare(version, inside) {
                return Ok(Some((Piece::Component(component, bytes), rest)));
            }
            match doubled(version, inside) {
                Some((byte, rest)) => Ok(Some((Piece::Literal(byte), rest))),
                None => Ok(Some(bracket::<BUILDS>(builder, version, inside, limit, around)?)),
            }
        }
        Start::Backslash(following) => {
            let (literal, rest) = backslash(version, text, following)?;
            Ok(Some((Piece::Literal(literal), rest)))
        }
        Start::Other => {
            let (run, rest) = run(version, text);
            Ok(Some((Piece::Literal(run), rest)))
        }
    }
}

/// How many pieces a text begins with, up to the end of its description, and what follows them.
#[inline(always)]
#[cycle(read)]
pub fn members<'a, const BUILDS: bool>(
    builder: &mut DescriptionBuilder<'a>,
    version: DescriptionVersion,
    text: &'a str,
    limit: u8,
    around: u8,
) -> Result<(usize, &'a str), ReadError<'a>>
    requires within { around ≤ limit }
    requires builds { IsTrue BUILDS → IsTrue (is_version_three version) }
    ensures members { ReadsMembers version BUILDS limit around text.now (built builder.old)
        (built builder.new) result }
    ensures invalid { IsFalse BUILDS → IfErr result IsInvalid }
    ensures span { IfErr result (MemoryOr (SpansVersion (is_version_three version) text.now)) }
    ensures some { IfErr result (λ _. 0 < length text.now) }
{
    let mut count = 0;
    let mut rest = text;
    'pieces: loop {
        let Some((piece, following)) = next_piece::<BUILDS>(builder, version, rest, limit, around)?
        else {
            return Ok((count, rest));
        };
        add::<BUILDS>(builder, piece)?;
        count += 1;
        rest = following;
    }
}

/// What follows the `]` of a nested description. `text` is what follows its `[`. The bracket around it
/// begins `start` bytes before the end of the text.
#[inline(always)]
#[cycle(read)]
fn nested<'a, const BUILDS: bool>(
    builder: &mut DescriptionBuilder<'a>,
    version: DescriptionVersion,
    text: &'a str,
    limit: u8,
    around: u8,
    start: usize,
) -> Result<&'a str, ReadError<'a>>
    requires within { around ≤ limit }
    requires builds { IsTrue BUILDS → IsTrue (is_version_three version) }
    ensures nested { ReadsNested version BUILDS limit around start text.now (built builder.old)
        (built builder.new) result }
    ensures invalid { IsFalse BUILDS → IfErr result IsInvalid }
    ensures span { (whole : Text) → HasByteAt whole start → EndsWith whole (91 ∷ text.now)
        → IfErr result (MemoryOr (SpansVersion (is_version_three version) whole)) }
{
    if around == limit {
        return Err(too_deep(text.len() + 1));
    }
    let (count, end) = match members::<BUILDS>(builder, version, text, limit, around + 1) {
        Ok(read) => read,
        Err(error) => return Err(enclosed(error, start)),
    };
    let Start::Closing(following) = start_of(end) else {
        return Err(unclosed(start));
    };
    pack::<BUILDS>(builder, count)?;
    Ok(following)
}

/// The bracket, and what follows it. `inside` is the text following the `[`.
#[cycle(read)]
fn bracket<'a, const BUILDS: bool>(
    builder: &mut DescriptionBuilder<'a>,
    version: DescriptionVersion,
    inside: &'a str,
    limit: u8,
    around: u8,
) -> Result<(Piece<'a>, &'a str), ReadError<'a>>
    requires within { around ≤ limit }
    requires builds { IsTrue BUILDS → IsTrue (is_version_three version) }
    requires begins { BeginsNoEscape version inside.now }
    ensures piece { ReadsPiece version BUILDS limit around (91 ∷ inside.now) (built builder.old)
        (built builder.new) result }
    ensures invalid { IsFalse BUILDS → IfErr result IsInvalid }
    ensures span { IfErr result (MemoryOr (SpansVersion (is_version_three version) (91 ∷ inside.now))) }
{
    if let Some((component, rest)) = with_modifiers(version, inside) {
        return Ok((component_piece::<BUILDS>(component), rest));
    }
    let start = inside.len() + 1;
    let (head, after) = judged_head(version, inside)?;
    let remaining = after.len();
    let mut count = 0;
    let mut rest = after;
    'inner: loop {
        match start_of(rest) {
            Start::Opening(text) => {
                let following = nested::<BUILDS>(builder, version, text, limit, around, start)?;
                count += 1;
                rest = cut(following, Class::White).1;
            }
            Start::Closing(following) => {
                let end = rest.len();
                let span = BracketExtent { start, end };
                let nested = Nested {
                    spaced: head.spaced,
                    remaining,
                    count,
                };
                let piece = verdict::<BUILDS>(builder, version, &head, nested, span)?;
                return Ok((piece, following));
            }
            _ => return Err(unclosed(start)),
        }
    }
}

/// Room for the items of a text of usual length: one for every four bytes, and at most 16.
#[inline(always)]
fn first_room(text: &str) -> usize
    ensures empty { text.now ≡ [] → result ≡ 0 }
    ensures most { (result ≤ 16) × (4 * result ≤ length text.now + 3) }
{
    text.len().div_ceil(4).min(16)
}

/// Room for the nodes of a description: one for every three bytes, and at most 16. A description of
/// several pieces has one node more than pieces.
#[inline(always)]
pub fn node_room(text: &str) -> usize
    ensures empty { text.now ≡ [] → result ≡ 0 }
    ensures most { (result ≤ 16) × (3 * result ≤ length text.now + 2) }
{
    text.len().div_ceil(3).min(16)
}

/// The items of a whole text of version 1 or 2.
pub fn items<'a>(
    alloc: Global,
    version: DescriptionVersion,
    text: &'a str,
    limit: u8,
) -> Result<Vec<BorrowedFormatItem<'a>>, ReadError<'a>>
    requires { IsFalse (is_version_three version) }
    ensures items { ReadsItems version limit text.now result }
    ensures span { IfErr result (MemoryOr (SpansVersion (is_version_three version) text.now)) }
    ensures some { IfErr result (λ _. 0 < length text.now) }
{
    let mut builder = DescriptionBuilder::new(alloc);
    let mut items = Vec::with_capacity(alloc, first_room(text))?;
    let mut rest = text;
    'pieces: loop {
        let Some((piece, following)) = next_piece::<false>(&mut builder, version, rest, limit, 0)?
        else {
            return Ok(items);
        };
        items.push(piece.into_item())?;
        rest = following;
    }
}
