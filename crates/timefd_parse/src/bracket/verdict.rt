//! What a closed bracket is, or the fault of the first rule that it breaks.

ghost use Rattle.std.specs.Prelude.{ℕ, Bool, ◌≡◌, ◌+◌, ◌≤◌, ◌∷◌, [], List, None, length, IfErr, IfSome, IsFalse, IsTrue};
ghost use Rattle.timefd_language.specs.Bytes.{is_version_three};
ghost use Rattle.timefd_items.specs.Builder.{built};
ghost use Rattle.timefd_lang_component.specs.Tree.{Text, Tree};
ghost use Rattle.timefd_language.specs.Head as spec;
ghost use Rattle.timefd_language.specs.Head.{placed};
ghost use Rattle.timefd_language.specs.Values.{format};
ghost use Rattle.timefd_language.specs.Verdict as rules;
ghost use Rattle.timefd_language.specs.Verdict.{PlacedDescription};
ghost use Rattle.timefd_parse.specs.Checked.{ShowsFault};
ghost use Rattle.timefd_parse.specs.HeadVerdicts.{IsVerdict, placing};
ghost use Rattle.timefd_lang_fault.specs.ReadErrors.{IsInvalid, MemoryOr};
ghost use Rattle.timefd_language.specs.Spans.{SpansVersion};
ghost use Rattle.timefd_parse.specs.Spans.{BracketStands, SpansRefusal};
ghost use Rattle.timefd_parse.specs.Pieces.{IsBuilt};
ghost use Rattle.timefd_parse.specs.Judged.{ShowsNested, Judged, packed};

use crate::head::verdict::{HeadVerdict, JudgedHead};
use crate::piece::{Piece, component_piece};
use timefd_items::DescriptionBuilder;
use timefd_lang_fault::{Fault, ReadError, Rule};
use timefd_language::description_version::DescriptionVersion;

/// The nested descriptions of a bracket.
#[derive(Clone, Copy)]
pub struct Nested {
    /// Whether white bytes precede the first, and the number of bytes from its `[` to the end of the
    /// text.
    pub spaced: bool,
    pub remaining: usize,
    /// How many there are. A reader that builds has made a tree of each, and these are its last
    /// trees.
    pub count: usize,
}

/// Where a bracket begins and where it is closed, as the number of bytes from there to the end of
/// the text.
#[derive(Clone, Copy)]
pub struct BracketExtent {
    pub start: usize,
    pub end: usize,
}

/// The optional description of a bracket named `optional`.
fn optional<'a, const BUILDS: bool>(
    builder: &mut DescriptionBuilder<'a>,
    version: DescriptionVersion,
    formatted: bool,
    nested: Nested,
    span: BracketExtent,
) -> Result<Piece<'a>, ReadError<'a>>
    requires { IsTrue BUILDS → nested.count ≤ length (built builder.old) }
    ensures tree { (position : ℕ) (h : spec.Head) (parts : List PlacedDescription) (base : List Tree)
        → rules.bad_modifiers (is_version_three version) (format ∷ []) [] (placed h) ≡ None
        → formatted ≡ rules.is_formatted (is_version_three version) (placed h)
        → ShowsNested span.start nested parts → position + span.end ≡ span.start
        → IsBuilt BUILDS base (built builder.old) (packed parts)
        → Judged span.start (is_version_three version) BUILDS base (built builder.new) result
        (rules.optional_verdict (is_version_three version) h parts position) }
    ensures invalid { IsFalse BUILDS → IfErr result IsInvalid }
    ensures span { (text : Text) → BracketStands text nested span
        → IfErr result (MemoryOr (SpansVersion (is_version_three version) text)) }
{
    if nested.count == 0 {
        return Err(ReadError::Invalid(Fault {
            rule: Rule::MissingDescription,
            remaining: span.end,
            len: 1,
        }));
    }
    if nested.count > 1 {
        return Err(ReadError::Invalid(Fault {
            rule: Rule::SeveralDescriptions,
            remaining: nested.remaining,
            len: 1,
        }));
    }
    if !version.is_strict() {
        return Err(ReadError::Invalid(Fault {
            rule: Rule::OptionalItem,
            remaining: span.start,
            len: 1,
        }));
    }
    if !BUILDS {
        return Ok(Piece::Compound);
    }
    builder.optional(formatted)?;
    Ok(Piece::Compound)
}

/// The alternatives of a bracket named `first`.
fn first<'a, const BUILDS: bool>(
    builder: &mut DescriptionBuilder<'a>,
    version: DescriptionVersion,
    nested: Nested,
    span: BracketExtent,
) -> Result<Piece<'a>, ReadError<'a>>
    requires { IsTrue BUILDS → nested.count ≤ length (built builder.old) }
    ensures tree { (position : ℕ) (h : spec.Head) (parts : List PlacedDescription) (base : List Tree)
        → rules.bad_modifiers (is_version_three version) [] [] (placed h) ≡ None
        → ShowsNested span.start nested parts → position + span.end ≡ span.start
        → IsBuilt BUILDS base (built builder.old) (packed parts)
        → Judged span.start (is_version_three version) BUILDS base (built builder.new) result
        (rules.first_verdict (is_version_three version) h parts position) }
    ensures invalid { IsFalse BUILDS → IfErr result IsInvalid }
    ensures span { (text : Text) → BracketStands text nested span
        → IfErr result (MemoryOr (SpansVersion (is_version_three version) text)) }
{
    if !version.is_strict() {
        return Err(ReadError::Invalid(Fault {
            rule: Rule::FirstItem,
            remaining: span.start,
            len: 1,
        }));
    }
    if nested.count == 0 {
        return Err(ReadError::Invalid(Fault {
            rule: Rule::MissingAlternative,
            remaining: span.end,
            len: 1,
        }));
    }
    if !BUILDS {
        return Ok(Piece::Compound);
    }
    builder.first(nested.count)?;
    Ok(Piece::Compound)
}

/// The fault of nested descriptions where they may not be.
fn placing_fault(nests: bool, nested: Nested, span: BracketExtent) -> Option<Fault<'static>>
    ensures fault { (parts : List PlacedDescription) → ShowsNested span.start nested parts
        → ShowsFault span.start result (placing nests parts) }
    ensures span { (strict : Bool) (text : Text) → BracketStands text nested span
        → IfSome result (SpansVersion strict text) }
{
    if nested.count == 0 {
        return None;
    }
    if !nested.spaced {
        return Some(Fault {
            rule: Rule::MissingSpace,
            remaining: nested.remaining,
            len: 1,
        });
    }
    if nests {
        return None;
    }
    Some(Fault {
        rule: Rule::NestedInComponent,
        remaining: span.start,
        len: 1,
    })
}

/// What a bracket is. A reader that builds makes one tree of its nested descriptions.
pub fn verdict<'a, const BUILDS: bool>(
    builder: &mut DescriptionBuilder<'a>,
    version: DescriptionVersion,
    head: &JudgedHead<'a>,
    nested: Nested,
    span: BracketExtent,
) -> Result<Piece<'a>, ReadError<'a>>
    requires { IsTrue BUILDS → nested.count ≤ length (built builder.old) }
    ensures tree { (position : ℕ) (h : spec.Head) (parts : List PlacedDescription) (base : List Tree)
        → IsVerdict (is_version_three version) span.start h head.now.nests head.now.verdict
        → ShowsNested span.start nested parts
        → position + span.end ≡ span.start → IsBuilt BUILDS base (built builder.old) (packed parts)
        → Judged span.start (is_version_three version) BUILDS base (built builder.new) result
        (rules.verdict (is_version_three version) h parts position) }
    ensures invalid { IsFalse BUILDS → IfErr result IsInvalid }
    ensures span { (text : Text) → BracketStands text nested span
        → SpansRefusal (is_version_three version) text head.now.verdict → IfErr result (MemoryOr (SpansVersion (is_version_three version) text)) }
{
    if let Some(fault) = placing_fault(head.nests, nested, span) {
        return Err(ReadError::Invalid(fault));
    }
    match head.verdict {
        HeadVerdict::Component(component) => Ok(component_piece::<BUILDS>(component)),
        HeadVerdict::Optional(formatted) => optional::<BUILDS>(
            builder, version, formatted, nested, span,
        ),
        HeadVerdict::First => first::<BUILDS>(builder, version, nested, span),
        HeadVerdict::Refused(fault) => Err(ReadError::Invalid(fault)),
    }
}
