//! A node of a description, as it is shown, and the words of its component, as they are written in brackets.

ghost use Rattle.std.specs.Prelude.{ℕ, ◌≡◌, ◌+◌, IfOk, length, string_bytes};
ghost use Rattle.timefd_lang_component.specs.Bracket.Words.{words};
ghost use Rattle.timefd_lang_component.specs.Modern.{modern};
ghost use Rattle.timefd_lang_component.specs.Reserved.{reserve};
ghost use Rattle.timefd_lang_component.specs.Tree.{Tree};
ghost use Rattle.timefd_lang_component.specs.declared.bracket.defaults.Defaults.{Defaults as Omission};
ghost use Rattle.timefd_lang_node_list.specs.Nodes.{kept_bytes};
ghost use Rattle.timefd_lint_explain.specs.Examples as spec;
ghost use Rattle.timefd_lint_explain.specs.Examples.{AreWordsOf, HasExample, Names, kind_in};
ghost use Rattle.timefd_lint_explain.specs.Parts.{IsPiece, capped};
ghost use Rattle.timefd_lint_explain.specs.Shown.{IsExampleOf, IsWhat};

use crate::example::sample;
use crate::piece::What;
use std::alloc::{AllocError, Global};
use timefd_lang_component::Component;
use timefd_lang_component::bracket::{Defaults, push_words};
use timefd_lint_drawing::shown::safe;
use timefd_parse::{Language, bracket_name, first_modifier};

// Room for the words of most components, and for what follows them.
const ROOM: usize = 96;

/// What kind of node it is.
#[derive(Clone, Copy)]
pub enum NodeKind {
    /// A literal.
    Literal,
    /// A component.
    Component,
    /// What a parser may skip.
    Optional,
    /// Alternatives.
    First,
    /// Several items, one after another, as a composite letter of strftime has them.
    Several,
    /// A description in brackets.
    Description,
}

/// What is shown for a node.
#[derive(Drop)]
pub struct ShownNode {
    /// How many brackets are around it.
    pub depth: usize,
    /// The byte range of the text that it came from, from `start` to before `end`. Both are equal if it came
    /// from no text.
    pub start: usize,
    pub end: usize,
    /// How many bytes it reserves.
    pub bytes: usize,
    /// What kind of node it is.
    pub kind: NodeKind,
    /// The node in words.
    pub words: String,
    /// An example of what it writes. A component shows what the formatter writes for it at the moment of the
    /// examples. It is empty for a node without an example.
    pub example: String,
}

/// Where a node is.
#[derive(Clone, Copy)]
pub struct Location<'a> {
    /// How many brackets are around it.
    pub depth: usize,
    /// The byte index where its text begins.
    pub start: usize,
    /// Its text, which is empty if it came from no text.
    pub text: &'a str,
}

/// The node of a piece of a text, or of a member of a composite letter, which has no text.
#[tactic(auto, using(crate::proofs::ExampleLemmas::example_for))]
pub fn node_of(
    alloc: Global,
    language: Language,
    location: Location<'_>,
    bytes: usize,
    what: &What,
) -> Result<ShownNode, AllocError>
    ensures kind { IfOk result (λ node. node.kind ≡ kind_in what.now) }
    ensures words { IfOk result (λ node. AreWordsOf what.now (string_bytes node.words)) }
    ensures example { IfOk result (λ node. IsExampleOf what.now (string_bytes node.example)) }
    ensures node { IfOk result HasExample }
    ensures piece { (d : ℕ) (tree : Tree) → location.entry.depth ≡ capped d → IsWhat what.now tree
        → bytes ≡ kept_bytes (reserve tree) → IfOk result (IsPiece d tree) }
    ensures start { IfOk result (λ node. node.start ≡ location.entry.start) }
    ensures end { IfOk result (λ node. node.end ≡ capped (location.entry.start + length location.entry.text.now)) }
{
    let words = words_in(alloc, language, location.text, what)?;
    let example = example_of(alloc, what)?;
    Ok(ShownNode {
        depth: location.depth,
        start: location.start,
        end: location.start.saturating_add(location.text.len()),
        bytes,
        kind: kind_of(what),
        words,
        example,
    })
}

fn words_in(
    alloc: Global,
    language: Language,
    text: &str,
    what: &What,
) -> Result<String, AllocError>
    ensures { IfOk result (λ words. AreWordsOf what.now (string_bytes words)) }
{
    match what {
        What::Component(component) => component_words(alloc, language, text, *component),
        What::Literal(_) => String::from_str(alloc, "literal"),
        What::Optional(format) => String::from_str(alloc, optional_words(*format)),
        What::First => String::from_str(alloc, "first of these"),
        What::Several => String::from_str(alloc, "these, one after another"),
    }
}

fn optional_words(format: bool) -> &'static str
    ensures { result.now ≡ spec.optional_words format }
{
    if format {
        "optional, and formatted"
    } else {
        "optional, and not formatted"
    }
}

fn kind_of(what: &What) -> NodeKind
    ensures { result ≡ kind_in what.now }
{
    match what {
        What::Literal(_) => NodeKind::Literal,
        What::Component(_) => NodeKind::Component,
        What::Optional(_) => NodeKind::Optional,
        What::First => NodeKind::First,
        What::Several => NodeKind::Several,
    }
}

fn example_of(alloc: Global, what: &What) -> Result<String, AllocError>
    ensures { IfOk result (λ text. IsExampleOf what.now (string_bytes text)) }
{
    match what {
        What::Literal(literal) => String::from_str(alloc, literal),
        What::Component(component) => sample(alloc, *component),
        What::Optional(_) | What::First | What::Several => Ok(String::new(alloc)),
    }
}

/// The name of a component with all its modifiers, whether set or by default. A deprecated component has the
/// words of the component that replaces it.
pub fn words_of(alloc: Global, component: Component) -> Result<String, AllocError>
    ensures { IfOk result (λ text. string_bytes text ≡ words Omission.Written (modern component)) }
{
    let mut text = String::with_capacity(alloc, ROOM)?;
    push_words(alloc, &mut text, component, Defaults::Written)?;
    Ok(text)
}

// The words of a component, and after them which modifiers the text sets. That is left out if the component
// came from no text.
#[tactic(auto, using(crate::proofs::ExampleLemmas::named_alone, crate::proofs::ExampleLemmas::named_so))]
fn component_words(
    alloc: Global,
    language: Language,
    text: &str,
    component: Component,
) -> Result<String, AllocError>
    ensures { IfOk result (λ words. Names component (string_bytes words)) }
{
    let mut words = words_of(alloc, component)?;
    if text.is_empty() {
        return Ok(words);
    }
    let set = set_in(alloc, language, text)?;
    if set.is_empty() {
        words.push_str(", by default")?;
        return Ok(words);
    }
    let set = format!(in alloc; ", set: {}", safe(alloc, &set)?)?;
    words.push_str(&set)?;
    Ok(words)
}

// The modifiers in a bracket, or the flag of a directive.
fn set_in(alloc: Global, language: Language, text: &str) -> Result<String, AllocError> {
    match language {
        Language::Version(_) => modifiers_in(alloc, text),
        Language::Strftime => String::from_str(alloc, flag_in(text)),
    }
}

fn modifiers_in(alloc: Global, text: &str) -> Result<String, AllocError> {
    let mut out = String::new(alloc);
    let Some((_, modifiers)) = bracket_name(text) else {
        return Ok(out);
    };
    let mut rest = modifiers;
    'modifiers: while let Some((modifier, after)) = first_modifier(rest) {
        if !out.is_empty() {
            out.push_str(" ")?;
        }
        out.push_str(modifier.key)?;
        out.push_str(":")?;
        out.push_str(modifier.value)?;
        rest = after;
    }
    Ok(out)
}

// What is between the percent sign and the letter of a directive.
fn flag_in(directive: &str) -> &str {
    directive
        .get(1..directive.len().saturating_sub(1))
        .unwrap_or("")
}
