//! What a part of a description means, or what is wrong there.

ghost use Rattle.std.specs.Prelude.{◌≡◌, IfOk, IfSome, option_map, string_bytes};
ghost use Rattle.timefd_lint_lsp.specs.Editor.Hovers.{IsHoverOf, IsPartOrFault, IsShownAt, IsShownIn, IsShownOn, IsShownRefused, IsShownWhere};
ghost use Rattle.timefd_lint_lsp.specs.Editor.Hovers as spec;

use crate::editor::counter::{none_counted, range_from};
use crate::editor::fault_hover::{Hover, fault_hover, is_at_fault};
use crate::editor::good_front::good_front;
use std::alloc::{AllocError, Global};
use std::str;
use timefd_lint_diagnosis::{Diagnostic, diagnose};
use timefd_lint_drawing::shown::safe;
use timefd_lint_explain::{ShownNode, explanation_of};
use timefd_lint_scan::{PlacedToken, SourceDescription, index_in_source};
use timefd_lint_sources::{SourceText, descriptions_in, is_passed_over, language_of};

/// What the part at a byte index means: the component with its modifiers, the bytes that it reserves, and an
/// example. In a description with a fault: what is wrong at that index, and what helps, or else the part that is
/// there, if the pieces before the one at fault have it. `None` if there is nothing to show. An `Err` says that
/// memory ran out.
pub fn hover(
    alloc: Global,
    source: SourceText<'_>,
    index: usize,
) -> Result<Option<Hover>, AllocError>
    ensures part { IfOk result (λ found. IfSome found (IsPartOrFault source.entry index)) }
    ensures shown { IfOk result (IsShownAt source.entry index) }
{
    let descriptions = descriptions_in(alloc, source)?;
    match first_at(&descriptions, index) {
        Some(description) => hover_on(alloc, source.text, description, index),
        None => Ok(None),
    }
}

// The first description whose literal covers an index.
fn first_at(descriptions: &[SourceDescription], index: usize) -> Option<&SourceDescription>
    ensures { option_map (λ found. found.now) result ≡ spec.first_at descriptions.now index }
{
    for description in descriptions {
        if is_at(description.piece, index) {
            return Some(description);
        }
    }
    None
}

// Whether a literal covers an index.
fn is_at(piece: PlacedToken, index: usize) -> bool
    ensures { result ≡ spec.is_at piece index }
{
    piece.start <= index && index < piece.end
}

// What is shown for a description at an index of its document.
fn hover_on(
    alloc: Global,
    text: &str,
    description: &SourceDescription,
    index: usize,
) -> Result<Option<Hover>, AllocError>
    ensures { IfOk result (IsShownOn text.now description.now index) }
{
    let bytes = description.unescaped.text.as_slice();
    if is_passed_over(description.dialect, bytes) {
        return Ok(None);
    }
    match str::from_utf8(bytes) {
        Ok(reported) => hover_at(alloc, text, description, reported, index),
        Err(_) => Ok(None),
    }
}

// The index of the last byte of a description that comes from this position of its document, or from an
// earlier one.
fn index_in(positions: &[usize], position: usize) -> usize
    ensures { result ≡ spec.index_in positions.now position }
{
    let mut at = 0;
    for (index, other) in positions.iter().enumerate() {
        if *other <= position {
            at = index;
        }
    }
    at
}

// What is shown at an index of the document, for a description that has this text.
#[tactic(auto, using(crate::proofs::EditorLemmas::HoverLemmas::accepted))]
fn hover_at(
    alloc: Global,
    text: &str,
    description: &SourceDescription,
    reported: &str,
    index: usize,
) -> Result<Option<Hover>, AllocError>
    ensures { IfOk result (IsShownWhere text.now description.now reported.now index) }
{
    match diagnose(alloc, language_of(description.dialect), reported)? {
        Some(diagnostic) => refused(alloc, text, description, reported, &diagnostic, index),
        None => shown(alloc, text, description, reported, index),
    }
}

// What is shown for a refused text: its fault, if the index is there, or else the part that is there and
// precedes the fault.
#[tactic(auto, using(crate::proofs::EditorLemmas::HoverLemmas::at_fault, crate::proofs::EditorLemmas::HoverLemmas::before_fault))]
fn refused(
    alloc: Global,
    text: &str,
    description: &SourceDescription,
    reported: &str,
    diagnostic: &Diagnostic,
    index: usize,
) -> Result<Option<Hover>, AllocError>
    ensures { IfOk result (IsShownRefused text.now description.now reported.now diagnostic.now index) }
{
    if is_at_fault(description, diagnostic, index) {
        let hover = fault_hover(alloc, text, description, diagnostic)?;
        return Ok(Some(hover));
    }
    let front = good_front(alloc, language_of(description.dialect), reported);
    shown(alloc, text, description, front, index)
}

// What is shown for the part at an index of the document, where the parts are those of this text.
fn shown(
    alloc: Global,
    text: &str,
    description: &SourceDescription,
    reported: &str,
    index: usize,
) -> Result<Option<Hover>, AllocError>
    ensures { IfOk result (IsShownIn text.now description.now reported.now (spec.byte_at description.now index)) }
{
    let at = index_in(&description.unescaped.positions, index);
    let nodes = explanation_of(alloc, language_of(description.dialect), reported)?.nodes;
    match innermost(&nodes, at) {
        Some(node) => {
            let hover = hover_of(alloc, text, description, node)?;
            Ok(Some(hover))
        }
        None => Ok(None),
    }
}

// The last node that covers an index. A node comes before the nodes inside it, so it is the innermost one.
fn innermost(nodes: &[ShownNode], at: usize) -> Option<&ShownNode>
    ensures { option_map (λ node. node.now) result ≡ spec.innermost nodes.now at }
{
    let mut inner = None;
    for node in nodes {
        if covers(node, at) {
            inner = Some(node);
        }
    }
    inner
}

fn covers(node: &ShownNode, at: usize) -> bool
    ensures { result ≡ spec.covers node.now at }
{
    node.start <= at && at < node.end
}

// What is shown for a node.
fn hover_of(
    alloc: Global,
    text: &str,
    description: &SourceDescription,
    node: &ShownNode,
) -> Result<Hover, AllocError>
    ensures { IfOk result (IsHoverOf text.now description.now node.now) }
{
    let start = index_in_source(description, node.start);
    let end = index_in_source(description, node.end);
    Ok(Hover {
        range: range_from(text, none_counted(text), start, end),
        text: words_on(alloc, node)?,
    })
}

fn words_on(alloc: Global, node: &ShownNode) -> Result<String, AllocError>
    ensures { IfOk result (λ words. string_bytes words ≡ spec.words_on node.now) }
{
    let example = example_in(alloc, &node.example)?;
    let (words, bytes) = (node.words.as_str(), node.bytes);
    format!(in alloc; "{words}\nat most {bytes} bytes{example}")
}

// The line with an example, if there is one.
fn example_in(alloc: Global, example: &str) -> Result<String, AllocError>
    ensures { IfOk result (λ words. string_bytes words ≡ spec.example_in example.now) }
{
    if example.is_empty() {
        return Ok(String::new(alloc));
    }
    let shown = safe(alloc, example)?;
    format!(in alloc; ", as `{shown}`")
}
