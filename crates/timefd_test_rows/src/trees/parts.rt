//! The parts of the description that version 3 reads a text as.

use super::reading::described;
use crate::agreed::agreed;
use crate::fault::RowFault;
use crate::longest_literal::longest_literal;
use std::alloc::Global;
use timefd_items::{FormatDescriptionV3Inner, Members, Shape, View};

/// Each part, after its members and with a semicolon after it.
pub fn parts(alloc: Global, text: &str) -> Result<String, RowFault> {
    let description = described(alloc, text)?;
    let mut names = String::new(alloc);
    for part in description.view().walk() {
        push_name(&mut names, part)?;
    }
    Ok(names)
}

/// What a part is, without its members, and a semicolon.
fn push_name(names: &mut String, part: View<'_, '_>) -> Result<(), RowFault> {
    match part.shape() {
        Shape::Component(component) => write!(names, "{component:?}; ")?,
        Shape::Literal(text) => write!(names, "{text:?}; ")?,
        Shape::Compound(members) => write!(names, "compound of {}; ", members.len())?,
        Shape::Optional { format, .. } => write!(names, "optional {format}; ")?,
        Shape::First(members) => write!(names, "first of {}; ", members.len())?,
    }
    Ok(())
}

/// The members of a compound, or the alternatives of a first.
fn members_of<'v, 'a>(view: View<'v, 'a>) -> Result<Members<'v, 'a>, RowFault> {
    match view.shape() {
        Shape::Compound(members) | Shape::First(members) => Ok(members),
        Shape::Component(_) | Shape::Literal(_) | Shape::Optional { .. } => {
            Err(RowFault::Field("a text of several members"))
        }
    }
}

/// The members in order, with a semicolon after each.
pub fn members(alloc: Global, text: &str) -> Result<String, RowFault> {
    let description = described(alloc, text)?;
    let mut names = String::new(alloc);
    for member in members_of(description.view())?.in_turn() {
        push_name(&mut names, member)?;
    }
    Ok(names)
}

/// The members from the last one to the first, with a semicolon after each.
pub fn members_back(alloc: Global, text: &str) -> Result<String, RowFault> {
    let description = described(alloc, text)?;
    let mut names = String::new(alloc);
    let mut left = members_of(description.view())?;
    for _ in 0..left.len() {
        let Some((front, last)) = left.split_last() else {
            break;
        };
        push_name(&mut names, last)?;
        left = front;
    }
    Ok(names)
}

/// The members in order, each as `Debug` prints it, both as a view and as a tree of its own.
pub fn member_trees(alloc: Global, text: &str) -> Result<String, RowFault> {
    let description = described(alloc, text)?;
    let mut as_view = String::new(alloc);
    for member in members_of(description.view())?.in_turn() {
        write!(as_view, "{member:?}; ")?;
    }
    let tree = description.to_inner(alloc)?;
    agreed(alloc, as_view, &print_members(alloc, &tree)?)
}

/// The members of a compound, each as `Debug` prints it.
fn print_members(alloc: Global, tree: &FormatDescriptionV3Inner<'_>) -> Result<String, RowFault> {
    match tree {
        FormatDescriptionV3Inner::OwnedCompound(trees) => print_trees(alloc, trees),
        _ => Err(RowFault::Field("a text of several members in turn")),
    }
}

fn print_trees(alloc: Global, trees: &[FormatDescriptionV3Inner<'_>]) -> Result<String, RowFault> {
    let mut apart = String::new(alloc);
    for tree in trees {
        write!(apart, "{tree:?}; ")?;
    }
    Ok(apart)
}

/// How many bytes the longest literal has.
pub fn longest(alloc: Global, text: &str) -> Result<String, RowFault> {
    let bytes = longest_literal(&described(alloc, text)?);
    Ok(format!(in alloc; "{bytes}")?)
}

/// How many bytes the tree reserves. Within that limit it reserves as many, and a limit of one byte less
/// refuses it.
pub fn reserved(alloc: Global, text: &str) -> Result<String, RowFault> {
    let tree = described(alloc, text)?.to_inner(alloc)?;
    reserved_by(alloc, &tree)
}

fn reserved_by(alloc: Global, tree: &FormatDescriptionV3Inner<'_>) -> Result<String, RowFault> {
    let Some(bytes) = tree.bytes_within(usize::MAX) else {
        return Ok(String::from_str(alloc, "more than any limit")?);
    };
    if tree.bytes_within(bytes) != Some(bytes) {
        return Ok(format!(in alloc; "{bytes}, but not within as many")?);
    }
    match bytes.checked_sub(1) {
        Some(less) if tree.bytes_within(less).is_some() => {
            Ok(format!(in alloc; "{bytes}, but also within {less}")?)
        }
        Some(_) | None => Ok(format!(in alloc; "{bytes}")?),
    }
}
