//! The component that a text is, and the leaf of a description that the component becomes.

use crate::agreed::agreed;
use crate::component::component_alone;
use crate::fault::RowFault;
use std::alloc::Global;
use timefd_items::{Component, FormatDescriptionV3, FormatDescriptionV3Inner, OpaqueCause};
use timefd_parse::{BorrowedOutput, DescriptionVersion, ParseError, parse_borrowed};

/// The component as `Debug` prints it.
pub fn component(alloc: Global, text: &str) -> Result<String, RowFault> {
    let component = component_of(alloc, text)?;
    Ok(format!(in alloc; "{component:?}")?)
}

/// The leaf that the component becomes. The tree, its description and the description's tree print
/// alike.
pub fn leaf(alloc: Global, text: &str) -> Result<String, RowFault> {
    let tree = FormatDescriptionV3Inner::from(component_of(alloc, text)?);
    let leaf = format!(in alloc; "{tree:?}")?;
    described_leaf(alloc, leaf, tree)
}

/// What the leaf prints, which its description prints too.
fn described_leaf(
    alloc: Global,
    leaf: String,
    tree: FormatDescriptionV3Inner<'static>,
) -> Result<String, RowFault> {
    match tree.into_opaque(alloc) {
        Ok(description) => agreed(alloc, leaf, &description_text(alloc, &description)?),
        Err(refused) => cause_text(alloc, refused.cause),
    }
}

/// The description and its tree, which print alike.
fn description_text(
    alloc: Global,
    description: &FormatDescriptionV3<'_>,
) -> Result<String, RowFault> {
    let inner = description.to_inner(alloc)?;
    let looked_into = format!(in alloc; "{inner:?}")?;
    let opaque = format!(in alloc; "{description:?}")?;
    agreed(alloc, opaque, &looked_into)
}

/// Why a tree has no description.
fn cause_text(alloc: Global, cause: OpaqueCause) -> Result<String, RowFault> {
    match cause {
        OpaqueCause::Memory => Err(RowFault::Memory),
        OpaqueCause::TooManyBytes => Ok(String::from_str(alloc, "too many bytes")?),
    }
}

/// The component that version 2 reads the text as.
fn component_of(alloc: Global, text: &str) -> Result<Component, RowFault> {
    let items = match parse_borrowed(alloc, DescriptionVersion::Two, text) {
        Ok(BorrowedOutput::Items(items)) => items,
        Ok(BorrowedOutput::Description(_)) | Err(ParseError::Invalid(_)) => {
            return Err(NO_COMPONENT);
        }
        Err(ParseError::Memory(_)) => return Err(RowFault::Memory),
    };
    component_alone(&items).ok_or(NO_COMPONENT)
}

const NO_COMPONENT: RowFault = RowFault::Field("a text that version 2 reads as one component");
