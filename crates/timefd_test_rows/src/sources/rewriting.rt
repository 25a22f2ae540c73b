//! Texts and sources, mended or converted.

use crate::fault::RowFault;
use crate::fields::{three, two};
use crate::language::language_of;
use crate::sources::shown::text_of;
use std::alloc::Global;
use timefd_lint_rewrite::{Fixes, fixed};
use timefd_lint_sources::rewriting::{
    Change, NewSource, count_refused, count_rewritten, rewrite_source,
};
use timefd_parse::{DescriptionVersion, ParseError};

fn fixes_of(word: &str) -> Result<Fixes, RowFault> {
    match word {
        "sure" => Ok(Fixes::Sure),
        "all" => Ok(Fixes::All),
        _ => Err(RowFault::Field("fixes: sure or all")),
    }
}

fn change_of(word: &str) -> Result<Change, RowFault> {
    match word {
        "to-3" => Ok(Change::Least(DescriptionVersion::Three)),
        other => Ok(Change::Mended(fixes_of(other)?)),
    }
}

/// A text without its faults, or that it is left as it is.
pub fn mended(alloc: Global, fields: &[&str]) -> Result<String, RowFault> {
    let (language, fixes, text) = three(fields, "LANGUAGE FIXES TEXT")?;
    match fixed(alloc, language_of(language)?, fixes_of(fixes)?, text) {
        Ok(answer) => Ok(answer),
        Err(ParseError::Invalid(_)) => Ok(String::from_str(alloc, "left as it is")?),
        Err(ParseError::Memory(_)) => Err(RowFault::Memory),
    }
}

/// The new source that the fields ask for.
fn new_source(alloc: Global, fields: &[&str]) -> Result<NewSource, RowFault> {
    let (change, source) = two(fields, "CHANGE SOURCE")?;
    Ok(rewrite_source(alloc, change_of(change)?, source, &[])?)
}

/// How many descriptions are rewritten, how many are refused, and the new source.
pub fn rewritten(alloc: Global, fields: &[&str]) -> Result<String, RowFault> {
    let new = new_source(alloc, fields)?;
    let rewritten = count_rewritten(&new.outcomes);
    let refused = count_refused(&new.outcomes);
    let source = text_of(alloc, &new.bytes)?;
    Ok(format!(in alloc; "{rewritten} rewritten, {refused} refused: {source}")?)
}

/// What came of each description.
pub fn outcomes(alloc: Global, fields: &[&str]) -> Result<String, RowFault> {
    let new = new_source(alloc, fields)?;
    let outcomes = new.outcomes.as_slice();
    Ok(format!(in alloc; "{outcomes:?}")?)
}
