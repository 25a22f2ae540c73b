//! Texts of version 3 as formats.

ghost use Rattle.std.specs.Prelude.{◌≡◌, IfOk, string_bytes};
ghost use Rattle.std.specs.Result.{IfErr};
ghost use Rattle.timefd_lang_dialect.specs.Asked.{AsksFor};
ghost use Rattle.timefd_lang_dialect.specs.Back as spec;
ghost use Rattle.timefd_lang_dialect.specs.Items.{IsSpelledBy};

use crate::dialect::Dialect;
use crate::error::DialectError;
use crate::reading::{Converted, to_version_three};
use crate::reversed::format_of;
use std::alloc::{AllocError, Global};

/// Why a text of version 3 has no format.
#[derive(Debug, Clone, Copy)]
pub enum NoFormatError {
    /// The language has no directive for the bracket that begins at this index, in bytes.
    Lacking(usize),
    /// The dialect would read the format otherwise: directives or literals run into one another.
    Merged,
    /// Memory ran out.
    Memory(AllocError),
}

impl From<AllocError> for NoFormatError {
    ghost use Rattle.std.specs.Prelude.{◌≡◌};
    ghost use Rattle.timefd_lang_dialect.specs.declared.back.NoFormatError.TheVariants.{Memory};

    ghost from_gives = { λ e error. error ≡ Memory e };

    fn from(error: AllocError) -> Self {
        NoFormatError::Memory(error)
    }
}

/// The format by which the dialect writes what a text of version 3 writes, in the normal form, and
/// for which moments both write the same.
///
/// The error is `Lacking` with the index of the first bracket, from the left, that the dialect has
/// no directive for; `Merged` where neighbours run together, so that the dialect would read them
/// otherwise; or `Memory`.
#[tactic(auto, using(crate::proofs::FormatLemmas::refused_merged, crate::proofs::FormatLemmas::other_merged))]
pub fn from_version_three(
    alloc: Global,
    dialect: Dialect,
    description: &str,
) -> Result<Converted, NoFormatError>
    // The format means just this text, so `to_version_three` gives it back, with the same items.
    ensures format { IfOk result (spec.IsFormatOf dialect description.now) }
    ensures same_items { IfOk result (λ answer. IsSpelledBy dialect (string_bytes answer.text)
        description.now) }

    // It is the one that the text asks for: the best row for each bracket, and literals quoted.
    ensures asked { IfOk result (λ answer. AsksFor dialect description.now
        (string_bytes answer.text)) }

    // Either a bracket has no row, and it is the first of those; or the format that the text asks for
    // doesn't mean the text.
    ensures fault { IfErr result (spec.IsLackIn dialect description.now) }
{
    let format = format_of(alloc, dialect, description)?;
    let converted = match to_version_three(alloc, dialect, format.as_str()) {
        Ok(converted) => converted,
        Err(DialectError::Refused(_)) => return Err(NoFormatError::Merged),
        Err(DialectError::Memory(error)) => return Err(NoFormatError::Memory(error)),
    };
    if converted.text.as_str() == description {
        Ok(Converted {
            text: format,
            limits: converted.limits,
        })
    } else {
        Err(NoFormatError::Merged)
    }
}
