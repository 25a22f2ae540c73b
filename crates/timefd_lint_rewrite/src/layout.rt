//! How a text is laid out in the language that it is converted to, or how it is mended in its own language.

ghost use Rattle.std.specs.Prelude.{IfOk, string_bytes};
ghost use Rattle.std.specs.Result.{IfErr};
ghost use Rattle.timefd_language.specs.Grammar.{nesting_limit};
ghost use Rattle.timefd_parse.specs.Language.{IsAssignedIn};
ghost use Rattle.timefd_lang_convert.specs.Conversions.{language_of};
ghost use Rattle.timefd_lint_rewrite.specs.Layouts.{IsRewritten, IsConverted, IsLeast, IsRefusal};

use crate::cure::Fixes;
use crate::fixing::fixed;
use crate::nearest::nearest_to;
use std::alloc::Global;
use timefd_lang_convert::{Conversion, convert_by};
use timefd_parse::{Language, ParseError};

/// What to make of a text: a conversion, and how much it may change; or a repair.
#[derive(Clone, Copy)]
pub enum Layout {
    /// A conversion that changes only what it has to: a bracket keeps its order, its white space and its
    /// defaults if the later version accepts them.
    Least(Conversion),
    /// A conversion that returns exactly what `convert_by` does: for version 3 the normal form.
    Normal(Conversion),
    /// A repair of what is at fault in a text of this language, with these fixes.
    Fixed(Language, Fixes),
}

/// Converts a text in this layout, or mends it.
///
/// For a conversion the error is the one of `convert_by`: the fault of the text in the language that it is
/// converted from, or `Memory` if memory ran out. For a repair it is the one of `fixed`.
pub fn lay_out(alloc: Global, layout: Layout, text: &str) -> Result<String, ParseError>
    ensures converted { IfOk result (λ answer. IsConverted layout text.now (string_bytes answer)) }
    ensures fault { IfErr result (IsRefusal layout text.now) }
{
    match layout {
        Layout::Least(conversion) => convert_least(alloc, conversion, text),
        Layout::Normal(conversion) => convert_wholly(alloc, conversion, text),
        Layout::Fixed(language, fixes) => fixed(alloc, language, fixes, text),
    }
}

// Converts a text just as `convert_by` does.
fn convert_wholly(alloc: Global, conversion: Conversion, text: &str) -> Result<String, ParseError>
    ensures rewritten { IfOk result (λ answer. IsRewritten conversion text.now (string_bytes answer)) }
    ensures fault { IfErr result (IsAssignedIn (language_of conversion) nesting_limit text.now) }
{
    match convert_by(alloc, conversion, text) {
        Ok(answer) => Ok(answer),
        Err(error) => Err(error.into_owned(alloc)),
    }
}

// Converts a text, and changes only what has to change.
#[tactic(auto, using(crate::proofs::LayoutLemmas::whole_is_least, crate::proofs::LayoutLemmas::nearer_is_least))]
fn convert_least(alloc: Global, conversion: Conversion, text: &str) -> Result<String, ParseError>
    ensures least { IfOk result (λ answer. IsLeast conversion text.now (string_bytes answer)) }
    ensures fault { IfErr result (IsAssignedIn (language_of conversion) nesting_limit text.now) }
{
    match convert_by(alloc, conversion, text) {
        Ok(rewritten) => match nearest_to(alloc, conversion, text, &rewritten) {
            Ok(Some(nearest)) => Ok(nearest),
            Ok(None) => Ok(rewritten),
            Err(error) => Err(ParseError::Memory(error)),
        },
        Err(error) => Err(error.into_owned(alloc)),
    }
}
