//! Prints a description of version 3.

ghost use Rattle.std.specs.Prelude.{◌≡◌, IfOk, MatchResult, string_bytes};
ghost use Rattle.std.specs.Result.{IfErr};
ghost use Rattle.timefd_lang_component.specs.Tree.{Text};
ghost use Rattle.timefd_language.specs.Grammar.{nesting_limit};
ghost use Rattle.timefd_lang_node_list.specs.Views.{view_tree};
ghost use Rattle.timefd_lang_convert.specs.Printing.Answers.{IsMemory, IsReason};
ghost use Rattle.timefd_lang_convert.specs.Printing.Laws.{SpellsTree};
ghost use Rattle.timefd_lang_convert.specs.Printing.Printed as spec;
ghost use Rattle.timefd_lang_convert.specs.Printing.Reasons.{HasCounts, reason};

use crate::printing::error::PrintError;
use crate::printing::push::push;
use crate::printing::reason;
use std::alloc::{AllocError, Global};
use timefd_items::View;
use timefd_parse::NESTING_LIMIT;

/// The text of version 3 of a description, in its normal form: components with the modifiers that
/// aren't the default and with the range of each year that has one, a `\` before each `[`, `]` and `\`
/// of a literal, and a space before each nested description. Every description that some text spells
/// is printed. A description that a caller has made and no text spells is refused.
///
/// The error is the first reason from the left why no text spells it, or `Memory` if memory ran out. A
/// description that no text spells is refused for it even then.
pub fn print_v3(alloc: Global, view: View<'_, '_>) -> Result<String, PrintError>
    // The result is the normal form, which spells the description if each count fits 16 bits, as every
    // count of the code does.
    ensures printed { IfOk result (λ text. string_bytes text ≡ spec.printed
        (view_tree view.entry)) }
    ensures spelled { IfOk result (λ text. HasCounts (view_tree view.entry)
        → SpellsTree nesting_limit (string_bytes text) (view_tree view.entry)) }
    // A description that some text spells is printed, unless memory runs out.
    ensures all { (text : Text) → SpellsTree nesting_limit text (view_tree view.entry)
        → MatchResult result (λ answer. string_bytes answer ≡ spec.printed
        (view_tree view.entry)) IsMemory }
    // The error is the reason against the description, or out of memory if there is none.
    ensures reason { IfErr result (IsReason (reason nesting_limit (view_tree view.entry))) }
{
    if let Some(reason) = reason::reason(view, NESTING_LIMIT) {
        return Err(PrintError::Unspelled(reason));
    }
    match text_of(alloc, view) {
        Ok(text) => Ok(text),
        Err(error) => Err(PrintError::Memory(error)),
    }
}

fn text_of(alloc: Global, view: View<'_, '_>) -> Result<String, AllocError>
    ensures { IfOk result (λ text. string_bytes text ≡ spec.printed (view_tree view.entry)) }
{
    let mut text = String::new(alloc);
    push(alloc, &mut text, view)?;
    Ok(text)
}
