//! What is wrong in the comments of a document.

ghost use Rattle.std.specs.Prelude.{OnOk};
ghost use Rattle.timefd_lint_lsp.specs.Editor.Each.{Adds, AreOf};
ghost use Rattle.timefd_lint_lsp.specs.Editor.Positions.{IsCounted};
ghost use Rattle.timefd_lint_lsp.specs.Editor.Remarked.{IsNoCode, IsNoLanguage, IsRemarked};

use crate::editor::counter::{DocumentCounter, counted, none_counted};
use crate::editor::finding::{Finding, Severity, push_at};
use std::alloc::{AllocError, Global};
use timefd_lint_sources::{
    NO_CODE, NO_LANGUAGE, NO_LANGUAGE_SENTENCE, NoCode, Remark, index_of_remark, sentence_on,
    word_at,
};

/// Adds what is wrong in the comments of a document, from the remarks on it. An `Err` says that memory ran out.
#[tactic(auto, using(crate::proofs::EditorLemmas::EachLemmas::at_first, crate::proofs::EditorLemmas::EachLemmas::one_more_at, crate::proofs::EditorLemmas::EachLemmas::at_last))]
pub fn push_remarks(
    alloc: Global,
    text: &str,
    remarks: &[Remark],
    found: &mut Vec<Finding>,
) -> Result<(), AllocError>
    ensures { OnOk result (Adds (AreOf (IsRemarked text.now) remarks.now) found.old.items found.new.items) }
{
    let mut counter = none_counted(text);
    for remark in remarks {
        counter = counted(text, counter, index_of_remark(*remark));
        push_remark(alloc, text, counter, *remark, found)?;
    }
    Ok(())
}

// Adds what a remark says of a comment.
#[tactic(auto, using(crate::proofs::EditorLemmas::EachLemmas::none_added))]
fn push_remark(
    alloc: Global,
    text: &str,
    counter: DocumentCounter,
    remark: Remark,
    found: &mut Vec<Finding>,
) -> Result<(), AllocError>
    requires { IsCounted text.now counter }
    ensures { OnOk result (Adds (IsRemarked text.now remark) found.old.items found.new.items) }
{
    match remark {
        Remark::Call(_) | Remark::Value(_) => Ok(()),
        Remark::Language(at) => push_no_language(alloc, text, counter, at, found),
        Remark::Code(word) => push_no_code(alloc, text, counter, word, found),
    }
}

fn push_no_language(
    alloc: Global,
    text: &str,
    counter: DocumentCounter,
    at: usize,
    found: &mut Vec<Finding>,
) -> Result<(), AllocError>
    requires { IsCounted text.now counter }
    ensures { OnOk result (Adds (IsNoLanguage text.now at) found.old.items found.new.items) }
{
    let word = word_at(text, at);
    let message = String::from_str(alloc, NO_LANGUAGE_SENTENCE)?;
    push_at(
        found,
        text,
        counter,
        word.start,
        word.end,
        Severity::Error,
        NO_LANGUAGE,
        message,
    )
}

fn push_no_code(
    alloc: Global,
    text: &str,
    counter: DocumentCounter,
    word: NoCode,
    found: &mut Vec<Finding>,
) -> Result<(), AllocError>
    requires { IsCounted text.now counter }
    ensures { OnOk result (Adds (IsNoCode text.now word) found.old.items found.new.items) }
{
    let message = sentence_on(alloc, text, word)?;
    push_at(
        found,
        text,
        counter,
        word.start,
        word.end,
        Severity::Error,
        NO_CODE,
        message,
    )
}
