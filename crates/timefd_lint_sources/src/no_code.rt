//! Words in comments that should be codes of errors or warnings, but aren't.

ghost use Rattle.std.specs.Prelude.{◌≡◌, IfOk, OnOk, option_map, string_bytes};
ghost use Rattle.timefd_lint_diagnosis.specs.Words.{texts};
ghost use Rattle.timefd_lint_drawing.specs.Counted.{IsCounted};
ghost use Rattle.timefd_lint_sources.specs.Remarks as spec;

use crate::allowances::Allowance;
use crate::at_word::message_at;
use crate::codes::{description_codes, is_code};
use crate::cut::{after_index, before_index};
use crate::remark::Remark;
use crate::reported::SourceText;
use std::alloc::{AllocError, Global};
use timefd_lint_diagnosis::Span;
use timefd_lint_diagnosis::nearest::nearest;
use timefd_lint_drawing::shown::{cut_end, safe_string};
use timefd_lint_drawing::{Counter, Style};

/// A word in a comment that should be a code, but isn't.
#[derive(Clone, Copy)]
pub struct NoCode {
    /// Where the word begins, as a byte index.
    pub start: usize,
    /// Where the word ends.
    pub end: usize,
    /// The nearest code, if one is near.
    pub nearest: Option<&'static str>,
}

/// The code that is shown for a word in a comment that should be a code.
pub const NO_CODE: &str = "unknown-code";

// The most characters of such a word that are shown.
const MOST_OF_A_WORD: usize = 80;

/// The message on a word in a comment that should be a code. `from` says how far lines are counted. An `Err` says that
/// memory ran out.
pub fn code_note(
    alloc: Global,
    style: Style,
    source: SourceText<'_>,
    from: Counter,
    word: NoCode,
) -> Result<Vec<u8>, AllocError>
    requires { IsCounted 1 source.text.now from }
    ensures { IfOk result (λ message. message.items ≡ spec.code_note style source.entry word) }
{
    let sentence = sentence_on(alloc, source.text, word)?;
    let span = Span {
        start: word.start,
        end: word.end,
    };
    message_at(alloc, style, source, from, span, NO_CODE, &sentence)
}

/// What is said of a word in a comment of this source that should be a code. An `Err` says that memory ran out.
pub fn sentence_on(alloc: Global, source: &str, word: NoCode) -> Result<String, AllocError>
    ensures { IfOk result (λ text. string_bytes text ≡ spec.sentence_on source.now word) }
{
    code_sentence(alloc, word_in(source, word.start, word.end), word.nearest)
}

fn word_in(text: &str, start: usize, end: usize) -> &str
    ensures { result.now ≡ spec.word_in text.now start end }
{
    before_index(after_index(text, start), end.saturating_sub(start))
}

fn code_sentence(alloc: Global, word: &str, nearest: Option<&str>) -> Result<String, AllocError>
    ensures { IfOk result (λ text. string_bytes text
        ≡ spec.code_sentence word.now (option_map (λ w. w.now) nearest.entry)) }
{
    let word = cut_end(alloc, word, MOST_OF_A_WORD)?;
    let word = safe_string(alloc, word)?;
    match nearest {
        Some(code) => format!(in alloc;
            "there is no error or warning `{word}` to allow; the nearest is `{code}`"
        ),
        None => format!(in alloc; "there is no error or warning `{word}` to allow"),
    }
}

// Adds the remark on what a comment allows, if that isn't a code.
#[tactic(auto, using(crate::proofs::NoCodeLemmas::is_code, crate::proofs::NoCodeLemmas::no_code))]
fn push_code(
    alloc: Global,
    remarks: &mut Vec<Remark>,
    source: &str,
    codes: &[&'static str],
    allowance: Allowance,
) -> Result<(), AllocError>
    ensures { OnOk result (spec.AddsCode source.now (texts codes.now) allowance remarks.old.items
        remarks.new.items) }
{
    let Allowance { start, end, .. } = allowance;
    let word = word_in(source, start, end);
    if is_code(codes, word.as_bytes()) {
        return Ok(());
    }
    let nearest = nearest(alloc, codes, word)?;
    remarks.push(Remark::Code(NoCode {
        start,
        end,
        nearest,
    }))?;
    Ok(())
}

// Adds the remarks on what these comments allow that isn't one of these codes.
#[tactic(auto, using(crate::proofs::NoCodeLemmas::at_first, crate::proofs::NoCodeLemmas::one_more, crate::proofs::NoCodeLemmas::at_last))]
fn push_unknown(
    alloc: Global,
    remarks: &mut Vec<Remark>,
    source: &str,
    codes: &[&'static str],
    allowances: &[Allowance],
) -> Result<(), AllocError>
    ensures { OnOk result (spec.AddsAll source.now (texts codes.now) allowances.now remarks.old.items
        remarks.new.items) }
{
    let mut left = allowances;
    'comments: while let [allowance, rest @ ..] = left {
        push_code(alloc, remarks, source, codes, *allowance)?;
        left = rest;
    }
    Ok(())
}

/// Adds the remarks on what comments allow that isn't a code, in order. An `Err` says that memory ran out.
#[tactic(auto, using(crate::proofs::NoCodeLemmas::none_allowed))]
pub fn push_no_codes(
    alloc: Global,
    remarks: &mut Vec<Remark>,
    source: SourceText<'_>,
) -> Result<(), AllocError>
    ensures { OnOk result (spec.AddsCodes source.entry remarks.old.items remarks.new.items) }
{
    if source.allowances.is_empty() {
        return Ok(());
    }
    let codes = description_codes(alloc)?;
    push_unknown(alloc, remarks, source.text, &codes, source.allowances)
}
