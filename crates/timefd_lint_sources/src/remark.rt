//! What the linter reports about a source besides its descriptions.

ghost use Rattle.std.specs.Prelude.{◌≡◌, ◌++◌, IfOk, OnOk};
ghost use Rattle.timefd_lint_drawing.specs.Counted.{IsCounted};
ghost use Rattle.timefd_lint_sources.specs.Remarks as spec;

use crate::at_word::message_at;
use crate::cut::after as rest_from;
use crate::no_code::{NoCode, code_note};
use crate::reported::{FIRST_LINE, ItemEnd, SourceText};
use std::alloc::{AllocError, Global};
use timefd_lint_diagnosis::Span;
use timefd_lint_drawing::{Counter, Style, counted, none_counted};
use timefd_lint_scan::class::{ByteSet, after_run};

/// What is seen in a source besides its descriptions.
#[derive(Clone, Copy)]
pub enum Remark {
    /// A call takes the name at this byte index, and no text is found for it.
    Call(usize),
    /// The value of a key at this byte index isn't looked at.
    Value(usize),
    /// The word at this byte index, in a comment, should name a language, but doesn't.
    Language(usize),
    /// A comment allows what isn't the code of an error or a warning.
    Code(NoCode),
}

/// The code that is shown for a comment that should name a language, but doesn't.
pub const NO_LANGUAGE: &str = "unknown-language";

/// What is said of such a comment.
pub const NO_LANGUAGE_SENTENCE: &str =
    "this comment names no language: there are 1, 2, 3, strftime, python, c, gnu, chrono, jiff, ruby, java, go and moment";

/// The outcome of a remark.
pub fn end_of(remark: Remark) -> ItemEnd
    ensures { result ≡ spec.end_of remark }
{
    match remark {
        Remark::Call(_) => ItemEnd::UnreadCall,
        Remark::Value(_) => ItemEnd::UnreadValue,
        Remark::Language(_) | Remark::Code(_) => ItemEnd::WrongComment,
    }
}

/// Where a remark is, as a byte index.
pub fn index_of_remark(remark: Remark) -> usize
    ensures { result ≡ spec.index_of_remark remark }
{
    match remark {
        Remark::Call(at) | Remark::Value(at) | Remark::Language(at) => at,
        Remark::Code(word) => word.start,
    }
}

/// The word of a source that begins at a byte index. It has no bytes if there is none.
pub fn word_at(source: &str, at: usize) -> Span
    ensures { result ≡ spec.word_at source.now at }
{
    let after = after_run(ByteSet::Word, rest_from(source.as_bytes(), at));
    Span {
        start: at,
        end: source.len().saturating_sub(after.len()),
    }
}

fn message_of(
    alloc: Global,
    style: Style,
    source: SourceText<'_>,
    from: Counter,
    remark: Remark,
) -> Result<Vec<u8>, AllocError>
    requires { IsCounted 1 source.text.now from }
    ensures { IfOk result (λ message. message.items ≡ spec.message_of style source.entry remark) }
{
    match remark {
        Remark::Call(_) | Remark::Value(_) => Ok(Vec::new(alloc)),
        Remark::Language(at) => language_note(alloc, style, source, from, at),
        Remark::Code(word) => code_note(alloc, style, source, from, word),
    }
}

// The message on the word of a comment that should name a language.
fn language_note(
    alloc: Global,
    style: Style,
    source: SourceText<'_>,
    from: Counter,
    at: usize,
) -> Result<Vec<u8>, AllocError>
    requires { IsCounted 1 source.text.now from }
    ensures { IfOk result (λ message. message.items ≡ spec.language_note style source.entry at) }
{
    let word = word_at(source.text, at);
    message_at(
        alloc,
        style,
        source,
        from,
        word,
        NO_LANGUAGE,
        NO_LANGUAGE_SENTENCE,
    )
}

// Reports one more remark.
fn push_remark(
    alloc: Global,
    style: Style,
    source: SourceText<'_>,
    from: Counter,
    remark: Remark,
    ends: &mut Vec<ItemEnd>,
    message: &mut Vec<u8>,
) -> Result<(), AllocError>
    requires { IsCounted 1 source.text.now from }
    ensures ends { OnOk result (ends.new.items ≡ ends.old.items ++ spec.one_end remark) }
    ensures message { OnOk result (message.new.items
        ≡ message.old.items ++ spec.message_of style source.entry remark) }
{
    let reported = message_of(alloc, style, source, from, remark)?;
    ends.push(end_of(remark))?;
    message.extend_from_slice(&reported)
}

/// Reports these remarks in order, after what was reported before. An `Err` says that memory ran
/// out.
pub fn push_remarks(
    alloc: Global,
    style: Style,
    source: SourceText<'_>,
    remarks: &[Remark],
    ends: &mut Vec<ItemEnd>,
    message: &mut Vec<u8>,
) -> Result<(), AllocError>
    ensures ends { OnOk result (ends.new.items ≡ ends.old.items ++ spec.ends_of remarks.now) }
    ensures message { OnOk result (message.new.items
        ≡ message.old.items ++ spec.messages_of style source.entry remarks.now) }
{
    let mut from = none_counted(FIRST_LINE);
    let mut rest = remarks;
    'remarks: while let [remark, after @ ..] = rest {
        from = counted(FIRST_LINE, source.text, from, index_of_remark(*remark));
        push_remark(alloc, style, source, from, *remark, ends, message)?;
        rest = after;
    }
    Ok(())
}

/// The remarks on these calls, followed by those on these words of comments. An `Err` says that memory ran
/// out.
pub fn remarks_on(
    alloc: Global,
    calls: &[usize],
    comments: &[usize],
) -> Result<Vec<Remark>, AllocError>
    ensures { IfOk result (λ remarks. remarks.items ≡ spec.remarks_on calls.now comments.now) }
{
    let mut remarks = Vec::new(alloc);
    push_calls(&mut remarks, calls)?;
    push_comments(&mut remarks, comments)?;
    Ok(remarks)
}

/// The remarks on these values of keys, which aren't looked at. An `Err` says that memory ran out.
pub fn remarks_on_values(alloc: Global, values: &[usize]) -> Result<Vec<Remark>, AllocError>
    ensures { IfOk result (λ remarks. remarks.items ≡ spec.on_values values.now) }
{
    let mut remarks = Vec::new(alloc);
    push_values(&mut remarks, values)?;
    Ok(remarks)
}

fn push_values(remarks: &mut Vec<Remark>, values: &[usize]) -> Result<(), AllocError>
    ensures { OnOk result (remarks.new.items ≡ remarks.old.items ++ spec.on_values values.now) }
{
    let mut rest = values;
    'values: while let [value, after @ ..] = rest {
        remarks.push(Remark::Value(*value))?;
        rest = after;
    }
    Ok(())
}

fn push_calls(remarks: &mut Vec<Remark>, calls: &[usize]) -> Result<(), AllocError>
    ensures { OnOk result (remarks.new.items ≡ remarks.old.items ++ spec.on_calls calls.now) }
{
    let mut rest = calls;
    'calls: while let [call, after @ ..] = rest {
        remarks.push(Remark::Call(*call))?;
        rest = after;
    }
    Ok(())
}

fn push_comments(remarks: &mut Vec<Remark>, comments: &[usize]) -> Result<(), AllocError>
    ensures { OnOk result (remarks.new.items ≡ remarks.old.items ++ spec.on_comments comments.now) }
{
    let mut rest = comments;
    'comments: while let [comment, after @ ..] = rest {
        remarks.push(Remark::Language(*comment))?;
        rest = after;
    }
    Ok(())
}
