//! Where the value of an expression goes: to the call, the name or the bracket that it is passed to.

ghost use Rattle.std.specs.Prelude.{◌≡◌, None};
ghost use Rattle.timefd_lint_scan.specs.Flows as spec;
ghost use Rattle.timefd_lint_scan.specs.FoundUses.{IsFound};
ghost use Rattle.timefd_lint_scan.specs.KeptAliases.{AreAliases};

use crate::aliases::Aliases;
use crate::call_names::call_at;
use crate::calls::{Call, OpenBracket};
use crate::dialect::is;
use crate::kept::KeptToken;
use crate::known::{Known, known_by_call};
use crate::uses::{Uses, known_by_name};
use crate::value::{is_operator, is_value};
use crate::word::{is_word_at, text_after, text_at, text_before};

/// What is known about a value that is a whole argument, or the last one of a block.
fn reported_of_value(frame: OpenBracket) -> Option<Known>
    ensures { result ≡ spec.reported_of_value frame }
{
    known_by_call(frame.call, frame.argument).or(frame.passes)
}

/// A bracket after the end of a statement, an arm or an argument.
pub fn settled(frame: OpenBracket) -> OpenBracket
    ensures { result ≡ spec.settled frame }
{
    OpenBracket {
        pending: reported_of_value(frame),
        name: None,
        ..frame
    }
}

fn with_pending(frame: OpenBracket, pending: Option<Known>) -> OpenBracket
    ensures { result ≡ spec.with_pending frame pending }
{
    OpenBracket {
        pending,
        name: None,
        ..frame
    }
}

/// A colon is followed by a type, or the value of a field.
fn after_colon(source: &[u8], pieces: &[KeptToken], index: usize, frame: OpenBracket) -> OpenBracket
    ensures { result ≡ spec.after_colon source.now pieces.now index frame }
{
    if is(text_before(source, pieces, index, 1), ":")
        || is(text_after(source, pieces, index, 1), ":")
    {
        frame
    } else {
        OpenBracket {
            pending: None,
            ..frame
        }
    }
}

/// What is known about the value after an equals sign: what is known about the name before it; nothing if
/// something else is assigned to; and for a value that a pattern is compared with, what is known about the
/// whole expression.
fn assigned(
    source: &[u8],
    pieces: &[KeptToken],
    uses: Uses<'_>,
    index: usize,
    frame: OpenBracket,
) -> Option<Known>
    requires { IsFound source.now pieces.now uses }
    ensures { result ≡ spec.assigned source.now pieces.now uses.entry.list.now index frame }
{
    match frame.name {
        Some(name) => known_by_name(source, pieces, uses, name),
        None if is_word_at(pieces, index.saturating_sub(1)) => None,
        None => frame.pending,
    }
}

fn after_equals_sign(
    source: &[u8],
    pieces: &[KeptToken],
    uses: Uses<'_>,
    index: usize,
    frame: OpenBracket,
) -> OpenBracket
    requires { IsFound source.now pieces.now uses }
    ensures { result ≡ spec.after_equals_sign source.now pieces.now uses.entry.list.now index frame }
{
    if is(text_after(source, pieces, index, 1), ">") {
        settled(frame)
    } else if is(text_after(source, pieces, index, 1), "=")
        || is_operator(text_before(source, pieces, index, 1))
    {
        frame
    } else {
        with_pending(frame, assigned(source, pieces, uses, index, frame))
    }
}

/// Whether a `let` after this token belongs to a condition.
fn is_condition(text: &[u8]) -> bool
    ensures { result ≡ spec.is_condition text.now }
{
    is(text, "if") || is(text, "while") || is(text, "&")
}

/// Whether a token is the name of a constant, or of a variable.
pub fn names_value(source: &[u8], pieces: &[KeptToken], index: usize) -> bool
    ensures { result ≡ spec.names_value source.now pieces.now index }
{
    let before = text_before(source, pieces, index, 1);
    is(before, "const")
        || is(before, "static")
        || (is(before, "let") && !is_condition(text_before(source, pieces, index, 2)))
}

/// The bracket after a word: `let`, the name of an item or of a variable, `in`.
fn after_word(
    source: &[u8],
    pieces: &[KeptToken],
    uses: Uses<'_>,
    index: usize,
    frame: OpenBracket,
) -> OpenBracket
    requires { IsFound source.now pieces.now uses }
    ensures { result ≡ spec.after_word source.now pieces.now uses.entry.list.now index frame }
{
    let text = text_at(source, pieces, index);
    let before = text_before(source, pieces, index, 1);
    if is(text, "let") && !is_condition(before) {
        with_pending(frame, None)
    } else if is(before, "fn") {
        with_pending(frame, known_by_name(source, pieces, uses, index))
    } else if names_value(source, pieces, index) {
        OpenBracket {
            pending: None,
            name: Some(index),
            ..frame
        }
    } else if is(text, "in") && is(text_before(source, pieces, index, 2), "for") {
        let name = index.saturating_sub(1);
        with_pending(frame, known_by_name(source, pieces, uses, name))
    } else {
        frame
    }
}

/// Whether a token that is neither a bracket nor a comma may change what is known in the bracket that it is in.
pub fn may_enter(source: &[u8], pieces: &[KeptToken], index: usize) -> bool
    ensures { result ≡ spec.may_enter source.now pieces.now index }
{
    let text = text_at(source, pieces, index);
    is(text, ";")
        || is(text, ":")
        || is(text, "=")
        || is(text, "let")
        || is(text, "in")
        || is(text_before(source, pieces, index, 1), "fn")
        || names_value(source, pieces, index)
}

/// The innermost bracket after a token that neither opens nor closes one and isn't a comma.
pub fn entered(
    source: &[u8],
    pieces: &[KeptToken],
    uses: Uses<'_>,
    index: usize,
    frame: OpenBracket,
) -> OpenBracket
    requires { IsFound source.now pieces.now uses }
    ensures { result ≡ spec.entered source.now pieces.now uses.entry.list.now index frame }
{
    let text = text_at(source, pieces, index);
    if is(text, ";") {
        settled(frame)
    } else if is(text, ":") {
        after_colon(source, pieces, index, frame)
    } else if is(text, "=") {
        after_equals_sign(source, pieces, uses, index, frame)
    } else {
        after_word(source, pieces, uses, index, frame)
    }
}

/// Functions and methods that pass on the text they get: translated, instead of one that is missing, or as another type.
fn is_handing_on(name: &[u8]) -> bool
    ensures { result ≡ spec.is_handing_on name.now }
{
    is(name, "gettext")
        || is(name, "unwrap_or")
        || is(name, "unwrap_or_else")
        || is(name, "from")
        || is(name, "Borrowed")
}

/// Whether the round bracket that a token opens only groups a value, or is a call that passes it on.
fn is_group(source: &[u8], pieces: &[KeptToken], index: usize) -> bool
    ensures { result ≡ spec.is_group source.now pieces.now index }
{
    let before = text_before(source, pieces, index, 1);
    is_handing_on(before)
        || !(is_word_at(pieces, index.saturating_sub(1))
            || is(before, ")")
            || is(before, "]")
            || (is(before, ">") && !is(text_before(source, pieces, index, 2), "="))
            || is(before, "!")
            || is(before, "?"))
}

/// Whether the square bracket that a token opens is an array or a `vec![..]`.
fn is_array(source: &[u8], pieces: &[KeptToken], index: usize) -> bool
    ensures { result ≡ spec.is_array source.now pieces.now index }
{
    let before = text_before(source, pieces, index, 1);
    (is(before, "!") && is(text_before(source, pieces, index, 2), "vec"))
        || is(before, "in")
        || !(is_word_at(pieces, index.saturating_sub(1))
            || is(before, ")")
            || is(before, "]")
            || is(before, "#")
            || is(before, "!")
            || is(before, "?"))
}

/// Whether the value of the bracket that a token opens is one of the values inside.
pub fn is_around_values(source: &[u8], pieces: &[KeptToken], index: usize) -> bool
    ensures { result ≡ spec.is_around_values source.now pieces.now index }
{
    let text = text_at(source, pieces, index);
    if is(text, "(") {
        is_group(source, pieces, index)
    } else if is(text, "[") {
        is_array(source, pieces, index)
    } else {
        !is(text_before(source, pieces, index, 1), "!")
    }
}

/// What is known about the next expression in a bracket.
pub fn pending_of(frame: Option<OpenBracket>) -> Option<Known>
    ensures { result ≡ spec.pending_of frame }
{
    match frame {
        Some(frame) => frame.pending,
        None => None,
    }
}

/// What is known about the values in a bracket because of what the bracket is in: nothing if it holds the
/// arguments of a known call.
fn passed_into(
    source: &[u8],
    pieces: &[KeptToken],
    index: usize,
    call: Call,
    outer: Option<OpenBracket>,
) -> Option<Known>
    ensures { result ≡ spec.passed_into source.now pieces.now index call outer }
{
    match call {
        Call::Other if is_around_values(source, pieces, index) => pending_of(outer),
        Call::Other
        | Call::Macro
        | Call::First(_)
        | Call::Owned(_)
        | Call::Second(_)
        | Call::Format
        | Call::Own(_, _) => None,
    }
}

/// The bracket that a token opens, inside of another one.
pub fn opened(
    source: &[u8],
    pieces: &[KeptToken],
    aliases: Aliases<'_>,
    index: usize,
    outer: Option<OpenBracket>,
) -> OpenBracket
    requires { AreAliases source.now aliases }
    ensures { result ≡ spec.opened source.now pieces.now aliases.entry.list.now aliases.entry.own.now index outer }
{
    let call = call_at(source, pieces, aliases, index);
    let passes = passed_into(source, pieces, index, call, outer);
    settled(OpenBracket {
        opened: index,
        call,
        argument: 0,
        passes,
        pending: None,
        name: None,
    })
}

/// The frame around all brackets of a source.
pub fn outermost() -> OpenBracket
    ensures { result ≡ spec.outermost }
{
    OpenBracket {
        opened: 0,
        call: Call::Other,
        argument: 0,
        passes: None,
        pending: None,
        name: None,
    }
}

/// What is known about a token that is a whole value, because of what the value is passed to.
pub fn known_of(
    source: &[u8],
    pieces: &[KeptToken],
    index: usize,
    frame: Option<OpenBracket>,
) -> Option<Known>
    ensures { result ≡ spec.known_of source.now pieces.now index frame }
{
    if is_value(source, pieces, index) {
        pending_of(frame)
    } else {
        None
    }
}
