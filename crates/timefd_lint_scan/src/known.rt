//! What a bracket says about a literal: whether it is a description, in which language, and where the source
//! says so.

ghost use Rattle.std.specs.Prelude.{◌≡◌, ◌+◌, nat_eq};
ghost use Rattle.timefd_lint_scan.specs.Arguments as spec;

use crate::calls::{Call, OpenBracket};
use crate::dialect::{FormatLanguage, is, version_named};
use crate::kept::KeptToken;
use crate::version::VersionPosition;
use crate::word::{is_closing, is_opening, text_after, text_before};

fn says_version(source: &[u8], pieces: &[KeptToken], opening: usize) -> bool
    ensures { result ≡ spec.says_version source.now pieces.now opening }
{
    is(text_after(source, pieces, opening, 1), "version")
        && is(text_after(source, pieces, opening, 2), "=")
}

/// The version that the arguments of a macro begin with; 1 if they don't begin with one.
fn macro_version(source: &[u8], pieces: &[KeptToken], opening: usize) -> Option<FormatLanguage>
    ensures { result ≡ spec.macro_version source.now pieces.now opening }
{
    if says_version(source, pieces, opening) {
        version_named(text_after(source, pieces, opening, 3))
    } else {
        Some(FormatLanguage::One)
    }
}

/// Whether a token is a whole argument.
fn is_argument(source: &[u8], pieces: &[KeptToken], index: usize) -> bool
    ensures { result ≡ spec.is_argument source.now pieces.now index }
{
    let before = text_before(source, pieces, index, 1);
    let after = text_after(source, pieces, index, 1);
    (is_opening(before) || is(before, ",")) && (is_closing(after) || is(after, ","))
}

/// Whether a token is the last argument of its bracket.
fn is_last(source: &[u8], pieces: &[KeptToken], index: usize) -> bool
    ensures { result ≡ spec.is_last source.now pieces.now index }
{
    let after = text_after(source, pieces, index, 1);
    is_closing(after) || (is(after, ",") && is_closing(text_after(source, pieces, index, 2)))
}

/// The first byte of the token `back` tokens before this one, as the digit of a version.
fn digit_before(pieces: &[KeptToken], index: usize, back: usize) -> VersionPosition
    ensures { result ≡ spec.digit_before pieces.now index back }
{
    if back > index {
        return VersionPosition::Elsewhere;
    }
    match pieces.get(index - back) {
        Some(piece) => VersionPosition::Digit(piece.start()),
        None => VersionPosition::Elsewhere,
    }
}

/// The first byte of the token `ahead` tokens after this one, as the digit of a version.
fn digit_after(pieces: &[KeptToken], index: usize, ahead: usize) -> VersionPosition
    ensures { result ≡ spec.digit_after pieces.now index ahead }
{
    let Some(at) = index.checked_add(ahead) else {
        return VersionPosition::Elsewhere;
    };
    match pieces.get(at) {
        Some(piece) => VersionPosition::Digit(piece.start()),
        None => VersionPosition::Elsewhere,
    }
}

/// Whether a module follows the version in the arguments of a macro, as in the macro for serde.
fn says_module(source: &[u8], pieces: &[KeptToken], opening: usize) -> bool
    ensures { result ≡ spec.says_module source.now pieces.now opening }
{
    is(text_after(source, pieces, opening, 5), "mod")
}

/// Whether a token is exactly `ahead` tokens after another.
fn stands_after(index: usize, other: usize, ahead: usize) -> bool
    ensures { result ≡ nat_eq index (other + ahead) }
{
    index.checked_sub(other) == Some(ahead)
}

/// Where the version of a macro's only description is given: `version = 2, ".."`,
/// `version = 2, mod m, T, ".."`. With other arguments it is nowhere.
fn macro_position(
    source: &[u8],
    pieces: &[KeptToken],
    opening: usize,
    index: usize,
) -> VersionPosition
    ensures { result ≡ spec.macro_position source.now pieces.now opening index }
{
    if !is_last(source, pieces, index) {
        VersionPosition::Call
    } else if stands_after(index, opening, 1) {
        VersionPosition::Unsaid
    } else if !says_version(source, pieces, opening) {
        VersionPosition::Call
    } else if stands_after(index, opening, 5) || says_module(source, pieces, opening) {
        digit_after(pieces, opening, 3)
    } else {
        VersionPosition::Call
    }
}

/// Where the version of a call's description is given: `parse_borrowed::<2>(`, or nowhere.
fn call_position(source: &[u8], pieces: &[KeptToken], opening: usize) -> VersionPosition
    ensures { result ≡ spec.call_position source.now pieces.now opening }
{
    if is(text_before(source, pieces, opening, 1), ">") {
        digit_before(pieces, opening, 2)
    } else {
        VersionPosition::Call
    }
}

/// The language of the argument with a number; `None` for the others.
fn dialect_at(argument: usize, number: usize, dialect: FormatLanguage) -> Option<FormatLanguage>
    ensures { result ≡ spec.dialect_at argument number dialect }
{
    if argument == number {
        Some(dialect)
    } else {
        None
    }
}

/// The language of an argument that is a description.
fn dialect_by(
    call: Call,
    argument: usize,
    version: Option<FormatLanguage>,
) -> Option<FormatLanguage>
    ensures { result ≡ spec.dialect_by call argument version }
{
    match call {
        Call::Macro => version,
        Call::First(dialect) | Call::Owned(dialect) => dialect_at(argument, 0, dialect),
        Call::Second(dialect) => dialect_at(argument, 1, dialect),
        Call::Format => dialect_at(argument, 0, FormatLanguage::Chrono),
        Call::Own(dialect, number) => dialect_at(argument, number, dialect),
        Call::Other => None,
    }
}

/// The language of a literal, by the bracket that it is in; `None` if it isn't known to be a description.
fn dialect_in(
    source: &[u8],
    pieces: &[KeptToken],
    index: usize,
    frame: OpenBracket,
) -> Option<FormatLanguage>
    ensures { result ≡ spec.dialect_in source.now pieces.now index frame }
{
    if is_argument(source, pieces, index) {
        let version = macro_version(source, pieces, frame.opened);
        dialect_by(frame.call, frame.argument, version)
    } else {
        None
    }
}

/// Whether a description in version 1 or 2 may have `[optional ..]` and `[first ..]`.
#[derive(Clone, Copy, Debug, PartialEq, Eq)]
pub enum Items {
    /// It may: the macro reads it, or `parse_owned`.
    Taken,
    /// It may have neither of them.
    Refused,
}

/// What is known about a literal.
#[derive(Clone, Copy)]
pub struct Known {
    /// The language.
    pub dialect: FormatLanguage,
    /// What it may hold.
    pub items: Items,
    /// Where the source says the version.
    pub version: VersionPosition,
    /// Whether it is a description only if its text looks like a date format, with a `%`.
    pub wants_percent: bool,
    /// Where the name that a call takes instead of it begins, as a byte index; `None` if the literal is in
    /// the call itself.
    pub call: Option<usize>,
}

fn version_position(
    source: &[u8],
    pieces: &[KeptToken],
    index: usize,
    frame: OpenBracket,
) -> VersionPosition
    ensures { result ≡ spec.version_position source.now pieces.now index frame frame.call }
{
    match frame.call {
        Call::Macro => macro_position(source, pieces, frame.opened, index),
        Call::First(_) | Call::Owned(_) => call_position(source, pieces, frame.opened),
        Call::Own(_, _) => VersionPosition::Call,
        Call::Second(_) | Call::Format | Call::Other => VersionPosition::Elsewhere,
    }
}

fn wants_percent(call: Call) -> bool
    ensures { result ≡ spec.wants_percent call }
{
    match call {
        Call::Format => true,
        Call::Macro
        | Call::First(_)
        | Call::Owned(_)
        | Call::Second(_)
        | Call::Own(_, _)
        | Call::Other => false,
    }
}

fn items_in(call: Call) -> Items
    ensures { result ≡ spec.items_in call }
{
    match call {
        Call::Macro | Call::Owned(_) => Items::Taken,
        Call::First(_) | Call::Second(_) | Call::Format | Call::Own(_, _) | Call::Other =>
            Items::Refused,
    }
}

/// What the bracket that a literal is in says about it; `None` if it isn't known to be a description.
pub fn reported_in(
    source: &[u8],
    pieces: &[KeptToken],
    index: usize,
    frame: Option<OpenBracket>,
) -> Option<Known>
    ensures { result ≡ spec.reported_in source.now pieces.now index frame }
{
    let Some(frame) = frame else {
        return None;
    };
    let Some(dialect) = dialect_in(source, pieces, index, frame) else {
        return None;
    };
    Some(Known {
        dialect,
        items: items_in(frame.call),
        version: version_position(source, pieces, index, frame),
        wants_percent: wants_percent(frame.call),
        call: None,
    })
}

/// What a call says about the value of an argument, however that is written. Only the call can say the
/// version.
pub fn known_by_call(call: Call, argument: usize) -> Option<Known>
    ensures { result ≡ spec.known_by_call call argument }
{
    match dialect_by(call, argument, None) {
        Some(dialect) => Some(Known {
            dialect,
            items: items_in(call),
            version: VersionPosition::Call,
            wants_percent: wants_percent(call),
            call: None,
        }),
        None => None,
    }
}
