//! The calls that names mean: those of a project, and those of `time` and other libraries.

ghost use Rattle.std.specs.Prelude.{◌≡◌};
ghost use Rattle.timefd_lint_scan.specs.KeptAliases.{AreAliases};
ghost use Rattle.timefd_lint_scan.specs.OwnCalls as spec;

use crate::aliases::{Aliases, real_name};
use crate::calls::{Call, call_of, is_turbofish};
use crate::dialect::is;
use crate::kept::KeptToken;
use crate::own_call::own_named;
use crate::word::{position_at, text_at, text_before};

// The index of the name of a call with a type after it: `f::<T>(`.
fn turbofish_index(source: &[u8], pieces: &[KeptToken], opening: usize) -> Option<usize>
    ensures { result ≡ spec.turbofish_index source.now pieces.now opening }
{
    if is_turbofish(source, pieces, opening) {
        Some(opening.saturating_sub(6))
    } else {
        None
    }
}

// The index of the name of the call whose bracket this token opens: `f(`, `.f(`, `f::<T>(`, `f!(`, `f![`.
fn name_index(source: &[u8], pieces: &[KeptToken], opening: usize) -> Option<usize>
    ensures { result ≡ spec.name_index source.now pieces.now opening }
{
    let before = text_before(source, pieces, opening, 1);
    if is(before, "!") {
        Some(opening.saturating_sub(2))
    } else if !is(text_at(source, pieces, opening), "(") {
        None
    } else if is(before, ">") {
        turbofish_index(source, pieces, opening)
    } else {
        Some(opening.saturating_sub(1))
    }
}

// The name before `::` in front of a name; empty if there is none.
fn owner_at<'a>(
    source: &'a [u8],
    pieces: &[KeptToken],
    aliases: Aliases<'_>,
    name: usize,
) -> &'a [u8]
    requires { AreAliases source.now aliases }
    ensures { result.now ≡ spec.owner_at source.now pieces.now aliases.entry.list.now name }
{
    if is(text_before(source, pieces, name, 1), ":")
        && is(text_before(source, pieces, name, 2), ":")
    {
        let owner = text_before(source, pieces, name, 3);
        real_name(source, aliases, owner, position_at(pieces, name))
    } else {
        &[]
    }
}

// The project's call whose name is at an index. A function's definition is no call.
fn own_at(
    source: &[u8],
    pieces: &[KeptToken],
    aliases: Aliases<'_>,
    name: Option<usize>,
) -> Option<Call>
    requires { AreAliases source.now aliases }
    ensures { result ≡ spec.own_at source.now pieces.now aliases.entry.list.now aliases.entry.own.now name }
{
    let Some(name) = name else {
        return None;
    };
    if is(text_before(source, pieces, name, 1), "fn") {
        return None;
    }
    let owner = owner_at(source, pieces, aliases, name);
    let position = position_at(pieces, name);
    own_named(
        aliases.own,
        owner,
        real_name(source, aliases, text_at(source, pieces, name), position),
    )
}

// The project's call whose arguments are in the bracket that this token opens.
fn own_call(
    source: &[u8],
    pieces: &[KeptToken],
    aliases: Aliases<'_>,
    opening: usize,
) -> Option<Call>
    requires { AreAliases source.now aliases }
    ensures { result ≡ spec.own_call source.now pieces.now aliases.entry.list.now aliases.entry.own.now opening }
{
    if aliases.own.is_empty() {
        return None;
    }
    let name = name_index(source, pieces, opening);
    own_at(source, pieces, aliases, name)
}

/// The call whose arguments are in the bracket that this token opens. What the settings of a project say about a name counts
/// before what the name means in `time` and other libraries.
pub fn call_at(source: &[u8], pieces: &[KeptToken], aliases: Aliases<'_>, opening: usize) -> Call
    requires { AreAliases source.now aliases }
    ensures { result ≡ spec.call_at source.now pieces.now aliases.entry.list.now aliases.entry.own.now opening }
{
    match own_call(source, pieces, aliases, opening) {
        Some(call) => call,
        None => call_of(source, pieces, aliases, opening),
    }
}
