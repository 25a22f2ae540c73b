//! The names that a source gives to items of libraries: `use time::format_description as fd`.

ghost use Rattle.std.specs.Prelude.{◌≡◌, ◌++◌, ◌∷◌, IfOk, OnOk};
ghost use Rattle.std.specs.Option.{option_to_list};
ghost use Rattle.timefd_lint_scan.specs.Aliases.{IsUntil};
ghost use Rattle.timefd_lint_scan.specs.Aliases as spec;

use crate::alias::{Alias, after_first, block_end, is_imported};
use crate::blocks::{end_by, pass_back};
use crate::dialect::is;
use crate::kept::KeptToken;
use crate::module_import::self_at;
use crate::own_call::OwnCall;
use crate::piece::PlacedToken;
use crate::word::{text_at, text_of, tokens_after};
use std::alloc::{AllocError, Global};

/// Whether an import may end with this token, or go on after it.
fn ends_import(text: &[u8]) -> bool
    ensures { result ≡ spec.ends_import text.now }
{
    is(text, ";") || is(text, ",") || is(text, "}") || is(text, "as")
}

/// Where the block ends that the statement of these tokens is in, if it isn't known already.
fn until_of(source: &[u8], pieces: &[KeptToken], until: Option<usize>) -> usize
    requires { IsUntil source.now pieces.now until }
    ensures { result ≡ spec.statement_end source.now pieces.now }
{
    match until {
        Some(until) => until,
        None => block_end(source, after_first(source, pieces, ";")),
    }
}

/// The alias that these two tokens make. The rest of the tokens follow the second one.
fn alias_of(
    source: &[u8],
    name: PlacedToken,
    original: PlacedToken,
    after: &[KeptToken],
    until: Option<usize>,
) -> Alias
    requires { IsUntil source.now after.now until }
    ensures { result ≡ spec.alias_of source.now name original after.now }
{
    Alias {
        name,
        original,
        until: until_of(source, after, until),
    }
}

/// The alias `original as name`, if `as` follows the original.
pub fn renamed(
    source: &[u8],
    original: PlacedToken,
    after: &[KeptToken],
    until: Option<usize>,
) -> Option<Alias>
    requires { IsUntil source.now after.now until }
    ensures { result ≡ spec.renamed source.now original after.now }
{
    match after {
        [sign, name, ..] if is(sign.text(source), "as") => Some(alias_of(
            source,
            name.placed(),
            original,
            after,
            until,
        )),
        _ => None,
    }
}

/// The alias of an imported name: the name itself, or the one after `as`.
fn imported(
    source: &[u8],
    original: PlacedToken,
    after: &[KeptToken],
    until: Option<usize>,
) -> Option<Alias>
    requires { IsUntil source.now after.now until }
    ensures { result ≡ spec.imported source.now original after.now }
{
    if !ends_import(text_at(source, after, 0)) {
        return None;
    }
    match renamed(source, original, after, until) {
        Some(alias) => Some(alias),
        None => Some(alias_of(source, original, original, after, until)),
    }
}

/// Where the block ends that the statement of the tokens after this one is in, if that is known of all of them.
pub fn passed(
    source: &[u8],
    piece: PlacedToken,
    after: &[KeptToken],
    until: Option<usize>,
) -> Option<usize>
    requires { IsUntil source.now (piece ∷ after.now) until }
    ensures { IsUntil source.now after.now result }
{
    if is(text_of(source, piece), ";") {
        None
    } else {
        until
    }
}

/// The import of `parse` in this list of names.
fn parse_in_list(source: &[u8], pieces: &[KeptToken], until: Option<usize>) -> Option<Alias>
    requires { IsUntil source.now pieces.now until }
    ensures { result ≡ spec.parse_in_list source.now pieces.now }
{
    let mut known = until;
    let mut rest = pieces;
    'tokens: while let [piece, after @ ..] = rest {
        let text = piece.text(source);
        if is(text, "}") {
            return None;
        }
        if is(text, "parse") {
            return imported(
                source,
                piece.placed(),
                after,
                passed(source, piece.placed(), after, known),
            );
        }
        known = passed(source, piece.placed(), after, known);
        rest = after;
    }
    None
}

/// The import of `parse` that follows the path of its module.
fn parse_after(source: &[u8], pieces: &[KeptToken], until: Option<usize>) -> Option<Alias>
    requires { IsUntil source.now pieces.now until }
    ensures { result ≡ spec.parse_after source.now pieces.now }
{
    match pieces {
        [first, second, next, after @ ..]
            if is(first.text(source), ":") && is(second.text(source), ":") => {
            parse_or_list(source, next, after, until)
        }
        _ => None,
    }
}

fn parse_or_list(
    source: &[u8],
    next: &KeptToken,
    after: &[KeptToken],
    until: Option<usize>,
) -> Option<Alias>
    requires { IsUntil source.now (next.now ∷ after.now) until }
    ensures { result ≡ spec.parse_or_list source.now next.now after.now }
{
    let text = next.text(source);
    let until = passed(source, next.placed(), after, until);
    if is(text, "{") {
        parse_in_list(source, after, until)
    } else if is(text, "parse") {
        imported(source, next.placed(), after, until)
    } else {
        None
    }
}

/// The alias that is declared at a token. The other tokens follow it.
fn alias_at(
    source: &[u8],
    own: &[OwnCall],
    piece: PlacedToken,
    after: &[KeptToken],
    until: Option<usize>,
) -> Option<Alias>
    requires { IsUntil source.now after.now until }
    ensures { result ≡ spec.alias_at source.now own.now piece after.now }
{
    let text = text_of(source, piece);
    if !is_imported(own, text) {
        return None;
    }
    match renamed(source, piece, after, until) {
        Some(alias) => Some(alias),
        None if is(text, "format_description") => parse_after(source, after, until),
        None => None,
    }
}

fn push_any(aliases: &mut Vec<Alias>, alias: Option<Alias>) -> Result<(), AllocError>
    ensures { OnOk result (aliases.new.items ≡ aliases.old.items ++ option_to_list alias) }
{
    match alias {
        Some(alias) => {
            aliases.push(alias)?;
            Ok(())
        }
        None => Ok(()),
    }
}

/// The aliases that a source declares, in order: of known names, and of those of these calls of its project. They are
/// looked for from the end, since there it is known where blocks end. An `Err` says that memory ran out.
pub fn aliases_of(
    alloc: Global,
    source: &[u8],
    own: &[OwnCall],
    pieces: &[KeptToken],
) -> Result<Vec<Alias>, AllocError>
    ensures { IfOk result (λ aliases. aliases.items ≡ spec.aliases_in source.now own.now pieces.now) }
{
    let mut aliases = Vec::new(alloc);
    let mut closings: Vec<u32> = Vec::new(alloc);
    let mut until = source.len();
    let mut left = pieces.len();
    'tokens: while left > 0 {
        left -= 1;
        let piece = pieces[left].placed();
        let after = tokens_after(pieces, left);
        push_any(
            &mut aliases,
            self_at(source, own, piece, after, Some(until)),
        )?;
        push_any(
            &mut aliases,
            alias_at(source, own, piece, after, Some(until)),
        )?;
        if is(text_of(source, piece), ";") {
            until = end_by(&closings, source);
        }
        pass_back(&mut closings, source, &pieces[left])?;
    }
    aliases.reverse();
    Ok(aliases)
}
