//! The brackets that are open at a token, the innermost one last.

ghost use Rattle.std.specs.Prelude.{◌≡◌, OnOk};
ghost use Rattle.timefd_lint_scan.specs.Frames as spec;
ghost use Rattle.timefd_lint_scan.specs.FoundUses.{IsFound};
ghost use Rattle.timefd_lint_scan.specs.KeptAliases.{AreAliases};

use crate::aliases::Aliases;
use crate::calls::OpenBracket;
use crate::dialect::is;
use crate::flow::{entered, may_enter, opened, settled};
use crate::kept::KeptToken;
use crate::uses::Uses;
use crate::word::{is_closing, is_opening, text_after, text_at};
use std::alloc::AllocError;

/// The innermost bracket.
pub fn innermost(frames: &[OpenBracket]) -> Option<OpenBracket>
    ensures { result ≡ spec.innermost frames.now }
{
    frames.last().copied()
}

// Closes the innermost bracket.
fn close(frames: &mut Vec<OpenBracket>) -> Option<OpenBracket>
    ensures rest { frames.new.items ≡ spec.but_last frames.old.items }
    ensures closed { result ≡ spec.innermost frames.old.items }
{
    let closed = innermost(frames);
    frames.pop();
    closed
}

fn next_argument(argument: usize) -> usize
    ensures { result ≡ spec.next_argument argument }
{
    argument.saturating_add(1)
}

fn with_comma(frame: OpenBracket) -> OpenBracket
    ensures { result ≡ spec.with_comma frame }
{
    let argument = next_argument(frame.argument);
    settled(OpenBracket { argument, ..frame })
}

/// Whether another statement, arm or argument begins after a closing token: after a block that no `else`
/// follows.
fn is_end(source: &[u8], pieces: &[KeptToken], index: usize) -> bool
    ensures { result ≡ spec.is_end source.now pieces.now index }
{
    is(text_at(source, pieces, index), "}") && !is(text_after(source, pieces, index, 1), "else")
}

/// Whether a token that doesn't open a bracket may change the innermost one.
fn may_change(source: &[u8], pieces: &[KeptToken], index: usize) -> bool
    ensures { result ≡ spec.may_change source.now pieces.now index }
{
    is(text_at(source, pieces, index), ",")
        || is_end(source, pieces, index)
        || may_enter(source, pieces, index)
}

/// The innermost bracket after a token that doesn't open one.
fn after_token(
    source: &[u8],
    pieces: &[KeptToken],
    uses: Uses<'_>,
    index: usize,
    frame: OpenBracket,
) -> OpenBracket
    requires { IsFound source.now pieces.now uses }
    ensures { result ≡ spec.after_token source.now pieces.now uses.entry.list.now index frame }
{
    let text = text_at(source, pieces, index);
    if is(text, ",") {
        with_comma(frame)
    } else if is_closing(text) {
        if is_end(source, pieces, index) {
            settled(frame)
        } else {
            frame
        }
    } else {
        entered(source, pieces, uses, index, frame)
    }
}

// Replaces the innermost bracket by what it is after a token. Most tokens leave it as it is.
fn replace(
    frames: &mut Vec<OpenBracket>,
    source: &[u8],
    pieces: &[KeptToken],
    uses: Uses<'_>,
    index: usize,
) -> Result<(), AllocError>
    requires { IsFound source.now pieces.now uses }
    ensures { OnOk result (frames.new.items
        ≡ spec.replaced source.now pieces.now uses.entry.list.now index frames.old.items) }
{
    if !may_change(source, pieces, index) {
        return Ok(());
    }
    match close(frames) {
        Some(frame) => {
            frames.push(after_token(source, pieces, uses, index, frame))?;
            Ok(())
        }
        None => Ok(()),
    }
}

/// Opens or closes a bracket, counts a comma, or notes where the next value goes, with these aliases and uses
/// of names.
pub fn pass(
    frames: &mut Vec<OpenBracket>,
    source: &[u8],
    pieces: &[KeptToken],
    aliases: Aliases<'_>,
    uses: Uses<'_>,
    index: usize,
) -> Result<(), AllocError>
    requires found { IsFound source.now pieces.now uses }
    requires aliases { AreAliases source.now aliases }
    ensures { OnOk result (frames.new.items
        ≡ spec.passed source.now pieces.now aliases.entry.list.now aliases.entry.own.now uses.entry.list.now index
        frames.old.items) }
{
    let text = text_at(source, pieces, index);
    if is_opening(text) {
        let outer = innermost(frames);
        frames.push(opened(source, pieces, aliases, index, outer))?;
        return Ok(());
    }
    if is_closing(text) {
        close(frames);
    }
    replace(frames, source, pieces, uses, index)
}
