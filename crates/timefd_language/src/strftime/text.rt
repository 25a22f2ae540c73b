//! Steps over a text of strftime that take no memory.

ghost use Rattle.std.specs.Str.{IsUtf8};
ghost use Rattle.timefd_language.specs.Directives.StrftimeReading.{BeginsPiece, BeginsWithFlag};

use crate::text::tail;
use timefd_modifier::Padding;

/// What a text begins with.
#[derive(Clone, Copy)]
pub enum PieceStart<'a> {
    /// Nothing: it is empty.
    End,
    /// A `%`, and what follows it.
    Directive(&'a str),
    /// Any other byte.
    Literal,
}

#[inline(always)]
pub fn piece_start_of(text: &str) -> PieceStart<'_>
    ensures { BeginsPiece result text.now }
{
    match text.as_bytes() {
        [] => PieceStart::End,
        [b'%', ..] => PieceStart::Directive(tail(text)),
        [_, ..] => PieceStart::Literal,
    }
}

/// The padding that a flag asks for, if the text begins with one, and what follows it.
#[inline(always)]
pub fn cut_flag(text: &str) -> (Option<Padding>, &str)
    ensures parts { BeginsWithFlag text.now result.0 result.1.now }
    ensures utf8 { IsUtf8 result.1.now }
{
    match text.as_bytes() {
        [b'_', ..] => (Some(Padding::Space), tail(text)),
        [b'-', ..] => (Some(Padding::None), tail(text)),
        [b'0', ..] => (Some(Padding::Zero), tail(text)),
        _ => (None, text),
    }
}
