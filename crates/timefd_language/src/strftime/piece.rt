//! The pieces of a text of strftime, one after another: runs and directives.

ghost use Rattle.std.specs.Prelude.{◌≡◌, [], IsTrue, MatchOption, MatchResult};
ghost use Rattle.timefd_language.specs.declared.strftime.text.PieceStart.TheVariants.{Literal};
ghost use Rattle.timefd_language.specs.Directives.PieceMeaning.{piece_tree};
ghost use Rattle.timefd_language.specs.Directives.StrftimeReading.{BeginsPiece, BeginsWithPiece, IsStrftimeFaultAt};

use crate::strftime::directive::directive;
use crate::strftime::item::{component_item, compound_item, literal_item};
use crate::strftime::letter::Composite;
use crate::strftime::tables::StrftimeTables;
use crate::strftime::text::{PieceStart, piece_start_of};
use crate::text::{Class, cut};
use timefd_lang_component::Component;
use timefd_lang_fault::read_error::Fault;
use timefd_lang_node_list::item::BorrowedFormatItem;

/// A run, or what a directive stands for.
#[derive(Clone, Copy)]
pub enum StrftimePiece<'a> {
    /// A run, or the literal of `%%`, `%n` or `%t`.
    Literal(&'a str),
    /// The component of a letter.
    Component(Component),
    /// The list of items of a composite letter.
    Composite(Composite),
}

impl<'a> StrftimePiece<'a> {
    ghost use Rattle.timefd_lang_node_list.specs.Item.Meaning.{item_tree};
    ghost use Rattle.timefd_language.specs.Strings.{is_of_strings};

    /// The piece as an item. The item of a composite letter borrows its list from `tables`.
    #[inline(always)]
    pub fn into_item(self, tables: &'a StrftimeTables<'a>) -> BorrowedFormatItem<'a>
        ensures tree { item_tree result ≡ piece_tree self.entry }
        ensures strings { IsTrue (is_of_strings result) }
    {
        match self {
            StrftimePiece::Literal(text) => literal_item(text),
            StrftimePiece::Component(component) => component_item(component),
            StrftimePiece::Composite(composite) => compound_item(tables.list(composite)),
        }
    }
}

/// The piece that a text of strftime begins with, and what follows it; `None` for the empty text.
/// It takes no memory.
///
/// The error is the fault of a text that begins with a `%` but not with a directive.
#[inline(always)]
pub fn next_strftime_piece<'a>(
    text: &'a str,
) -> Result<Option<(StrftimePiece<'a>, &'a str)>, Fault<'a>>
    ensures { MatchResult result (λ found. MatchOption found (text.now ≡ [])
        (λ x. BeginsWithPiece text.now x.0 x.1.now)) (IsStrftimeFaultAt text.now) }
{
    match piece_start_of(text) {
        PieceStart::End => Ok(None),
        PieceStart::Directive(after) => Ok(Some(directive(after)?)),
        PieceStart::Literal => Ok(Some(run(text))),
    }
}

/// The literal before the first `%`, and the rest.
#[inline(always)]
fn run<'a>(text: &'a str) -> (StrftimePiece<'a>, &'a str)
    requires { BeginsPiece Literal text.now }
    ensures { BeginsWithPiece text.now result.0 result.1.now }
{
    let (front, rest) = cut(text, Class::Plain);
    (StrftimePiece::Literal(front), rest)
}
