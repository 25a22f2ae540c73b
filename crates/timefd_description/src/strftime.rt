//! Texts of strftime, read as nodes.

ghost use Rattle.std.specs.Prelude.{◌≡◌, ◌∷◌, ◌++◌, ◌<◌, [], List, MatchResult, OnOk, length};
ghost use Rattle.std.specs.Result.{IfErr};
ghost use Rattle.timefd_parse.specs.Tree.{Tree};
ghost use Rattle.timefd_description.specs.Modern.{modern_tree};
ghost use Rattle.timefd_description.specs.Parsed.{IsParsed};
ghost use Rattle.timefd_items.specs.Builder.{built};
ghost use Rattle.timefd_lang_fault.specs.BorrowedFaults.{IsBorrowed, IsBorrowedOf, IsMemory};
ghost use Rattle.timefd_lang_fault.specs.Faults as spec;
ghost use Rattle.timefd_lang_fault.specs.ReadErrors.{MemoryOr};
ghost use Rattle.timefd_language.specs.Grammar.{nesting_limit};
ghost use Rattle.timefd_language.specs.Strftime.{SpellsStrftime};
ghost use Rattle.timefd_language.specs.declared.description_version.Language.TheVariants.{Strftime};
ghost use Rattle.timefd_language.specs.Directives.PieceMeaning.{piece_tree};
ghost use Rattle.timefd_language.specs.Directives.StrftimeReading.{IsStrftimeFaultIn};
ghost use Rattle.timefd_parse.specs.Language.{FaultIn, SpellsIn};

use crate::composite::add_composite;
use crate::nodes::finished;
use std::alloc::{AllocError, Global};
use timefd_items::{DescriptionBuilder, FormatDescriptionV3};
use timefd_lang_fault::read_error::ReadError;
use timefd_language::strftime::{StrftimePiece, next_strftime_piece, strftime_error};
use timefd_parse::{BorrowedParseError, count_strftime};

/// Reads a text of strftime.
pub fn read_strftime<'a>(
    alloc: Global,
    text: &'a str,
) -> Result<FormatDescriptionV3<'a>, BorrowedParseError<'a>>
    ensures { IsParsed Strftime nesting_limit text.now result }
{
    match directives(alloc, text) {
        Ok(builder) => match finished(builder) {
            Ok(description) => Ok(description),
            Err(error) => Err(BorrowedParseError::Memory(error)),
        },
        Err(error) => Err(strftime_error(error, text)),
    }
}

/// Why a text of strftime wasn't read. The fault is looked for again, so that the error borrows no tables.
pub fn unread_error(text: &str) -> BorrowedParseError<'_>
    ensures spelled { (list : List Tree) → SpellsIn Strftime nesting_limit text.now list → IsMemory result }
    ensures refused { (f : spec.Fault) → FaultIn Strftime nesting_limit text.now f → IsBorrowed f result }
    ensures fault { IsBorrowedOf (FaultIn Strftime nesting_limit text.now) result }
{
    match count_strftime(text) {
        Ok(_) => BorrowedParseError::Memory(AllocError),
        Err(fault) => BorrowedParseError::Invalid(fault),
    }
}

fn directives<'a>(alloc: Global, text: &'a str) -> Result<DescriptionBuilder<'a>, ReadError<'a>>
    ensures pieces { MatchResult result (λ builder. (list : List Tree) × SpellsStrftime text.now list
        × (built builder ≡ list)) (MemoryOr (IsStrftimeFaultIn text.now)) }
    ensures some { IfErr result (λ _. 0 < length text.now) }
{
    let mut builder = DescriptionBuilder::new(alloc);
    let mut rest = text;
    'pieces: loop {
        let Some((piece, after)) = next_strftime_piece(rest)? else {
            return Ok(builder);
        };
        add_piece(&mut builder, piece)?;
        rest = after;
    }
}

fn add_piece<'a>(
    builder: &mut DescriptionBuilder<'a>,
    piece: StrftimePiece<'a>,
) -> Result<(), AllocError>
    ensures { OnOk result (built builder.new ≡ built builder.old
        ++ modern_tree (piece_tree piece.entry) ∷ []) }
{
    match piece {
        StrftimePiece::Literal(text) => builder.literal(text),
        StrftimePiece::Component(component) => builder.component(component),
        StrftimePiece::Composite(composite) => add_composite(builder, composite),
    }
}
