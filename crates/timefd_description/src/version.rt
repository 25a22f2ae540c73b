//! Texts of versions 1, 2 and 3, read as nodes.

ghost use Rattle.std.specs.Prelude.{◌≡◌, ◌∷◌, ◌++◌, ◌<◌, ◌≤◌, [], List, IsFalse, MatchResult, OnOk, length};
ghost use Rattle.std.specs.Result.{IfErr};
ghost use Rattle.timefd_parse.specs.Tree.{Tree};
ghost use Rattle.timefd_description.specs.Modern.{modern_tree};
ghost use Rattle.timefd_description.specs.Parsed.{IsParsed};
ghost use Rattle.timefd_items.specs.Builder.{built};
ghost use Rattle.timefd_language.specs.Bytes.{is_version_three};
ghost use Rattle.timefd_lang_fault.specs.ReadErrors.{MemoryOr};
ghost use Rattle.timefd_language.specs.Grammar.{nesting_limit};
ghost use Rattle.timefd_language.specs.declared.description_version.DescriptionVersion.TheVariants.{Three};
ghost use Rattle.timefd_parse.specs.Pieces.{IsLeaf, IsLeafTree};
ghost use Rattle.timefd_parse.specs.Read.{IsFaultIn, PiecesToEnd};
ghost use Rattle.timefd_language.specs.declared.description_version.Language.TheVariants.{Version};

use crate::nodes::finished;
use std::alloc::{AllocError, Global};
use timefd_items::{DescriptionBuilder, FormatDescriptionV3};
use timefd_lang_fault::read_error::ReadError;
use timefd_parse::{
    BorrowedOutput, BorrowedParseError, DescriptionVersion, Piece, error_of, next_piece,
    parse_all_borrowed,
};

/// Reads a text of a version, with descriptions nested at most `limit` deep.
pub fn read_version<'a>(
    alloc: Global,
    version: DescriptionVersion,
    limit: u8,
    text: &'a str,
) -> Result<FormatDescriptionV3<'a>, BorrowedParseError<'a>>
    requires { limit ≤ nesting_limit }
    ensures { IsParsed (Version version) limit text.now result }
{
    if let DescriptionVersion::Three = version {
        return read_version_three(alloc, limit, text);
    }
    read_items(alloc, version, limit, text)
}

fn read_version_three<'a>(
    alloc: Global,
    limit: u8,
    text: &'a str,
) -> Result<FormatDescriptionV3<'a>, BorrowedParseError<'a>>
    requires { limit ≤ nesting_limit }
    ensures { IsParsed (Version Three) limit text.now result }
{
    match parse_all_borrowed(alloc, DescriptionVersion::Three, limit, text) {
        Ok(BorrowedOutput::Description(description)) => Ok(description),
        Ok(BorrowedOutput::Items(_)) => unreachable!(),
        Err(error) => Err(error),
    }
}

/// Reads a text of version 1 or 2, whose items are literals and components.
fn read_items<'a>(
    alloc: Global,
    version: DescriptionVersion,
    limit: u8,
    text: &'a str,
) -> Result<FormatDescriptionV3<'a>, BorrowedParseError<'a>>
    requires older { IsFalse (is_version_three version) }
    requires limit { limit ≤ nesting_limit }
    ensures { IsParsed (Version version) limit text.now result }
{
    match pieces(alloc, version, limit, text) {
        Ok(builder) => match finished(builder) {
            Ok(description) => Ok(description),
            Err(error) => Err(BorrowedParseError::Memory(error)),
        },
        Err(error) => Err(error_of(alloc, version, limit, text, error)),
    }
}

fn pieces<'a>(
    alloc: Global,
    version: DescriptionVersion,
    limit: u8,
    text: &'a str,
) -> Result<DescriptionBuilder<'a>, ReadError<'a>>
    requires older { IsFalse (is_version_three version) }
    requires limit { limit ≤ nesting_limit }
    ensures pieces { MatchResult result (λ builder. (list : List Tree)
        × PiecesToEnd version limit 0 text.now list [] × (built builder ≡ list))
        (MemoryOr (IsFaultIn version limit 0 text.now)) }
    ensures some { IfErr result (λ _. 0 < length text.now) }
{
    // A nested description is a fault in these versions, so nothing is built here.
    let mut nested = DescriptionBuilder::new(alloc);
    let mut builder = DescriptionBuilder::new(alloc);
    let mut rest = text;
    'pieces: loop {
        let Some((piece, after)) = next_piece::<false>(&mut nested, version, rest, limit, 0)? else {
            return Ok(builder);
        };
        add_leaf(&mut builder, piece)?;
        rest = after;
    }
}

fn add_leaf<'a>(builder: &mut DescriptionBuilder<'a>, piece: Piece<'a>) -> Result<(), AllocError>
    requires { IsLeaf piece }
    ensures { (tree : Tree) → IsLeafTree piece.entry tree
        → OnOk result (built builder.new ≡ built builder.old ++ modern_tree tree ∷ []) }
{
    match piece {
        Piece::Literal(text) => builder.literal(text),
        Piece::Component(component, _) => builder.component(component),
        Piece::Compound => unreachable!(),
    }
}
