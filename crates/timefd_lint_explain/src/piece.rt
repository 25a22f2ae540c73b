//! A piece of an accepted text, and what it is.

ghost use Rattle.std.specs.Prelude.{◌≡◌, ◌∷◌, [], List, IfOk, IsTrue};
ghost use Rattle.timefd_lang_component.specs.Tree.{Tree};
ghost use Rattle.timefd_lang_node_list.specs.Item.Meaning.{item_tree, item_trees};
ghost use Rattle.timefd_language.specs.Grammar.{nesting_limit};
ghost use Rattle.timefd_language.specs.Strings.{are_of_strings, is_of_strings};
ghost use Rattle.timefd_lang_node_list.specs.Views.{shape_tree, view_tree};
ghost use Rattle.timefd_parse.specs.Language.{SpellsIn};
ghost use Rattle.timefd_language.specs.declared.description_version.Language as spec_language;
ghost use Rattle.timefd_lint_explain.specs.Shown.{IsWhat, ShowsOne, SpellsOne};

use std::alloc::{AllocError, Global};
use timefd_items::{Shape, View, item_bytes};
use timefd_lang_component::Component;
use timefd_parse::{
    BorrowedFormatItem, BorrowedOutput, DescriptionVersion, Language, ParseError, StrftimeTables,
    parse_borrowed, parse_strftime_borrowed,
};

/// What a piece is.
#[derive(Drop)]
pub enum What {
    /// A literal, and the text that it means.
    Literal(String),
    /// A component.
    Component(Component),
    /// What a parser may skip, and whether a formatter writes it.
    Optional(bool),
    /// Alternatives.
    First,
    /// Several items, one after another, as a composite letter of strftime has them.
    Several,
}

/// A piece of a text, with what it is.
#[derive(Drop)]
pub struct Shown<'a> {
    pub text: &'a str,
    /// How many bytes it reserves.
    pub bytes: usize,
    pub what: What,
}

/// Finds what the text of one piece is. An `Err` says that memory ran out.
pub fn piece_of<'a>(
    alloc: Global,
    language: Language,
    text: &'a str,
) -> Result<Shown<'a>, AllocError>
    requires { SpellsOne language text.now }
    ensures { (tree : Tree) → SpellsIn language nesting_limit text.now (tree ∷ [])
        → IfOk result (λ shown. ShowsOne text.now shown tree) }
{
    match language {
        Language::Version(version) => version_piece(alloc, version, text),
        Language::Strftime => directive_piece(alloc, text),
    }
}

fn version_piece<'a>(
    alloc: Global,
    version: DescriptionVersion,
    text: &'a str,
) -> Result<Shown<'a>, AllocError>
    requires { SpellsOne (spec_language.Language.Version version) text.now }
    ensures { (tree : Tree)
        → SpellsIn (spec_language.Language.Version version) nesting_limit text.now (tree ∷ [])
        → IfOk result (λ shown. ShowsOne text.now shown tree) }
{
    match parse_borrowed(alloc, version, text) {
        Ok(BorrowedOutput::Description(description)) => {
            view_piece(alloc, text, description.view())
        }
        Ok(BorrowedOutput::Items(items)) => items_piece(alloc, text, &items),
        Err(ParseError::Invalid(_)) => unreachable!(),
        Err(ParseError::Memory(error)) => Err(error),
    }
}

fn directive_piece<'a>(alloc: Global, text: &'a str) -> Result<Shown<'a>, AllocError>
    requires { SpellsOne spec_language.Language.Strftime text.now }
    ensures { (tree : Tree)
        → SpellsIn spec_language.Language.Strftime nesting_limit text.now (tree ∷ [])
        → IfOk result (λ shown. ShowsOne text.now shown tree) }
{
    let tables = StrftimeTables::new();
    match parse_strftime_borrowed(alloc, &tables, text) {
        Ok(items) => items_piece(alloc, text, &items),
        Err(ParseError::Invalid(_)) => unreachable!(),
        Err(ParseError::Memory(error)) => Err(error),
    }
}

fn view_piece<'a>(alloc: Global, text: &'a str, view: View<'_, '_>) -> Result<Shown<'a>, AllocError>
    ensures { IfOk result (λ shown. ShowsOne text.now shown (view_tree view.entry)) }
{
    let bytes = view.max_bytes_needed();
    let what = shape_what(alloc, view.shape())?;
    Ok(Shown { text, bytes, what })
}

fn shape_what(alloc: Global, shape: Shape<'_, '_>) -> Result<What, AllocError>
    ensures { IfOk result (λ what. IsWhat what (shape_tree shape.entry)) }
{
    match shape {
        Shape::Component(component) => Ok(What::Component(component)),
        Shape::Literal(text) => Ok(What::Literal(String::from_str(alloc, text)?)),
        Shape::Compound(_) => Ok(What::Several),
        Shape::Optional { format, .. } => Ok(What::Optional(format)),
        Shape::First(_) => Ok(What::First),
    }
}

// A piece that is the only one of these items.
fn items_piece<'a>(
    alloc: Global,
    text: &'a str,
    items: &[BorrowedFormatItem<'_>],
) -> Result<Shown<'a>, AllocError>
    requires one { (tree : Tree) × (item_trees items.now ≡ tree ∷ []) }
    requires strings { IsTrue (are_of_strings items.now) }
    ensures { (tree : Tree) → item_trees items.now ≡ tree ∷ []
        → IfOk result (λ shown. ShowsOne text.now shown tree) }
{
    item_piece(alloc, text, &items[0])
}

/// A piece that is this item. It may not be a literal of bytes.
pub fn item_piece<'a>(
    alloc: Global,
    text: &'a str,
    item: &BorrowedFormatItem<'_>,
) -> Result<Shown<'a>, AllocError>
    requires { IsTrue (is_of_strings item.now) }
    ensures { IfOk result (λ shown. ShowsOne text.now shown (item_tree item.now)) }
{
    let what = item_what(alloc, item)?;
    Ok(Shown {
        text,
        bytes: item_bytes(item),
        what,
    })
}

/// What an item is. It may not be a literal of bytes.
pub fn item_what(alloc: Global, item: &BorrowedFormatItem<'_>) -> Result<What, AllocError>
    requires { IsTrue (is_of_strings item.now) }
    ensures { IfOk result (λ what. IsWhat what (item_tree item.now)) }
{
    match *item {
        BorrowedFormatItem::Literal(_) => unreachable!(),
        BorrowedFormatItem::StringLiteral(text) => Ok(What::Literal(String::from_str(
            alloc, text,
        )?)),
        BorrowedFormatItem::Component(component) => Ok(What::Component(component)),
        BorrowedFormatItem::Compound(_) => Ok(What::Several),
        BorrowedFormatItem::Optional(_) => Ok(What::Optional(true)),
        BorrowedFormatItem::First(_) => Ok(What::First),
    }
}
