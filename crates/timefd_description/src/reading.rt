//! Reads a text by the text of a description.

ghost use Rattle.std.specs.Prelude.{◌≡◌, ◌≤◌, List};
ghost use Rattle.std.specs.Result.{IfErr};
ghost use Rattle.timefd_parse.specs.Tree.{Tree, compound, trees};
ghost use Rattle.timefd_lang_fault.specs.Faults as spec;
ghost use Rattle.timefd_lang_node_list.specs.Item.Meaning.{item_trees};
ghost use Rattle.timefd_items.specs.Description.{description_tree};
ghost use Rattle.timefd_language.specs.Grammar.{nesting_limit};
ghost use Rattle.timefd_parse.specs.Language.{FaultIn, SpellsIn};
ghost use Rattle.timefd_date_moment.specs.Fields.Reads.{fields_of};
ghost use Rattle.timefd_description.specs.ReadAnswers.{AreFieldsAs, HasFaultOf, IsReadAs, IsRefusedFor, fields_in, read_answer};

use crate::read_error::{ReadTextError, of_parse_error};
use crate::strftime::unread_error;
use std::alloc::Global;
use timefd_date_moment::Moment;
use timefd_date_moment::fields::{Fields, ReadError, read_fields, read_item_fields};
use timefd_date_moment::reading::moment;
use timefd_lang_node_list::item::BorrowedFormatItem;
use timefd_parse::{
    BorrowedOutput, DescriptionVersion, FormatDescriptionV3, Language, NESTING_LIMIT,
    StrftimeTables, parse_all_borrowed, parse_strftime_all_borrowed,
};

/// Reads a whole text by the text of a description, in any language, and returns the moment that the
/// text shows.
///
/// A description with a fault is refused for it, whatever the text is and however little memory
/// there is.
pub fn read_text<'a>(
    alloc: Global,
    language: Language,
    description: &'a str,
    text: &str,
) -> Result<Moment, ReadTextError<'a>>
    // The text is read as the items of the description read it, and what was read determines the
    // moment. The error names the first part that doesn't read, or says why what was read isn't a
    // moment, or that memory ran out.
    ensures spelled { (list : List Tree) → SpellsIn language nesting_limit description.now list
        → IsReadAs (fields_in list text.now) result }

    // Any other text instead of a description is refused for the fault that the rules assign.
    ensures refused { (f : spec.Fault) → FaultIn language nesting_limit description.now f
        → IsRefusedFor f result }

    // A fault that is returned is the one that the rules assign.
    ensures fault { IfErr result (HasFaultOf (FaultIn language nesting_limit description.now)) }
{
    read_text_within(alloc, language, NESTING_LIMIT, description, text)
}

/// Does what `read_text` does, with descriptions nested at most `limit` deep: a description that nests deeper is
/// refused. The limit bounds how much stack this takes.
pub fn read_text_within<'a>(
    alloc: Global,
    language: Language,
    limit: u8,
    description: &'a str,
    text: &str,
) -> Result<Moment, ReadTextError<'a>>
    requires { limit ≤ nesting_limit }

    // The text is read as the items of the description read it, and what was read determines the
    // moment. The error names the first part that doesn't read, or says why what was read isn't a
    // moment, or that memory ran out.
    ensures spelled { (list : List Tree) → SpellsIn language limit description.now list
        → IsReadAs (fields_in list text.now) result }

    // Any other text instead of a description is refused for the fault that the rules assign.
    ensures refused { (f : spec.Fault) → FaultIn language limit description.now f
        → IsRefusedFor f result }

    // A fault that is returned is the one that the rules assign.
    ensures fault { IfErr result (HasFaultOf (FaultIn language limit description.now)) }
{
    match read_text_fields_within(alloc, language, limit, description, text) {
        Ok(fields) => match moment(&fields) {
            Ok(moment) => Ok(moment),
            Err(error) => Err(ReadTextError::Value(error)),
        },
        Err(error) => Err(error),
    }
}

/// Reads a whole text by the text of a description, in any language, and returns the fields that the
/// text shows. The error is never `Value`.
///
/// A description with a fault is refused for it, whatever the text is and however little memory
/// there is.
pub fn read_text_fields<'a>(
    alloc: Global,
    language: Language,
    description: &'a str,
    text: &str,
) -> Result<Fields, ReadTextError<'a>>
    // The text is read as the items of the description read it. The error names the first part that
    // doesn't read, or says that memory ran out.
    ensures spelled { (list : List Tree) → SpellsIn language nesting_limit description.now list
        → AreFieldsAs (fields_in list text.now) result }

    // Any other text instead of a description is refused for the fault that the rules assign.
    ensures refused { (f : spec.Fault) → FaultIn language nesting_limit description.now f
        → IsRefusedFor f result }

    // A fault that is returned is the one that the rules assign.
    ensures fault { IfErr result (HasFaultOf (FaultIn language nesting_limit description.now)) }
{
    read_text_fields_within(alloc, language, NESTING_LIMIT, description, text)
}

/// Does what `read_text_fields` does, with descriptions nested at most `limit` deep: a description that nests deeper
/// is refused. The limit bounds how much stack this takes.
pub fn read_text_fields_within<'a>(
    alloc: Global,
    language: Language,
    limit: u8,
    description: &'a str,
    text: &str,
) -> Result<Fields, ReadTextError<'a>>
    requires { limit ≤ nesting_limit }

    // The text is read as the items of the description read it. The error names the first part that
    // doesn't read, or says that memory ran out.
    ensures spelled { (list : List Tree) → SpellsIn language limit description.now list
        → AreFieldsAs (fields_in list text.now) result }

    // Any other text instead of a description is refused for the fault that the rules assign.
    ensures refused { (f : spec.Fault) → FaultIn language limit description.now f
        → IsRefusedFor f result }

    // A fault that is returned is the one that the rules assign.
    ensures fault { IfErr result (HasFaultOf (FaultIn language limit description.now)) }
{
    match language {
        Language::Version(version) => by_version(alloc, version, limit, description, text),
        Language::Strftime => by_strftime(alloc, description, text),
    }
}

fn by_version<'a>(
    alloc: Global,
    version: DescriptionVersion,
    limit: u8,
    description: &'a str,
    text: &str,
) -> Result<Fields, ReadTextError<'a>>
    requires { limit ≤ nesting_limit }
    ensures spelled { (list : List Tree)
        → SpellsIn (Language.Version version) limit description.now list
        → AreFieldsAs (fields_in list text.now) result }
    ensures refused { (f : spec.Fault)
        → FaultIn (Language.Version version) limit description.now f
        → IsRefusedFor f result }
    ensures fault { IfErr result (HasFaultOf (FaultIn (Language.Version version) limit description.now)) }
{
    match parse_all_borrowed(alloc, version, limit, description) {
        Ok(BorrowedOutput::Items(items)) => read_by_items(&items, text),
        Ok(BorrowedOutput::Description(description)) => read_by_description(&description, text),
        Err(error) => Err(of_parse_error(error)),
    }
}

fn by_strftime<'a>(
    alloc: Global,
    description: &'a str,
    text: &str,
) -> Result<Fields, ReadTextError<'a>>
    ensures spelled { (list : List Tree)
        → SpellsIn Language.Strftime nesting_limit description.now list
        → AreFieldsAs (fields_in list text.now) result }
    ensures refused { (f : spec.Fault) → FaultIn Language.Strftime nesting_limit description.now f
        → IsRefusedFor f result }
    ensures fault { IfErr result (HasFaultOf (FaultIn Language.Strftime nesting_limit description.now)) }
{
    let tables = StrftimeTables::new();
    match parse_strftime_all_borrowed(alloc, &tables, description) {
        Ok(items) => read_by_items(&items, text),
        Err(_) => Err(of_parse_error(unread_error(description))),
    }
}

fn read_by_items<'e>(
    items: &[BorrowedFormatItem<'_>],
    text: &str,
) -> Result<Fields, ReadTextError<'e>>
    ensures { result ≡ read_answer (fields_of (compound (trees (item_trees items.now))) text.now) }
{
    answer(read_item_fields(items, text))
}

fn read_by_description<'e>(
    description: &FormatDescriptionV3<'_>,
    text: &str,
) -> Result<Fields, ReadTextError<'e>>
    ensures { result ≡ read_answer (fields_of (description_tree description.now) text.now) }
{
    answer(read_fields(description.view(), text))
}

fn answer<'e>(read: Result<Fields, ReadError>) -> Result<Fields, ReadTextError<'e>>
    ensures { result ≡ read_answer read }
{
    match read {
        Ok(fields) => Ok(fields),
        Err(error) => Err(ReadTextError::Unread(error)),
    }
}
