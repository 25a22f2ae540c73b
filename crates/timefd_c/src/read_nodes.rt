//! The function that C calls to read a date by nodes.

ghost use Rattle.std.specs.List.{list_all};
ghost use Rattle.std.specs.Prelude.{◌≡◌, IsUtf8, None, map, true};
ghost use Rattle.timefd_c.specs.Dates.{ReadsBy, silent};
ghost use Rattle.timefd_c.specs.NodeDates.{ReadsNodes};
ghost use Rattle.timefd_c_nodes.specs.Formatting.Literals.{is_text};
ghost use Rattle.timefd_c_nodes.specs.Formatting.Nodes.{node_fault, node_trees};
ghost use Rattle.timefd_c_nodes.specs.Formatting.Parts.{role_in};
ghost use Rattle.timefd_lang_node_list.specs.LeafMeaning.{leaf_tree};
ghost use Rattle.timefd_lang_node_list.specs.Views.{view_tree};
ghost use Rattle.timefd_date_moment.specs.Fields.Reads.{fields_of};
ghost use Rattle.timefd_description.specs.ReadAnswers.{IsReadAs, fields_in};

use crate::answer::NOT_UTF8;
use crate::date_answer::{DATE_NOT_UTF8, DateAnswer};
use crate::format_answer::NO_DESCRIPTION;
use std::alloc::Global;
use timefd_c_nodes::RawNode;
use timefd_c_nodes::dates::moment_shown;
use timefd_c_nodes::formatting::{are_texts, leaves_of, listed, node_fault};
use timefd_c_nodes::reading::text_of;
use timefd_date_moment::Moment;
use timefd_date_moment::fields::{NO_FIELDS, fill_leaf_fields, read_fields};
use timefd_date_moment::reading::moment;
use timefd_description::ReadTextError;
use timefd_lang_node_list::{Leaf, View};

/// Reads a date by nodes, as `timefd_read` writes them, and the bytes of their literals, and
/// returns the moment that the date shows.
#[tactic(auto, using(crate::proofs::NodeDateLemmas::read_at_once))]
#[unsafe(no_mangle)]
pub extern "C" fn timefd_read_nodes(
    alloc: Global,
    nodes: &[RawNode],
    literals: &[u8],
    date: &[u8],
) -> DateAnswer
    ensures reads { ReadsNodes nodes.now literals.now date.now result }
{
    // Most nodes are numbers of two and four digits, and literal texts.
    if let Some(moment) = moment_shown(nodes, literals, date) {
        return DateAnswer::read(moment);
    }
    read_exactly(alloc, nodes, literals, date)
}

/// Reads a date by any nodes. It isn't inlined, because it has room for all fields.
#[inline(never)]
#[tactic(auto, using(crate::proofs::NodeDateLemmas::read_as))]
fn read_exactly(alloc: Global, nodes: &[RawNode], literals: &[u8], date: &[u8]) -> DateAnswer
    ensures reads { ReadsNodes nodes.now literals.now date.now result }
{
    // Most descriptions have no optional parts and no alternatives. Then the leaves are enough to read by.
    if let Some(leaves) = leaves_of(alloc, nodes, literals) {
        return read_by_leaves(&leaves, date);
    }
    if let Some(at) = node_fault(nodes, literals) {
        return DateAnswer::silent(NO_DESCRIPTION, at);
    }
    if !are_texts(nodes, literals) {
        return DateAnswer::silent(NOT_UTF8, 0);
    }
    let Ok(date) = text_of(date) else {
        return DateAnswer::silent(DATE_NOT_UTF8, 0);
    };
    let read = read_listed(alloc, nodes, literals, date);
    DateAnswer::of(&read)
}

fn read_by_leaves(leaves: &[Leaf<'_>], date: &[u8]) -> DateAnswer
    ensures not_utf8 { ¬ (IsUtf8 date.now) → result ≡ silent DATE_NOT_UTF8 0 }
    ensures reads { IsUtf8 date.now → ReadsBy (map leaf_tree leaves.now) date.now result }
{
    let Ok(date) = text_of(date) else {
        return DateAnswer::silent(DATE_NOT_UTF8, 0);
    };
    let read = read_leaves(leaves, date);
    DateAnswer::of(&read)
}

fn read_leaves<'e>(leaves: &[Leaf<'_>], date: &str) -> Result<Moment, ReadTextError<'e>>
    ensures { IsReadAs (fields_in (map leaf_tree leaves.now) date.now) result }
{
    let mut fields = NO_FIELDS;
    match fill_leaf_fields(leaves, date, &mut fields) {
        Ok(()) => match moment(&fields) {
            Ok(moment) => Ok(moment),
            Err(error) => Err(ReadTextError::Value(error)),
        },
        Err(error) => Err(ReadTextError::Unread(error)),
    }
}

fn read_listed<'e>(
    alloc: Global,
    nodes: &[RawNode],
    literals: &[u8],
    date: &str,
) -> Result<Moment, ReadTextError<'e>>
    requires sound { node_fault literals.now nodes.now ≡ None }
    requires texts { list_all (λ n. is_text (role_in literals.now n)) nodes.now ≡ true }
    ensures { IsReadAs (fields_in (node_trees literals.now nodes.now) date.now) result }
{
    match listed(alloc, nodes, literals) {
        Ok(list) => read_by_view(View::new(list.nodes()), date),
        Err(error) => Err(ReadTextError::Memory(error)),
    }
}

fn read_by_view<'e>(view: View<'_, '_>, date: &str) -> Result<Moment, ReadTextError<'e>>
    ensures { IsReadAs (fields_of (view_tree view.entry) date.now) result }
{
    match read_fields(view, date) {
        Ok(fields) => match moment(&fields) {
            Ok(moment) => Ok(moment),
            Err(error) => Err(ReadTextError::Value(error)),
        },
        Err(error) => Err(ReadTextError::Unread(error)),
    }
}
