//! The literal that a description expects where a text fails to match it.

ghost use Rattle.std.specs.Prelude.{◌≡◌, ◌≤◌, ◌<◌, IfSome, length, map, take};
ghost use Rattle.timefd_lang_component.specs.Tree.{literal};
ghost use Rattle.timefd_lang_node_list.specs.LeafMeaning.{leaf_tree};
ghost use Rattle.timefd_lang_node_list.specs.Item.Meaning.{item_tree};
ghost use Rattle.timefd_format.specs.Expected as spec;
ghost use Rattle.timefd_format.specs.Expected.{IsExpected, IsExpectedBy, IsExpectedIn, IsLiteral, IsStop};
ghost use Rattle.timefd_format.specs.ReadBack.{AreLeavesOf};
ghost use Rattle.timefd_format.specs.Sources.{AreLeavesIn};

use crate::source::{MomentSource, SourceKind};
use std::str;
use timefd_date_moment::fields::{
    NO_FIELDS, ReadError, UnreadReason, fill_item_fields, fill_leaf_fields,
};
use timefd_lang_node_list::Leaf;
use timefd_lang_node_list::item::BorrowedFormatItem;
use timefd_parse::BorrowedOutput;

// The parts of a description, in order.
#[derive(Clone, Copy)]
enum Parts<'p, 's> {
    Leaves(&'p [Leaf<'s>]),
    Items(&'p [BorrowedFormatItem<'s>]),
}

/// The literal of the description that the word lacks, at the first part that doesn't match. `None` means
/// that it isn't known: the literal may be part of an alternative, or of something optional.
pub fn expected_in<'s>(
    source: &'s MomentSource<'_>,
    leaves: Option<&[Leaf<'s>]>,
    word: &str,
) -> Option<&'s str>
    requires { AreLeavesIn source.now leaves }
    ensures { IfSome result (λ text. IsExpectedIn source.now word.now text.now) }
{
    match &source.kind {
        SourceKind::Names(_) => None,
        SourceKind::Texts(description) => expected_by(description, leaves, word),
    }
}

#[tactic(auto, using(crate::proofs::ExpectedLemmas::expected_of))]
fn expected_by<'s>(
    description: &'s BorrowedOutput<'_>,
    leaves: Option<&[Leaf<'s>]>,
    word: &str,
) -> Option<&'s str>
    requires { AreLeavesOf description.now leaves }
    ensures { IfSome result (λ text. IsExpectedBy description.now word.now text.now) }
{
    if let Some(leaves) = leaves {
        return expected(Parts::Leaves(leaves), word);
    }
    match description {
        BorrowedOutput::Items(items) => expected(Parts::Items(items), word),
        BorrowedOutput::Description(_) => None,
    }
}

fn expected<'s>(parts: Parts<'_, 's>, word: &str) -> Option<&'s str>
    ensures { IfSome result (λ text. IsExpected (spec.part_trees parts.entry) word.now text.now) }
{
    literal_at(parts, stop_of(parts, word)?)
}

// How many parts the word matches, if it fails at the literal after them.
fn stop_of(parts: Parts<'_, '_>, word: &str) -> Option<usize>
    ensures { IfSome result (IsStop (spec.part_trees parts.entry) word.now) }
{
    let mut read = 0;
    let mut unread = count_of(parts);
    if unread == 0 || stops(parts, 0, word) || !stops(parts, unread, word) {
        return None;
    }
    'halves: for _ in 0..64 {
        if unread - read < 2 {
            return Some(read);
        }
        let middle = read + (unread - read) / 2;
        if stops(parts, middle, word) {
            unread = middle;
        } else {
            read = middle;
        }
    }
    None
}

fn count_of(parts: Parts<'_, '_>) -> usize
    ensures { result ≡ length (spec.part_trees parts.entry) }
{
    match parts {
        Parts::Leaves(leaves) => leaves.len(),
        Parts::Items(items) => items.len(),
    }
}

// Whether the word fails at a literal among the first `count` parts.
#[tactic(auto, using(crate::proofs::ExpectedLemmas::taken))]
fn stops(parts: Parts<'_, '_>, count: usize, word: &str) -> bool
    requires { count ≤ length (spec.part_trees parts) }
    ensures { result ≡ spec.stops (take count (spec.part_trees parts.entry)) word.now }
{
    match parts {
        Parts::Leaves(leaves) => stops_at_leaf(&leaves[..count], word),
        Parts::Items(items) => stops_at_item(&items[..count], word),
    }
}

#[tactic(auto, using(crate::proofs::ExpectedLemmas::stopped))]
fn stops_at_leaf(leaves: &[Leaf<'_>], word: &str) -> bool
    ensures { result ≡ spec.stops (map leaf_tree leaves.now) word.now }
{
    let mut fields = NO_FIELDS;
    is_literal(fill_leaf_fields(leaves, word, &mut fields))
}

#[tactic(auto, using(crate::proofs::ExpectedLemmas::stopped))]
fn stops_at_item(items: &[BorrowedFormatItem<'_>], word: &str) -> bool
    ensures { result ≡ spec.stops (map item_tree items.now) word.now }
{
    let mut fields = NO_FIELDS;
    is_literal(fill_item_fields(items, word, &mut fields))
}

fn is_literal(read: Result<(), ReadError>) -> bool
    ensures { result ≡ spec.is_stop read }
{
    match read {
        Ok(()) => false,
        Err(error) => match error.reason {
            UnreadReason::Literal => true,
            UnreadReason::Unread(_) | UnreadReason::Contradiction(_) | UnreadReason::Trailing =>
                false,
        },
    }
}

// The text of the part at this index, if it is a literal.
#[tactic(auto, using(crate::proofs::ExpectedLemmas::at_position))]
fn literal_at<'s>(parts: Parts<'_, 's>, at: usize) -> Option<&'s str>
    requires { at < length (spec.part_trees parts) }
    ensures { IfSome result (λ text. IsLiteral (spec.part_trees parts.entry) at text.now) }
{
    match parts {
        Parts::Leaves(leaves) => leaf_text(leaves[at]),
        Parts::Items(items) => item_text(items[at]),
    }
}

fn leaf_text(leaf: Leaf<'_>) -> Option<&str>
    ensures { IfSome result (λ text. leaf_tree leaf.entry ≡ literal text.now) }
{
    match leaf {
        Leaf::Literal(text) => Some(text),
        Leaf::Component(_) => None,
    }
}

fn item_text(item: BorrowedFormatItem<'_>) -> Option<&str>
    ensures { IfSome result (λ text. item_tree item.entry ≡ literal text.now) }
{
    match item {
        BorrowedFormatItem::StringLiteral(text) => Some(text),
        BorrowedFormatItem::Literal(bytes) => str::from_utf8(bytes).ok(),
        _ => None,
    }
}
