//! What a text is read as: its items, its tree, or its fault; and the parts of a tree.

mod components;
mod faults;
mod parts;
pub mod reading;

use crate::fault::RowFault;
use crate::fields::{one, three, two};
use std::alloc::Global;

/// What is asked about a text.
#[derive(Clone, Copy)]
pub enum TreeAsk {
    /// `tree LANGUAGE TEXT`: the items, the tree with the bytes that it reserves, or the fault's sentence.
    /// `every` means the three versions, which have to agree.
    Tree,
    /// `tree_within LIMIT VERSION TEXT`: what `tree` answers, with this nesting limit.
    TreeWithin,
    /// `version NUMBER`: the version of this number.
    Version,
    /// `fault LANGUAGE TEXT`: the sentence of a copy of the fault.
    Fault,
    /// `fault_index LANGUAGE TEXT`: the fault's index.
    FaultIndex,
    /// `fault_debug LANGUAGE TEXT`: the fault as `Debug` prints it.
    FaultDebug,
    /// `component TEXT`: the component that version 2 reads the text as.
    Component,
    /// `leaf TEXT`: the leaf of a description that this component becomes.
    Leaf,
    /// `parts TEXT`: the parts of the description that version 3 reads the text as, each after its members.
    Parts,
    /// `members TEXT`: its members in order.
    Members,
    /// `members_back TEXT`: its members from the last one to the first.
    MembersBack,
    /// `member_trees TEXT`: its members in order as `Debug` prints them, both as a view and as a tree of
    /// their own.
    MemberTrees,
    /// `longest_literal TEXT`: how many bytes its longest literal has.
    LongestLiteral,
    /// `reserved TEXT`: how many bytes the tree of its description reserves. A lower limit refuses it.
    Reserved,
}

impl TreeAsk {
    /// The ask that the word names.
    pub fn of_word(word: &str) -> Option<TreeAsk> {
        match word {
            "tree" => Some(TreeAsk::Tree),
            "tree_within" => Some(TreeAsk::TreeWithin),
            "version" => Some(TreeAsk::Version),
            "fault" => Some(TreeAsk::Fault),
            "fault_index" => Some(TreeAsk::FaultIndex),
            "fault_debug" => Some(TreeAsk::FaultDebug),
            "component" => Some(TreeAsk::Component),
            "leaf" => Some(TreeAsk::Leaf),
            "parts" => Some(TreeAsk::Parts),
            "members" => Some(TreeAsk::Members),
            "members_back" => Some(TreeAsk::MembersBack),
            "member_trees" => Some(TreeAsk::MemberTrees),
            "longest_literal" => Some(TreeAsk::LongestLiteral),
            "reserved" => Some(TreeAsk::Reserved),
            _ => None,
        }
    }
}

/// The answer to the ask.
pub fn answer(alloc: Global, ask: TreeAsk, fields: &[&str]) -> Result<String, RowFault> {
    match ask {
        TreeAsk::Tree => {
            let (language, text) = two(fields, "LANGUAGE TEXT")?;
            reading::tree(alloc, language, text)
        }
        TreeAsk::TreeWithin => {
            let (limit, version, text) = three(fields, "LIMIT VERSION TEXT")?;
            reading::tree_within(alloc, limit, version, text)
        }
        TreeAsk::Version => reading::version(alloc, one(fields, "NUMBER")?),
        TreeAsk::Fault => {
            let (language, text) = two(fields, "LANGUAGE TEXT")?;
            faults::sentence(alloc, language, text)
        }
        TreeAsk::FaultIndex => {
            let (language, text) = two(fields, "LANGUAGE TEXT")?;
            faults::index(alloc, language, text)
        }
        TreeAsk::FaultDebug => {
            let (language, text) = two(fields, "LANGUAGE TEXT")?;
            faults::debug(alloc, language, text)
        }
        TreeAsk::Component => components::component(alloc, one(fields, "TEXT")?),
        TreeAsk::Leaf => components::leaf(alloc, one(fields, "TEXT")?),
        TreeAsk::Parts => parts::parts(alloc, one(fields, "TEXT")?),
        TreeAsk::Members => parts::members(alloc, one(fields, "TEXT")?),
        TreeAsk::MembersBack => parts::members_back(alloc, one(fields, "TEXT")?),
        TreeAsk::MemberTrees => parts::member_trees(alloc, one(fields, "TEXT")?),
        TreeAsk::LongestLiteral => parts::longest(alloc, one(fields, "TEXT")?),
        TreeAsk::Reserved => parts::reserved(alloc, one(fields, "TEXT")?),
    }
}
