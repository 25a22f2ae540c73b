//! A description of any language.

ghost use Rattle.timefd_description.specs.Descriptions.{tree};
ghost use Rattle.timefd_parse.specs.Reserved.{reserve};

use crate::strftime::read_strftime;
use crate::version::read_version;
use crate::writing::write_view;
use std::alloc::{AllocError, Global};
use timefd_date_format::{FormatError, TextError, format, written_leaves};
use timefd_date_moment::Moment;
use timefd_date_moment::fields::{Fields, ReadError, read_fields};
use timefd_items::FormatDescriptionV3;
use timefd_lang_node_list::{Leaf, View};
use timefd_parse::{BorrowedParseError, Language, NESTING_LIMIT};

/// A format description, opened. It borrows its text. Whatever the language of the text, formatting and
/// reading see one tree, and no items or tables.
#[derive(Drop)]
pub struct Description<'a> {
    nodes: FormatDescriptionV3<'a>,
}

impl<'a> Description<'a> {
    ghost use Rattle.std.specs.Prelude.{◌≡◌, ◌≤◌, [], IfOk, IsOk, List, MatchResult, length, map};
    ghost use Rattle.std.specs.Result.{IfErr};
    ghost use Rattle.timefd_lang_fault.specs.BorrowedFaults.{IsBorrowed, IsBorrowedOf, IsMemory};
    ghost use Rattle.timefd_parse.specs.Tree.{Tree, trees};
    ghost use Rattle.timefd_description.specs.Descriptions.{IsOf};
    ghost use Rattle.timefd_lang_fault.specs.Faults as spec;
    ghost use Rattle.timefd_date_format.specs.Answers.{IsAnswer};
    ghost use Rattle.timefd_date_format.specs.Fronts.{IsFront};
    ghost use Rattle.timefd_date_format.specs.Written.{written, written_all};
    ghost use Rattle.timefd_date_moment.specs.declared.moment.Moment.{Moment as Value};
    ghost use Rattle.timefd_lang_node_list.specs.LeafMeaning.{leaf_tree};
    ghost use Rattle.timefd_language.specs.Grammar.{nesting_limit};
    ghost use Rattle.timefd_lang_node_list.specs.Views.{view_tree};
    ghost use Rattle.timefd_parse.specs.Language.{FaultIn, SpellsIn};
    ghost use Rattle.timefd_date_moment.specs.Fields.Reads.{fields_of};

    /// Opens a text of a language.
    ///
    /// The error is `Invalid` with the fault of the text, or `Memory` if memory ran out. A text with a
    /// fault is refused for that fault even then.
    pub fn parse(
        alloc: Global,
        language: Language,
        text: &'a str,
    ) -> Result<Description<'a>, BorrowedParseError<'a>>
        // An accepted text spells what was read, and a refused text is refused for the fault that the
        // rules assign.
        ensures found { IfOk result (λ d. (list : List Tree)
            × SpellsIn language nesting_limit text.now list × IsOf list d) }
        ensures fault { IfErr result (IsBorrowedOf (FaultIn language nesting_limit text.now)) }

        // A text that spells items is accepted, unless memory runs out, and a text with a fault is
        // refused for it.
        ensures spelled { (list : List Tree) → SpellsIn language nesting_limit text.now list
            → MatchResult result (IsOf list) IsMemory }
        ensures refused { (f : spec.Fault) → FaultIn language nesting_limit text.now f
            → MatchResult result (λ _. ⊥) (IsBorrowed f) }

        // The empty text takes no memory.
        ensures empty { text.now ≡ [] → IsOk result }
    {
        Description::parse_within(alloc, language, NESTING_LIMIT, text)
    }

    /// Opens a text of a language as `parse` does, with descriptions nested at most `limit` deep. A text that nests
    /// deeper is refused; strftime nests none. The limit bounds how much stack it takes to read by the description.
    ///
    /// The error is `Invalid` with the fault of the text, or `Memory` if memory ran out. A text with a
    /// fault is refused for that fault even then.
    pub fn parse_within(
        alloc: Global,
        language: Language,
        limit: u8,
        text: &'a str,
    ) -> Result<Description<'a>, BorrowedParseError<'a>>
        requires { limit ≤ nesting_limit }

        // An accepted text spells what was read, and a refused text is refused for the fault that the
        // rules assign.
        ensures found { IfOk result (λ d. (list : List Tree)
            × SpellsIn language limit text.now list × IsOf list d) }
        ensures fault { IfErr result (IsBorrowedOf (FaultIn language limit text.now)) }

        // A text that spells items is accepted, unless memory runs out, and a text with a fault is
        // refused for it.
        ensures spelled { (list : List Tree) → SpellsIn language limit text.now list
            → MatchResult result (IsOf list) IsMemory }
        ensures refused { (f : spec.Fault) → FaultIn language limit text.now f
            → MatchResult result (λ _. ⊥) (IsBorrowed f) }

        // The empty text takes no memory.
        ensures empty { text.now ≡ [] → IsOk result }
    {
        match language {
            Language::Version(version) => match read_version(alloc, version, limit, text) {
                Ok(nodes) => Ok(Description { nodes }),
                Err(error) => Err(error),
            },
            Language::Strftime => match read_strftime(alloc, text) {
                Ok(nodes) => Ok(Description { nodes }),
                Err(error) => Err(error),
            },
        }
    }

    /// A view of its tree, without a copy.
    pub fn view(&self) -> View<'_, 'a>
        ensures { view_tree result ≡ tree self.now }
    {
        self.nodes.view()
    }

    /// The most bytes that it writes for any moment.
    pub fn max_bytes_needed(&self) -> usize
        ensures { result ≡ reserve (tree self.now) }
    {
        self.nodes.max_bytes_needed()
    }

    /// What it writes, as components and literals one after another: `write_front` writes many moments by these, and
    /// takes no memory. An `Err` says that memory ran out.
    pub fn leaves(&self, alloc: Global) -> Result<Vec<Leaf<'_>>, AllocError>
        ensures { IfOk result (λ found. (value : Value)
            → written_all value (trees (map leaf_tree found.items)) ≡ written value (tree self.now)) }
    {
        written_leaves(alloc, self.view())
    }

    /// Writes a moment over the front of the buffer, and returns the length of the text in bytes. A buffer of
    /// `max_bytes_needed` bytes has room for any moment. Takes no memory.
    ///
    /// The error names the first component that shows nothing of the moment, or says that the buffer has no room.
    /// The buffer is then as it was.
    pub fn write(&self, moment: &Moment, buffer: &mut [u8]) -> Result<usize, FormatError>
        ensures front { IsFront (written moment.now (tree self.now)) buffer.old buffer.new result }
        ensures enough { reserve (tree self.now) ≤ length buffer.old
            → IfErr result (λ error. ¬ (error ≡ FormatError.Room)) }
    {
        write_view(moment, self.view(), buffer)
    }

    /// The text that it writes for a moment, as a new string. The error names the first component that shows nothing of
    /// the moment, or says that memory ran out.
    pub fn format(&self, alloc: Global, moment: Moment) -> Result<String, TextError>
        ensures { IsAnswer (written moment (tree self.now)) result }
    {
        format(alloc, moment, self.view())
    }

    /// Reads a whole text, and returns the fields that it shows. The error is the first part that
    /// doesn't read, with the byte index where it begins. Takes no memory, but stack in proportion to
    /// the nesting of the description.
    pub fn read(&self, text: &str) -> Result<Fields, ReadError>
        ensures { result ≡ fields_of (tree self.now) text.now }
    {
        read_fields(self.view(), text)
    }

    /// A copy that borrows nothing, so it may outlive the text. An `Err` says that memory ran out.
    pub fn to_owned(&self, alloc: Global) -> Result<Description<'static>, AllocError>
        ensures { IfOk result (λ copy. tree copy ≡ tree self.now) }
    {
        match self.nodes.to_owned(alloc) {
            Ok(nodes) => Ok(Description { nodes }),
            Err(error) => Err(error),
        }
    }
}
