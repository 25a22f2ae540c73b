//! Faults that borrow what they quote.

ghost use Rattle.std.specs.Prelude.{◌≡◌, ◌≤◌, IfOk, IsErr, IsTrue};
ghost use Rattle.timefd_lang_fault.specs.ReadErrors.{IsFault};
ghost use Rattle.timefd_lang_fault.specs.RuleKinds.{rule_kind};
ghost use Rattle.timefd_lang_fault.specs.Faults as spec;
ghost use Rattle.timefd_lang_fault.specs.Sentences.{sentence};
ghost use Rattle.timefd_lang_fault.specs.BorrowedFaults.{HasShortWords, IsBorrowedFault, to_borrowed_fault};
ghost use Rattle.timefd_lang_fault.specs.Excerpts.{IsExcerpt};

use crate::digits::Digits;
use crate::excerpt::Excerpt;
use crate::invalid_format_description::InvalidFormatDescription;
use crate::read_error::Fault;
use crate::rule::{FaultKind, Rule};
use crate::sentence::write_kind;
use std::alloc::{AllocError, Global};

/// Why a text isn't a format description, and which of its bytes are at fault. It is like
/// `InvalidFormatDescription`, but borrows the name or the value that it quotes. This type is this
/// port's own.
#[derive(Clone, Copy)]
pub struct BorrowedFault<'a> {
    /// The rule that is broken.
    pub rule: Rule<'a>,
    /// The first byte at fault, as an index from the start of the text.
    pub start: usize,
    /// The index after the last byte at fault.
    pub end: usize,
}

impl<'a> BorrowedFault<'a> {
    /// The fault of a text of `len` bytes. It ends no later than the text.
    pub fn of(fault: Fault<'a>, len: usize) -> BorrowedFault<'a>
        requires { fault.remaining ≤ len }
        ensures fault { (g : spec.Fault) → IsFault len fault.entry g → to_borrowed_fault result ≡ g }
        ensures borrowed { IsBorrowedFault len fault.entry result }
    {
        let start = len - fault.remaining;
        BorrowedFault {
            rule: fault.rule,
            start,
            end: start + fault.len.min(fault.remaining),
        }
    }

    /// Writes the sentence of the fault to the front of the buffer, with as many of its characters
    /// as the buffer has room for. It takes no memory.
    pub fn write_sentence(&self, buffer: &mut [u8]) -> Excerpt
        requires { HasShortWords (rule_kind self.now.rule) }
        ensures { IsExcerpt (sentence (to_borrowed_fault self.now)) buffer.old buffer.new result }
    {
        let mut digits = Digits::new();
        let index = digits.format(self.start);
        write_kind(self.rule.kind(), index, buffer)
    }

    /// The fault with a copy of what it quotes. An `Err` says that there is no memory for the copy. A
    /// fault that quotes nothing takes none.
    pub fn into_owned(self, alloc: Global) -> Result<InvalidFormatDescription, AllocError>
        ensures fault { IfOk result (λ e. spec.fault_of e ≡ to_borrowed_fault self.entry) }
        ensures memory { IsErr result → IsTrue (spec.quotes (rule_kind self.entry.rule)) }
    {
        let index = self.start;
        Ok(match self.rule.kind() {
            FaultKind::UnclosedBracket => {
                InvalidFormatDescription::UnclosedOpeningBracket { index }
            }
            FaultKind::InvalidName(name) => {
                let name = String::from_str(alloc, name)?;
                InvalidFormatDescription::InvalidComponentName { name, index }
            }
            FaultKind::InvalidModifier(value) => {
                let value = String::from_str(alloc, value)?;
                InvalidFormatDescription::InvalidModifier { value, index }
            }
            FaultKind::MissingName => InvalidFormatDescription::MissingComponentName { index },
            FaultKind::MissingModifier(name) => InvalidFormatDescription::MissingRequiredModifier {
                name,
                index,
            },
            FaultKind::Expected(what) => InvalidFormatDescription::Expected { what, index },
            FaultKind::NotSupported(what, context) => InvalidFormatDescription::NotSupported {
                what,
                context,
                index,
            },
            FaultKind::DuplicateModifier(name) => InvalidFormatDescription::DuplicateModifier {
                name,
                index,
            },
            FaultKind::InvalidCombination(modifier, context) => {
                InvalidFormatDescription::InvalidModifierCombination {
                    modifier,
                    context,
                    index,
                }
            }
        })
    }
}
