//! The faults of a format description.

ghost use Rattle.std.specs.Prelude.{◌≡◌, IfOk, IsFalse, IsOk};
ghost use Rattle.timefd_lang_fault.specs.Faults as spec;

use std::alloc::{AllocError, Global};
use std::fmt;

/// Why a text isn't a format description, and where. Every index counts bytes from the start of the
/// text. It is `time`'s enum of that name.
#[derive(Debug, PartialEq, Eq, Drop)]
pub enum InvalidFormatDescription {
    /// A bracket was opened and not closed.
    UnclosedOpeningBracket {
        /// Where the outermost bracket around it opens.
        index: usize,
    },
    /// No component has this name.
    InvalidComponentName {
        /// The name, as it is written.
        name: String,
        /// Where the name starts.
        index: usize,
    },
    /// A modifier isn't valid: its key, its value, or the word where one was expected.
    InvalidModifier {
        /// The key, value or word at fault, as it is written.
        value: String,
        /// Where that text starts.
        index: usize,
    },
    /// A bracket holds no component name.
    MissingComponentName {
        /// Where the name was expected.
        index: usize,
    },
    /// A modifier that the component needs isn't there.
    MissingRequiredModifier {
        /// The modifier's key.
        name: &'static str,
        /// Where the component's name starts.
        index: usize,
    },
    /// Something else was expected.
    Expected {
        /// What was expected.
        what: &'static str,
        /// Where it was expected.
        index: usize,
    },
    /// Something isn't supported.
    NotSupported {
        /// What isn't supported.
        what: &'static str,
        /// In what it isn't supported, or empty.
        context: &'static str,
        /// Where it is.
        index: usize,
    },
    /// A modifier is given twice.
    DuplicateModifier {
        /// The modifier's key.
        name: &'static str,
        /// Where the second one starts.
        index: usize,
    },
    /// A modifier isn't valid with the others of its component.
    InvalidModifierCombination {
        /// The modifier's key.
        modifier: &'static str,
        /// With what it isn't valid.
        context: &'static str,
        /// Where the key starts.
        index: usize,
    },
}

impl InvalidFormatDescription {
    /// Where the fault is, as a byte index from the start of the text.
    pub fn index(&self) -> usize
        ensures { result ≡ spec.index self.now }
    {
        match self {
            InvalidFormatDescription::UnclosedOpeningBracket { index }
            | InvalidFormatDescription::InvalidComponentName { index, .. }
            | InvalidFormatDescription::InvalidModifier { index, .. }
            | InvalidFormatDescription::MissingComponentName { index }
            | InvalidFormatDescription::MissingRequiredModifier { index, .. }
            | InvalidFormatDescription::Expected { index, .. }
            | InvalidFormatDescription::NotSupported { index, .. }
            | InvalidFormatDescription::DuplicateModifier { index, .. }
            | InvalidFormatDescription::InvalidModifierCombination { index, .. } => *index,
        }
    }

    /// A copy, with the same name or value in memory of its own. An `Err` says that memory ran out.
    /// A fault without a name or value takes none.
    pub fn clone(&self, alloc: Global) -> Result<Self, AllocError>
        ensures same { IfOk result (λ copy. spec.fault_of copy ≡ spec.fault_of self.now) }
        ensures no_memory { IsFalse (spec.quotes (spec.fault_of self.now).kind) → IsOk result }
    {
        match self {
            InvalidFormatDescription::InvalidComponentName { name, index } => Ok(
                InvalidFormatDescription::InvalidComponentName {
                    name: String::from_str(alloc, name)?,
                    index: *index,
                },
            ),
            InvalidFormatDescription::InvalidModifier { value, index } => Ok(
                InvalidFormatDescription::InvalidModifier {
                    value: String::from_str(alloc, value)?,
                    index: *index,
                },
            ),
            InvalidFormatDescription::UnclosedOpeningBracket { index } => Ok(
                InvalidFormatDescription::UnclosedOpeningBracket { index: *index },
            ),
            InvalidFormatDescription::MissingComponentName { index } => Ok(
                InvalidFormatDescription::MissingComponentName { index: *index },
            ),
            InvalidFormatDescription::MissingRequiredModifier { name, index } => Ok(
                InvalidFormatDescription::MissingRequiredModifier {
                    name: *name,
                    index: *index,
                },
            ),
            InvalidFormatDescription::Expected { what, index } => Ok(
                InvalidFormatDescription::Expected {
                    what: *what,
                    index: *index,
                },
            ),
            InvalidFormatDescription::NotSupported {
                what,
                context,
                index,
            } => Ok(InvalidFormatDescription::NotSupported {
                what: *what,
                context: *context,
                index: *index,
            }),
            InvalidFormatDescription::DuplicateModifier { name, index } => Ok(
                InvalidFormatDescription::DuplicateModifier {
                    name: *name,
                    index: *index,
                },
            ),
            InvalidFormatDescription::InvalidModifierCombination {
                modifier,
                context,
                index,
            } => Ok(InvalidFormatDescription::InvalidModifierCombination {
                modifier: *modifier,
                context: *context,
                index: *index,
            }),
        }
    }
}

impl fmt::Display for InvalidFormatDescription {
    ghost use Rattle.std.specs.Prelude.{Some};
    ghost use Rattle.timefd_lang_fault.specs.Sentences.{error_sentence};

    ghost output = { λ fault. Some (error_sentence fault) };

    fn fmt<W: fmt::Write>(&self, f: &mut fmt::Formatter<W>) -> fmt::Result {
        match self {
            InvalidFormatDescription::UnclosedOpeningBracket { index } => {
                write!(f, "unclosed opening bracket at byte index {index}")
            }
            InvalidFormatDescription::InvalidComponentName { name, index } => {
                write!(f, "invalid component name `{name}` at byte index {index}")
            }
            InvalidFormatDescription::InvalidModifier { value, index } => {
                write!(f, "invalid modifier `{value}` at byte index {index}")
            }
            InvalidFormatDescription::MissingComponentName { index } => {
                write!(f, "missing component name at byte index {index}")
            }
            InvalidFormatDescription::MissingRequiredModifier { name, index } => {
                write!(
                    f,
                    "missing required modifier `{name}` for component at byte index {index}"
                )
            }
            InvalidFormatDescription::Expected { what, index } => write!(
                f,
                "expected {what} at byte index {index}"
            ),
            InvalidFormatDescription::NotSupported {
                what,
                context,
                index,
            } => {
                if context.is_empty() {
                    write!(f, "{what} is not supported at byte index {index}")
                } else {
                    write!(
                        f,
                        "{what} is not supported in {context} at byte index {index}"
                    )
                }
            }
            InvalidFormatDescription::DuplicateModifier { name, index } => {
                write!(f, "duplicate modifier `{name}` at byte index {index}")
            }
            InvalidFormatDescription::InvalidModifierCombination {
                modifier,
                context,
                index,
            } => {
                write!(
                    f,
                    "the `{modifier}` modifier is not valid at byte index {index} {context}"
                )
            }
        }
    }
}
