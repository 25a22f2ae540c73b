//! What is wrong with a text that isn't a format description: its fault, the bytes at fault, a
//! stable name, and what helps.
#![tactic(auto)]

mod cure;
mod diagnosing;
mod diagnostic;
mod few;
mod further;
mod help;
pub mod laws;
pub mod nearest;
pub mod words;

pub use diagnosing::diagnose;
pub use diagnostic::{Diagnostic, Span, code_of};
pub use further::{MOST_FURTHER, further_faults};
pub use help::{Help, help_against};
pub use timefd_lang_fault::{Code, Slot, all_are_there, names_differ};
