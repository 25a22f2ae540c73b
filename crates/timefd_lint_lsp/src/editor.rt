//! What an editor shows about a document: what is wrong with its descriptions, what they mean, what can be done
//! to them, and which words may be written in them.

mod action;
mod all_actions;
mod all_findings;
mod all_fixes;
mod completing;
mod counter;
mod cursor;
mod fault_hover;
mod faults;
mod finding;
mod given;
mod good_front;
mod hovering;
pub mod laws;
mod offered;
mod other;
mod position;
mod remarked;
mod replacing;
mod scan;
mod slot;
mod walk;
mod warned;

pub use action::{Action, ActionKind, Edit, WantedActions};
pub use all_actions::actions;
pub use all_findings::findings;
pub use completing::{Completion, complete};
pub use fault_hover::Hover;
pub use finding::{Finding, Severity};
pub use hovering::hover;
pub use position::{DocumentPosition, DocumentRange, index_of, position_of};
pub use replacing::replaced;
