//! What the linter says of formats of other languages: which are refused and why, what in them is suspect, and a message on
//! each in every form.

mod codes;
mod judging;

pub use codes::{all_reasons, all_traps, names_are_read, reason_named, trap_named};
pub use judging::{refusal_drawn, trap_drawn};
