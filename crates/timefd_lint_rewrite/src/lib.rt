//! Rewrites lines of descriptions in a later version of the language or in their normal form, or formats of other languages
//! as texts of version 3, or mends lines:
//! then it writes the cure of one fault after another until the text is accepted. Each line keeps its end,
//! and lines that are passed over or refused stay as they are.
#![tactic(auto)]

mod counts;
mod cure;
mod diff;
mod fixing;
mod layout;
mod line_change;
mod lines;
mod nearest;
mod pairs;
mod rewrite;

pub use counts::{Counts, LineOutcome};
pub use cure::Fixes;
pub use diff::write_diff;
pub use fixing::{FIX_LIMIT, fixed};
pub use layout::{Layout, lay_out};
pub use line_change::{LineChange, changed_text};
pub use lines::{is_passed_over, without_newline};
pub use rewrite::{RewriteError, rewrite_lines};
