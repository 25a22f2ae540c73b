//! The options of the linter: what the arguments after the program's name ask for.
#![tactic(auto)]

mod asked;
mod conflict;
mod error;
mod flags;
mod keys;
mod names;
mod order;
mod settings;
mod suggestion;
mod valued;
mod values;
mod word;
mod wording;

// The settings of a project, in `.timefd.toml`.
pub mod config;

pub use asked::{AskedRun, Options, options_of};
pub use conflict::lines_conflict;
pub use error::{Conflict, OptionError};
pub use keys::keys_of;
pub use order::ordered;
pub use settings::{Color, RunSettings, reads_lines, target};
pub use suggestion::nearest_option;
pub use word::{Flag, Valued, is_input};
pub use wording::LineLanguage;
