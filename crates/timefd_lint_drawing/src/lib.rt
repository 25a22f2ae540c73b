//! Writes findings: as a drawing, on one line, as a JSON object, as a GitHub annotation, or as a SARIF
//! result.
#![tactic(auto)]

mod counter;
mod draw;
mod finding;
mod form;
mod github;
pub mod help_text;
mod human;
pub mod json;
pub mod laws;
mod lines;
pub mod people;
mod position;
mod rows;
mod sarif;
mod sentence;
mod severity;
mod short;
pub mod shown;
mod source_line;

pub use counter::{Counter, counted, none_counted};
pub use draw::{Style, drawn, drawn_all, drawn_all_from, note, note_as, part_at, part_end};
pub use finding::{FindingKind, FindingLocation, FindingWords, with_help};
pub use form::{Format, SentenceStyle, drawn_at, push_form_names};
pub use position::{
    Line, Origin, Position, char_position_from, line_of, position_from, position_of,
    reported_position_from,
};
pub use sentence::reported_sentence;
pub use severity::FindingSeverity;
