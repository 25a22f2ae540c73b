//! What a page in a browser shows of a text, as a JSON object.
#![tactic(auto)]

mod accepted;
mod answer;
mod converting;
mod exports;
mod fields;
mod formats;
mod guessing;
mod later;
pub mod laws;
mod nodes;
mod other_exports;
mod reading;
mod records;
mod refused;
mod report;
mod silence;
mod written;

// What is written as JSON is JSON.
pub mod json_laws;

pub use answer::{NO_LANGUAGE, NO_MEMORY, NOT_UTF8, OUT_OF_RANGE, REPORTED, ReportAnswer};
pub use converting::conversion_of;
pub use exports::{timefd_web_read, timefd_web_report};
pub use fields::MomentParts;
pub use formats::format_for;
pub use guessing::guesses_of;
pub use other_exports::{timefd_web_convert, timefd_web_format_for, timefd_web_guess};
pub use reading::reading_of;
pub use records::Record;
pub use report::report_of;
pub use silence::Silence;
