//! The functions for C, and for Rust outside of this workspace. A number names a language.
//!
//! `timefd_judge` and `timefd_check` say what a text is in a language, `timefd_diagnose` says all
//! there is to say of its fault, and `timefd_warnings` reports its warnings. `timefd_v1_to_v2`,
//! `timefd_v2_to_v3` and `timefd_convert` convert a text to another language, and
//! `timefd_convert_format` converts a format of another library to version 3. `timefd_read`,
//! `timefd_read_within` (with a limit on nesting) and `timefd_read_composites` (with one node for
//! each composite letter) write the nodes of a description. `timefd_format`, `timefd_format_within` and
//! `timefd_format_nodes` write a date and time by a description or by such nodes, and
//! `timefd_read_date`, `timefd_read_date_within` and `timefd_read_nodes` read them. `timefd_version` returns the
//! number of this version. `examples/timefd.h` declares all of these.
#![tactic(auto)]

mod answer;
mod composites;
mod conversion;
mod convert_answer;
mod convert_format;
mod date_answer;
mod diagnose;
mod diagnosis;
mod exports;
mod fast;
mod format;
mod format_answer;
mod format_nodes;
pub mod laws;
mod moment;
mod nodes;
mod numbers;
mod read_date;
mod read_nodes;
mod reason_code;
mod verdict;
mod warning_fields;
mod warnings;
mod whole;

pub use answer::{
    ACCEPTED, NO_CONVERSION, NO_MEMORY, NOT_UTF8, REFUSED, ReadAnswer, TextAnswer, UNKNOWN_KIND,
};
pub use composites::timefd_read_composites;
pub use convert_answer::ConvertAnswer;
pub use convert_format::timefd_convert_format;
pub use date_answer::{CONTRADICTION, DATE_NOT_UTF8, DateAnswer, MISSING, UNREAD};
pub use diagnose::timefd_diagnose;
pub use diagnosis::{Diagnosis, FaultFields};
pub use exports::{timefd_check, timefd_convert, timefd_judge, timefd_v1_to_v2, timefd_v2_to_v3};
pub use format::{timefd_format, timefd_format_within};
pub use format_answer::{FormatAnswer, NO_DESCRIPTION, OUT_OF_RANGE, UNSHOWN};
pub use format_nodes::timefd_format_nodes;
pub use moment::MomentFields;
pub use nodes::{VERSION, timefd_read, timefd_read_within, timefd_version};
pub use read_date::{timefd_read_date, timefd_read_date_within};
pub use read_nodes::timefd_read_nodes;
pub use timefd_c_nodes::RawNode;
pub use warning_fields::{WarningFields, WarningsAnswer};
pub use warnings::timefd_warnings;
