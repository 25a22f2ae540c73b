//! What the linter reports about a Rust source or a file with keys: about each description in it, at its
//! position.
#![tactic(auto)]

mod accepted;
mod allowed;
mod at_call;
mod at_word;
mod codes;
mod cut;
mod drawn;
mod item;
mod judged;
mod judgement;
mod judging;
mod language;
mod left;
mod no_code;
mod opening;
mod other;
mod placed;
mod refusing;
mod remark;
mod reported;
mod search;
mod source;

// Comments that allow errors and warnings.
pub mod allowances;

// Sources with mended or converted descriptions.
pub mod rewriting;

pub use accepted::tree_with_warnings;
pub use allowed::is_allowed;
pub use codes::{Coded, push_codes};
pub use judged::holds_item;
pub use judgement::{RefusedParts, TextJudgement, TextPlace, levels_of, place_of};
pub use judging::judge;
pub use language::{is_passed_over, language_of, other_of};
pub use left::Left;
pub use no_code::{NO_CODE, NoCode, sentence_on};
pub use opening::is_of_item;
pub use remark::{NO_LANGUAGE, NO_LANGUAGE_SENTENCE, Remark, index_of_remark, word_at};
pub use reported::{FIRST_LINE, Finder, ItemEnd, Reported, Reporting, SourceText};
pub use source::{
    Judged, Report, descriptions_in, judged_in, judged_with_remarks, lint_source, report_all,
};
