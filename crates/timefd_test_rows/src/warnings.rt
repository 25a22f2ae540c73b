//! What the linter, the editor and the language server report about a text.

mod accepted;
mod editing;
mod ignored;

use crate::fault::RowFault;
use std::alloc::Global;

/// What is asked.
#[derive(Clone, Copy)]
pub enum WarningAsk {
    /// `warned LANGUAGE WARNING TEXT..`: whether each text has the warning.
    Warned,
    /// `elsewhere TEXT`: the language that the text was perhaps written in.
    Elsewhere,
    /// `pattern LINE PATH`: whether the pattern of the line matches files and folders of that path.
    Pattern,
    /// `ignore-line LINE`: whether the line has a pattern, and what the pattern says.
    IgnoreLine,
    /// `ignore-file TEXT`: how many patterns the file has.
    IgnoreFile,
    /// `ignored KIND PATH [FOLDER TEXT]..`: whether files with these texts ignore a file or a folder.
    Ignored,
    /// `position TEXT INDEX`: the line and the UTF-16 unit of a byte.
    Position,
    /// `index TEXT LINE UNIT`: the index of the byte there.
    Index,
    /// `findings SOURCE`: how many there are, and the first.
    Findings,
    /// `actions SOURCE START END`: the titles and the edits of what is offered.
    Actions,
    /// `hover SOURCE INDEX`: the part at a byte, and what is shown about it.
    Hover,
    /// `session INPUT`: how a session ends, and what it writes.
    Session,
}

impl WarningAsk {
    /// The ask that the word names.
    pub fn of_word(word: &str) -> Option<WarningAsk> {
        match word {
            "warned" => Some(WarningAsk::Warned),
            "elsewhere" => Some(WarningAsk::Elsewhere),
            "pattern" => Some(WarningAsk::Pattern),
            "ignore-line" => Some(WarningAsk::IgnoreLine),
            "ignore-file" => Some(WarningAsk::IgnoreFile),
            "ignored" => Some(WarningAsk::Ignored),
            "position" => Some(WarningAsk::Position),
            "index" => Some(WarningAsk::Index),
            "findings" => Some(WarningAsk::Findings),
            "actions" => Some(WarningAsk::Actions),
            "hover" => Some(WarningAsk::Hover),
            "session" => Some(WarningAsk::Session),
            _ => None,
        }
    }
}

/// The answer to the ask.
pub fn answer(alloc: Global, ask: WarningAsk, fields: &[&str]) -> Result<String, RowFault> {
    match ask {
        WarningAsk::Warned => accepted::warned(alloc, fields),
        WarningAsk::Elsewhere => accepted::elsewhere(alloc, fields),
        WarningAsk::Pattern => ignored::pattern(alloc, fields),
        WarningAsk::IgnoreLine => ignored::line(alloc, fields),
        WarningAsk::IgnoreFile => ignored::file(alloc, fields),
        WarningAsk::Ignored => ignored::ignored(alloc, fields),
        WarningAsk::Position => editing::position(alloc, fields),
        WarningAsk::Index => editing::index(alloc, fields),
        WarningAsk::Findings => editing::all_findings(alloc, fields),
        WarningAsk::Actions => editing::all_actions(alloc, fields),
        WarningAsk::Hover => editing::hovered(alloc, fields),
        WarningAsk::Session => editing::session(alloc, fields),
    }
}
