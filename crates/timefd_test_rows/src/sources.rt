//! What is in a source, of Rust or with keys, and what it is rewritten to.

mod keys;
mod literals;
mod rewriting;
mod shown;
mod tokens;

use crate::fault::RowFault;
use crate::fields::one;
pub use shown::text_of;
use std::alloc::Global;

/// What is asked about a source.
#[derive(Clone, Copy)]
pub enum SourceAsk {
    /// `tokens SOURCE`: its tokens except white space, each as its kind and its text, between bars.
    Tokens,
    /// `descriptions SOURCE`: its descriptions, each as its language and its text, between bars.
    Descriptions,
    /// `versions SOURCE`: where the version of each description is given, a byte index or a word, between
    /// bars.
    Versions,
    /// `literal SOURCE`: the text of its first literal, and the position in the source of each byte of the
    /// text.
    Literal,
    /// `body KIND TEXT`: what to write between the quotes of a literal of that kind, so that it means that
    /// text.
    Body,
    /// `alike SOURCE TEXT`: what to write between the quotes of its first description, so that it means that
    /// text.
    Alike,
    /// `keys FORMAT SOURCE KEY..`: the values of these keys, each as its language and its text, between bars.
    Keys,
    /// `positions FORMAT SOURCE KEY..`: the position in the source of each byte of each value, and last the
    /// position of what closes it.
    Positions,
    /// `key WORD`: the language and the name of a key.
    Key,
    /// `key-fault WORD`: why the word isn't a key.
    KeyFault,
    /// `file-format NAME`: the format of the file with that name.
    FileFormat,
    /// `mended LANGUAGE FIXES TEXT`: a text without its faults, or that it is left as it is.
    Mended,
    /// `rewritten CHANGE SOURCE`: how many descriptions are rewritten, how many are refused, and the new
    /// source.
    Rewritten,
    /// `outcomes CHANGE SOURCE`: what came of each description.
    Outcomes,
}

impl SourceAsk {
    /// The ask that the word names.
    pub fn of_word(word: &str) -> Option<SourceAsk> {
        match word {
            "tokens" => Some(SourceAsk::Tokens),
            "descriptions" => Some(SourceAsk::Descriptions),
            "versions" => Some(SourceAsk::Versions),
            "literal" => Some(SourceAsk::Literal),
            "body" => Some(SourceAsk::Body),
            "alike" => Some(SourceAsk::Alike),
            "keys" => Some(SourceAsk::Keys),
            "places" => Some(SourceAsk::Positions),
            "key" => Some(SourceAsk::Key),
            "key-fault" => Some(SourceAsk::KeyFault),
            "file-format" => Some(SourceAsk::FileFormat),
            "mended" => Some(SourceAsk::Mended),
            "rewritten" => Some(SourceAsk::Rewritten),
            "outcomes" => Some(SourceAsk::Outcomes),
            _ => None,
        }
    }
}

/// The answer to the ask.
pub fn answer(alloc: Global, ask: SourceAsk, fields: &[&str]) -> Result<String, RowFault> {
    match ask {
        SourceAsk::Tokens => tokens::tokens(alloc, one(fields, "SOURCE")?),
        SourceAsk::Descriptions => tokens::descriptions(alloc, one(fields, "SOURCE")?),
        SourceAsk::Versions => tokens::versions(alloc, one(fields, "SOURCE")?),
        SourceAsk::Literal => literals::literal(alloc, one(fields, "SOURCE")?),
        SourceAsk::Body => literals::body(alloc, fields),
        SourceAsk::Alike => literals::alike(alloc, fields),
        SourceAsk::Keys => keys::keys(alloc, fields),
        SourceAsk::Positions => keys::positions(alloc, fields),
        SourceAsk::Key => keys::key(alloc, fields),
        SourceAsk::KeyFault => keys::fault(alloc, fields),
        SourceAsk::FileFormat => keys::file_format(alloc, fields),
        SourceAsk::Mended => rewriting::mended(alloc, fields),
        SourceAsk::Rewritten => rewriting::rewritten(alloc, fields),
        SourceAsk::Outcomes => rewriting::outcomes(alloc, fields),
    }
}
