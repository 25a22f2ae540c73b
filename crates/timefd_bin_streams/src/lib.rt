//! What the command line programs share: where their bytes come from and go to, the words that they are
//! given, and whether a terminal shows colours. Sources and sinks are traits: a caller that is handed other
//! readers and writers is proved with the same contracts.
#![tactic(auto)]

mod buffered;
mod color;
mod condition;
mod in_memory;
mod sink;
mod source;
pub mod transfer;
mod words;

pub use buffered::{BufferedError, BufferedSource, FromBufReader};
pub use color::{Environment, Variables, shows_colors};
pub use in_memory::InMemory;
pub use sink::{Sink, ToWriter};
pub use source::{Failed, FromReader, Source};
pub use words::{WordsError, borrowed, words_of};
