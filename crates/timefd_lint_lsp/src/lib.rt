//! A language server for the format descriptions in a document: frames on its input, the messages in them,
//! the open documents, and the answers.
#![tactic(auto)]

mod answering;
mod changes;
mod content;
mod documents;
mod envelope;
mod frame;
mod head;
mod length;
mod message;
mod params;
mod reply;
mod reporting;
mod server;
mod session;
mod shown;
mod text;
mod uri;
mod wanted;

// What an editor shows: findings, actions, what hovers, and words that may be written.
pub mod editor;

pub use changes::{DocumentChange, after_all, changes_in};
pub use documents::{Document, DocumentKind, Documents, change, close, kind_of, open};
pub use envelope::{Envelope, Id, envelope_of, text_at};
pub use frame::{MOST_CONTENT, MessageFrame, WriteError, read_frame, write_frame};
pub use message::{EditorRequest, Message, Notification, message_of};
pub use reply::{RequestAnswer, RequestRefusal, ServerMessage, code_of, sentence_of};
pub use server::{EditorSettings, Phase, Server, SessionStep, take, unanswered};
pub use session::{SessionEnd, greet, serve, serve_on};
pub use text::text_of;
pub use uri::path_of;
