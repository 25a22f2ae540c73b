//! The server's messages to an editor.

ghost use Rattle.std.specs.Prelude.{◌≡◌};
ghost use Rattle.timefd_lint_lsp.specs.Replies as spec;

use crate::editor::{Action, Completion, Finding, Hover};
use crate::envelope::Id;

/// Why a request is refused.
#[derive(Clone, Copy, Debug, PartialEq, Eq)]
pub enum RequestRefusal {
    /// It isn't JSON.
    NotJson,
    /// It isn't a request, or the session doesn't allow it at this point.
    InvalidRequest,
    /// The server has no such method.
    UnknownMethod,
    /// The parameters don't fit the method.
    WrongParams,
    /// It comes before `initialize`.
    NotInitialized,
    /// Its content has more than 16 MiB.
    TooLong,
}

/// The answer to a request.
#[derive(Drop)]
pub enum RequestAnswer {
    /// What the server can do.
    Capabilities,
    Nothing,
    Hover(Hover),
    /// What may be written at a position.
    Completion(Completion),
    /// What can be done to the document with this name.
    Actions { uri: String, actions: Vec<Action> },
    Refused(RequestRefusal),
}

/// A message of the server.
#[derive(Drop)]
pub enum ServerMessage {
    /// The answer to the request with this id, or to one whose id isn't known.
    Response {
        id: Option<Id>,
        answer: RequestAnswer,
    },
    /// All that is wrong in a document.
    Findings {
        uri: String,
        findings: Vec<Finding>,
    },
    /// The document isn't checked any more, as its text isn't known after a change.
    Lost {
        uri: String,
    },
}

/// The number of a refusal in JSON-RPC or in the protocol.
pub fn code_of(refusal: RequestRefusal) -> i64
    ensures { result ≡ spec.code_of refusal }
{
    match refusal {
        RequestRefusal::NotJson => -32700,
        RequestRefusal::InvalidRequest | RequestRefusal::TooLong => -32600,
        RequestRefusal::UnknownMethod => -32601,
        RequestRefusal::WrongParams => -32602,
        RequestRefusal::NotInitialized => -32002,
    }
}

/// The refusal as a sentence.
pub fn sentence_of(refusal: RequestRefusal) -> &'static str
    ensures { result.now ≡ spec.sentence_of refusal }
{
    match refusal {
        RequestRefusal::NotJson => "the content isn't JSON",
        RequestRefusal::InvalidRequest => "the content isn't a request that is allowed here",
        RequestRefusal::UnknownMethod => "there is no such method",
        RequestRefusal::WrongParams => "the parameters aren't those of the method",
        RequestRefusal::NotInitialized => "`initialize` has to come first",
        RequestRefusal::TooLong => "the content has more than 16 MiB",
    }
}
