//! The reply to a text.

ghost use Rattle.std.specs.Prelude.{◌≡◌, ◌≤◌, IfOk, string_bytes};
ghost use Rattle.timefd_parse.specs.Faults.{fault_of};
ghost use Rattle.timefd_parse.specs.Grammar.{nesting_limit};
ghost use Rattle.timefd.specs.Replies.{IsReply, line_of, end_of};
ghost use Rattle.timefd.specs.Line as spec;

use crate::end::RunEnd;
use crate::kind::Kind;
use std::alloc::{AllocError, Global};
use timefd_items::InvalidFormatDescription;
use timefd_parse::{DescriptionVersion, Language, ParseError, amount_all_borrowed};

/// The line that answers a text.
#[derive(Debug, Drop)]
pub enum Reply {
    /// The text is a description: how many items it has, or how many bytes it reserves.
    Accepted(String),
    /// The text isn't a description: the sentence of its fault.
    Refused(String),
}

impl Reply {
    /// The line, with its newline.
    pub fn line(&self) -> &str
        ensures { result.now ≡ line_of self.now }
    {
        match self {
            Reply::Accepted(line) | Reply::Refused(line) => line,
        }
    }

    /// How a run that writes this line ends.
    pub fn end(&self) -> RunEnd
        ensures { result ≡ end_of self.now }
    {
        match self {
            Reply::Accepted(_) => RunEnd::Accepted,
            Reply::Refused(_) => RunEnd::Refused,
        }
    }
}

// The line for an accepted text: how many items it has, or in version 3 how many bytes it reserves.
fn amount_line(alloc: Global, language: Language, count: usize) -> Result<String, AllocError>
    ensures { IfOk result (λ line. string_bytes line ≡ spec.amount_line language count) }
{
    match language {
        Language::Version(DescriptionVersion::Three) => { format!(in alloc; "ok bytes {count}\n") }
        Language::Version(_) | Language::Strftime => format!(in alloc; "ok items {count}\n"),
    }
}

fn fault_line(alloc: Global, fault: &InvalidFormatDescription) -> Result<String, AllocError>
    ensures { IfOk result (λ line. string_bytes line ≡ spec.fault_line (fault_of fault.now)) }
{
    format!(in alloc; "{fault}\n")
}

/// The reply to the text as a description of this kind, with at most `limit` nested descriptions
/// around one another. An `Err` says that memory ran out, and nothing about the text.
pub fn reply_to(alloc: Global, kind: Kind, limit: u8, text: &str) -> Result<Reply, AllocError>
    requires { limit ≤ nesting_limit }
    ensures { IfOk result (IsReply kind limit text.now) }
{
    let language = kind.language();
    match amount_all_borrowed(alloc, language, limit, text) {
        Ok(amount) => Ok(Reply::Accepted(amount_line(alloc, language, amount)?)),
        Err(error) => match error.into_owned(alloc) {
            ParseError::Invalid(fault) => Ok(Reply::Refused(fault_line(alloc, &fault)?)),
            ParseError::Memory(error) => Err(error),
        },
    }
}
