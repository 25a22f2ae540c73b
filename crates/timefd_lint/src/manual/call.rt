//! The calls that take a description and have no number for its version.

ghost use Rattle.std.specs.Prelude.{◌≡◌, take};
ghost use Rattle.timefd_lint.specs.Manual.Calls as spec;

/// A call that takes a description without a number for its version.
#[derive(Clone, Copy)]
pub enum UnversionedCall {
    Parse,
    ParseBorrowed,
    ParseOwned,
}

impl UnversionedCall {
    pub fn name(self) -> &'static str
        ensures { result.now ≡ spec.name self }
    {
        match self {
            UnversionedCall::Parse => "parse",
            UnversionedCall::ParseBorrowed => "parse_borrowed",
            UnversionedCall::ParseOwned => "parse_owned",
        }
    }

    /// The name of the call that does the same, and takes a number.
    pub fn numbered(self) -> &'static str
        ensures { result.now ≡ spec.numbered self }
    {
        match self {
            UnversionedCall::Parse | UnversionedCall::ParseBorrowed => "parse_borrowed",
            UnversionedCall::ParseOwned => "parse_owned",
        }
    }
}

/// The call whose opening bracket comes right before a position, white space aside. `None` if it is none of
/// these.
pub fn call_before(source: &[u8], at: usize) -> Option<UnversionedCall>
    ensures { result ≡ spec.call_before source.now at }
{
    call_opened(trimmed(front(source, at)))
}

// What comes before a position.
fn front(source: &[u8], at: usize) -> &[u8]
    ensures { result.now ≡ take at source.now }
{
    if at < source.len() {
        &source[..at]
    } else {
        source
    }
}

// A text without the white space at its end.
fn trimmed(text: &[u8]) -> &[u8]
    ensures { result.now ≡ spec.trimmed text.now }
{
    text.trim_ascii_end()
}

// The call whose opening bracket ends a text.
fn call_opened(text: &[u8]) -> Option<UnversionedCall>
    ensures { result ≡ spec.call_opened text.now }
{
    if text.ends_with(b"(") {
        call_named(trimmed(&text[..text.len() - 1]))
    } else {
        None
    }
}

// The call whose name ends a text.
fn call_named(text: &[u8]) -> Option<UnversionedCall>
    ensures { result ≡ spec.call_named text.now }
{
    if text.ends_with(b"parse_borrowed") {
        Some(UnversionedCall::ParseBorrowed)
    } else if text.ends_with(b"parse_owned") {
        Some(UnversionedCall::ParseOwned)
    } else if text.ends_with(b"parse") {
        Some(UnversionedCall::Parse)
    } else {
        None
    }
}
