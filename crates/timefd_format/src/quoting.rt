//! The quotes of comma-separated values.

ghost use Rattle.std.specs.Prelude.{◌≡◌, [], ◌∷◌, IfSome, if◌then◌else◌};
ghost use Rattle.timefd_format.specs.Fields as spec;

use crate::fast::plain::has_quote;

/// Where a byte is in its field.
#[derive(Clone, Copy)]
pub enum FieldQuoting {
    /// At its start.
    Start,
    /// After its start, not in quotes.
    Bare,
    /// In quotes.
    Inside,
    /// After a quote within quotes, which closes them or is the first of two.
    Closed,
}

impl FieldQuoting {
    /// The state after one more byte.
    pub fn after(self, byte: u8) -> FieldQuoting
        ensures { result ≡ spec.after self byte }
    {
        match self {
            FieldQuoting::Start => after_first(byte),
            FieldQuoting::Bare => bare_after(byte),
            FieldQuoting::Inside => after_inner(byte),
            FieldQuoting::Closed => after_quote(byte),
        }
    }

    /// Whether this byte is a comma that ends the field.
    pub fn ends_field(self, byte: u8) -> bool
        ensures { result ≡ spec.ends_field self byte }
    {
        match self {
            FieldQuoting::Start | FieldQuoting::Bare | FieldQuoting::Closed => byte == b',',
            FieldQuoting::Inside => false,
        }
    }

    /// Whether this byte belongs to the text of the field, and isn't a quote that opens or closes
    /// it.
    pub fn shows(self, byte: u8) -> bool
        ensures { spec.shown self byte ≡ if result then byte ∷ [] else [] }
    {
        match self {
            FieldQuoting::Start | FieldQuoting::Inside => byte != b'"',
            FieldQuoting::Bare | FieldQuoting::Closed => true,
        }
    }

    /// Whether the quotes are open.
    pub fn is_inside(self) -> bool
        ensures { result ≡ spec.is_inside self }
    {
        match self {
            FieldQuoting::Inside => true,
            FieldQuoting::Start | FieldQuoting::Bare | FieldQuoting::Closed => false,
        }
    }

    /// The state after these bytes.
    pub fn after_all(self, bytes: &[u8]) -> FieldQuoting
        ensures { result ≡ spec.after_all self bytes.now }
    {
        match self.after_plain(bytes) {
            Some(quoting) => quoting,
            None => self.after_each(bytes),
        }
    }

    // The state after bytes without a quote, outside of quotes. `None` says nothing about the bytes.
    #[tactic(auto, using(crate::proofs::PlainLemmas::after_start, crate::proofs::PlainLemmas::after_bare))]
    fn after_plain(self, bytes: &[u8]) -> Option<FieldQuoting>
        ensures { IfSome result (λ quoting. quoting ≡ spec.after_all self bytes.now) }
    {
        if bytes.is_empty() || has_quote(bytes) {
            return None;
        }
        let last = bytes[bytes.len() - 1];
        match self {
            FieldQuoting::Start => Some(bare_after(last)),
            FieldQuoting::Bare => Some(bare_after(last)),
            FieldQuoting::Inside | FieldQuoting::Closed => None,
        }
    }

    // The state after these bytes, found byte by byte.
    #[tactic(auto, using(crate::proofs::FieldLemmas::nothing))]
    fn after_each(self, bytes: &[u8]) -> FieldQuoting
        ensures { result ≡ spec.after_all self bytes.now }
    {
        let mut quoting = self;
        let mut rest = bytes;
        'bytes: while let [byte, more @ ..] = rest {
            quoting = quoting.after(*byte);
            rest = more;
        }
        quoting
    }
}

fn after_first(byte: u8) -> FieldQuoting
    ensures { result ≡ spec.after FieldQuoting.Start byte }
{
    if byte == b'"' {
        FieldQuoting::Inside
    } else {
        bare_after(byte)
    }
}

fn after_inner(byte: u8) -> FieldQuoting
    ensures { result ≡ spec.after FieldQuoting.Inside byte }
{
    if byte == b'"' {
        FieldQuoting::Closed
    } else {
        FieldQuoting::Inside
    }
}

fn after_quote(byte: u8) -> FieldQuoting
    ensures { result ≡ spec.after FieldQuoting.Closed byte }
{
    if byte == b'"' {
        FieldQuoting::Inside
    } else {
        bare_after(byte)
    }
}

// The state after a byte outside of quotes.
fn bare_after(byte: u8) -> FieldQuoting
    ensures { result ≡ spec.bare_after byte }
{
    if byte == b',' {
        FieldQuoting::Start
    } else {
        FieldQuoting::Bare
    }
}
