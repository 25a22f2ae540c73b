//! Classes of bytes.

ghost use Rattle.std.specs.Prelude.{◌≡◌};
ghost use Rattle.timefd_lint_files.specs.Matching as spec;

/// A range of bytes. A single byte is the range from itself to itself.
#[derive(Clone, Copy, Debug, PartialEq, Eq)]
pub struct ByteRange {
    pub first: u8,
    /// If it is less than `first`, the range has `first` alone.
    pub last: u8,
}

/// A class of bytes, as `[a-z]`.
#[derive(Debug, PartialEq, Eq, Drop)]
pub struct ByteClass {
    /// Whether the class has the bytes outside its ranges instead.
    pub is_negated: bool,
    pub ranges: Vec<ByteRange>,
}

impl ByteRange {
    /// Whether the range has a byte.
    fn has(self, byte: u8) -> bool
        ensures { result ≡ spec.is_within self byte }
    {
        byte == self.first || (self.first <= byte && byte <= self.last)
    }
}

/// Whether one of the ranges has a byte.
fn is_within_any(ranges: &[ByteRange], byte: u8) -> bool
    ensures { result ≡ spec.is_within_any ranges.now byte }
{
    for range in ranges {
        if range.has(byte) {
            return true;
        }
    }
    false
}

impl ByteClass {
    /// Whether the class has a byte.
    pub fn has(&self, byte: u8) -> bool
        ensures { result ≡ spec.has self.now byte }
    {
        is_within_any(&self.ranges, byte) != self.is_negated
    }
}
