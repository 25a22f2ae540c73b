//! Directives of chrono and of jiff that the strftime of `time` doesn't have.

ghost use Rattle.std.specs.Prelude.{◌≡◌};
ghost use Rattle.timefd_lint_scan.specs.Chrono as spec;

/// Whether the text after a `%` begins with the digits of a fraction of a second, without a dot.
fn begins_fraction(text: &[u8]) -> bool
    ensures { result ≡ spec.begins_fraction text.now }
{
    text.starts_with(b"f")
        || text.starts_with(b"3f")
        || text.starts_with(b"6f")
        || text.starts_with(b"9f")
}

/// Whether the text after a `%` begins with the digits of a fraction of a second and a dot before them.
fn begins_dotted(text: &[u8]) -> bool
    ensures { result ≡ spec.begins_dotted text.now }
{
    text.starts_with(b".f")
        || text.starts_with(b".3f")
        || text.starts_with(b".6f")
        || text.starts_with(b".9f")
}

/// Whether the text after a `%` begins with an offset or the name of a zone.
fn begins_zone(text: &[u8]) -> bool
    ensures { result ≡ spec.begins_zone text.now }
{
    text.starts_with(b"Z")
        || text.starts_with(b":z")
        || text.starts_with(b"::z")
        || text.starts_with(b":::z")
        || text.starts_with(b"#z")
}

/// Whether the text after a `%` begins with a date such as `8-Jul-2001`, the quarter, or a whole date and
/// time.
fn begins_date(text: &[u8]) -> bool
    ensures { result ≡ spec.begins_date text.now }
{
    text.starts_with(b"v") || text.starts_with(b"q") || text.starts_with(b"+")
}

/// Whether the text after a `%` begins with a directive of chrono that `time` doesn't have.
fn begins_own(text: &[u8]) -> bool
    ensures { result ≡ spec.begins_own text.now }
{
    begins_fraction(text) || begins_dotted(text) || begins_zone(text) || begins_date(text)
}

/// Whether a strftime string has a directive that chrono's documentation lists and `time` doesn't have. Such
/// a string isn't a description of `time`, and may be right.
pub fn is_of_chrono(text: &[u8]) -> bool
    ensures { result ≡ spec.is_of_chrono text.now }
{
    let mut is_after_percent = false;
    let mut rest = text;
    'bytes: while let [byte, after @ ..] = rest {
        if is_after_percent && begins_own(rest) {
            return true;
        }
        is_after_percent = !is_after_percent && *byte == b'%';
        rest = after;
    }
    false
}

/// Whether the text after a `%` begins with a flag, a width, the digits of a fraction of a second, an offset
/// with colons or a zone of jiff.
fn begins_of_jiff(text: &[u8]) -> bool
    ensures { result ≡ spec.begins_of_jiff text.now }
{
    match text {
        [byte, ..] => b"NQfqv.:Z^#+123456789".contains(byte),
        [] => false,
    }
}

/// Whether a strftime string has a directive that jiff's documentation lists and `time` doesn't have. Such a
/// string isn't a description of `time`, and may be right.
pub fn is_of_jiff(text: &[u8]) -> bool
    ensures { result ≡ spec.is_of_jiff text.now }
{
    let mut is_after_percent = false;
    let mut rest = text;
    'bytes: while let [byte, after @ ..] = rest {
        if is_after_percent && begins_of_jiff(rest) {
            return true;
        }
        is_after_percent = !is_after_percent && *byte == b'%';
        rest = after;
    }
    false
}
