//! Whether the argument of a `format` may be a date format: other libraries have methods with that name too.

ghost use Rattle.std.specs.Prelude.{◌≡◌};
ghost use Rattle.timefd_lint_scan.specs.Dates as spec;

/// Letters that mean a part of a date or a time in chrono, and nothing in `printf`.
fn is_date_letter(byte: u8) -> bool
    ensures { result ≡ spec.is_date_letter byte }
{
    b"YyCmbBhHIMSjDTRklPUWVwvrzZ".contains(&byte)
}

fn is_flag(byte: u8) -> bool
    ensures { result ≡ spec.is_flag byte }
{
    b"-_0#".contains(&byte)
}

/// The text after a `%` without its flag.
fn after_flag(text: &[u8]) -> &[u8]
    ensures { result.now ≡ spec.after_flag text.now }
{
    match text {
        [byte, after @ ..] if is_flag(*byte) => after,
        _ => text,
    }
}

/// Whether the text after a `%` and a flag begins with a part of a date.
fn begins_part(text: &[u8]) -> bool
    ensures { result ≡ spec.begins_part text.now }
{
    match text {
        [byte, ..] => is_date_letter(*byte),
        [] => false,
    }
}

/// Bytes that may follow a `%` in a date format: letters that chrono has or that neither it nor `printf` has,
/// `%`, `+` and `:`.
fn is_taken(byte: u8) -> bool
    ensures { result ≡ spec.is_taken byte }
{
    b"abcdefghjklmnpqrstuvwxyzABCDFGHIJKLMNOPQRSTUVWXYZ%+:".contains(&byte)
}

/// Whether the text after a `%` and a flag begins with a byte that a date format doesn't have there: a space,
/// a digit, a dot.
fn begins_other(text: &[u8]) -> bool
    ensures { result ≡ spec.begins_other text.now }
{
    match text {
        [byte, ..] => !is_taken(*byte),
        [] => false,
    }
}

/// Whether a text has a part of a date after a `%`.
fn has_part(text: &[u8]) -> bool
    ensures { result ≡ spec.has_part text.now }
{
    let mut is_after_percent = false;
    let mut rest = text;
    'bytes: while let [byte, after @ ..] = rest {
        if is_after_percent && begins_part(after_flag(rest)) {
            return true;
        }
        is_after_percent = !is_after_percent && *byte == b'%';
        rest = after;
    }
    false
}

/// Whether a text has a `%` that a date format can't have.
fn has_other(text: &[u8]) -> bool
    ensures { result ≡ spec.has_other text.now }
{
    let mut is_after_percent = false;
    let mut rest = text;
    'bytes: while let [byte, after @ ..] = rest {
        if is_after_percent && begins_other(after_flag(rest)) {
            return true;
        }
        is_after_percent = !is_after_percent && *byte == b'%';
        rest = after;
    }
    false
}

/// Whether a text may be a date format: it has a `%`, and either a part of a date, or no `%` that a date
/// format can't have. `100% sure`, `%5.2f` and `%i` aren't date formats. A `%` at the end is allowed: it is a
/// directive that isn't finished.
pub fn is_of_dates(text: &[u8]) -> bool
    ensures { result ≡ spec.is_of_dates text.now }
{
    text.contains(&b'%') && (has_part(text) || !has_other(text))
}
