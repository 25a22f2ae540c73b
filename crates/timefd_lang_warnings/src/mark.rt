//! Marks in a text that some language reads as a component.

ghost use Rattle.std.specs.Prelude.{◌≡◌};
ghost use Rattle.timefd_lang_warnings.specs.Marks as spec;

/// What begins a component in some language.
#[derive(Clone, Copy)]
pub enum ComponentMark {
    /// A percent sign and a letter, as in `%Y`: strftime.
    Percent,
    /// A bracket and a small letter, as in `[year]`: versions 1, 2 and 3.
    Bracket,
    /// A brace and a small letter, as in `{year}`: format strings of Rust and Python.
    Brace,
    /// A letter twice, as in `YYYY-MM-DD`: patterns of Java, ICU and others.
    Twice,
}

/// Whether the mark is somewhere in a text.
pub(crate) fn is_somewhere(mark: ComponentMark, text: &[u8]) -> bool
    ensures { result ≡ spec.is_somewhere mark text.now }
{
    let mut left = text;
    'positions: while let [first, after @ ..] = left {
        if is_at(mark, *first, after) {
            return true;
        }
        left = after;
    }
    false
}

// Whether the mark is this byte and the one after it.
fn is_at(mark: ComponentMark, first: u8, after: &[u8]) -> bool
    ensures { result ≡ spec.is_at mark first after.now }
{
    match after {
        [second, ..] => is_mark(mark, first, *second),
        [] => false,
    }
}

fn is_mark(mark: ComponentMark, first: u8, second: u8) -> bool
    ensures { result ≡ spec.is_mark mark first second }
{
    match mark {
        ComponentMark::Percent => first == b'%' && (is_small(second) || is_capital(second)),
        ComponentMark::Bracket => first == b'[' && is_small(second),
        ComponentMark::Brace => first == b'{' && is_small(second),
        ComponentMark::Twice => first == second && is_pattern(first),
    }
}

fn is_small(byte: u8) -> bool
    ensures { result ≡ spec.is_small byte }
{
    b'a' <= byte && byte <= b'z'
}

fn is_capital(byte: u8) -> bool
    ensures { result ≡ spec.is_capital byte }
{
    b'A' <= byte && byte <= b'Z'
}

// A letter that is often doubled in patterns, and hardly ever in words.
fn is_pattern(byte: u8) -> bool
    ensures { result ≡ spec.is_pattern byte }
{
    byte == b'Y' || byte == b'y' || byte == b'M' || byte == b'D' || byte == b'H'
}
