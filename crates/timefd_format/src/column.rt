//! The column to rewrite, as `--csv` names it.

ghost use Rattle.std.specs.Prelude.{◌≡◌, ◌≤◌, IfSome};
ghost use Rattle.timefd_format.specs.Words as spec;

/// A column of a table.
#[derive(Clone, Copy)]
pub enum Column<'a> {
    /// The column after this many others.
    After(usize),
    /// The column that the first record gives this name.
    Named(&'a str),
}

/// The column that a word names, by its number, counted from 1, or by its name. `None` for the
/// number 0.
pub fn column_named<'a>(word: &'a str) -> Option<Column<'a>>
    ensures { result ≡ spec.column_named word.entry }
{
    match number_in(word) {
        Some(number) => Some(Column::After(number.checked_sub(1)?)),
        None => Some(Column::Named(word)),
    }
}

// The number that a word of one to four digits spells.
fn number_in(word: &str) -> Option<usize>
    ensures { result ≡ spec.number_in word.now }
{
    match word.as_bytes() {
        [a] => digit(*a),
        [a, b] => Some(10 * digit(*a)? + digit(*b)?),
        [a, b, c] => Some(100 * digit(*a)? + (10 * digit(*b)? + digit(*c)?)),
        [a, b, c, d] => {
            Some(1000 * digit(*a)? + (100 * digit(*b)? + (10 * digit(*c)? + digit(*d)?)))
        }
        _ => None,
    }
}

// The value of a decimal digit.
fn digit(byte: u8) -> Option<usize>
    ensures exact { result ≡ spec.digit byte }
    ensures small { IfSome result (λ digit. digit ≤ 9) }
{
    match byte {
        b'0'..=b'9' => Some(usize::from(byte - b'0')),
        _ => None,
    }
}
