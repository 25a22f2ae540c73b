//! Parts of a text.

ghost use Rattle.std.specs.Prelude.{◌≡◌, ◌-◌, drop, take};
ghost use Rattle.timefd_lint_drawing.specs.Positions as positions;

/// The bytes of a text from an index on.
pub fn after(text: &[u8], at: usize) -> &[u8]
    ensures { result.now ≡ drop at text.now }
{
    text.get(at..).unwrap_or(&[])
}

/// The bytes of a text from one index to another.
pub fn between(text: &[u8], from: usize, to: usize) -> &[u8]
    ensures { result.now ≡ take (to - from) (drop from text.now) }
{
    let rest = after(text, from);
    rest.get(..to.saturating_sub(from)).unwrap_or(rest)
}

/// What follows the bytes in front of an index. Nothing, if that is inside of a character.
pub fn after_index(text: &str, index: usize) -> &str
    ensures { result.now ≡ positions.after index text.now }
{
    match text.split_at_checked(index) {
        Some((_, rest)) => rest,
        None => "",
    }
}

/// The bytes in front of an index. All of them, if that is inside of a character.
pub fn before_index(text: &str, index: usize) -> &str
    ensures { result.now ≡ positions.front index text.now }
{
    match text.split_at_checked(index) {
        Some((front, _)) => front,
        None => text,
    }
}
