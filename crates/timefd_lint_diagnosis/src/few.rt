//! Whether one edit turns a word into another.

ghost use Rattle.std.specs.Prelude.{◌≡◌, ◌≢◌, true, chars, length, min};
ghost use Rattle.timefd_lint_diagnosis.specs.Edits.{IsFew};
ghost use Rattle.timefd_lint_diagnosis.specs.Few.{IsParted, IsSwap, characters};

// The first character of a text, and what follows it.
#[derive(Clone, Copy)]
struct Parted<'t> {
    first: char,
    after: &'t str,
}

/// How many edits turn the first word into the second: 0, 1, or 2 if it takes more than one.
pub fn few_edits(word: &str, other: &str) -> usize
    ensures { IsFew (chars word.now) (chars other.now) result }
{
    let Some(left) = first_of(word) else {
        return at_most_two(other);
    };
    let Some(right) = first_of(other) else {
        return at_most_two(word);
    };
    if left.first == right.first {
        return few_edits(left.after, right.after);
    }
    unlike_edits(word, left, other, right)
}

// The result of `few_edits` for words that begin with different characters.
fn unlike_edits(word: &str, left: Parted<'_>, other: &str, right: Parted<'_>) -> usize
    requires word { chars word.now ≡ characters left }
    requires other { chars other.now ≡ characters right }
    requires unlike { left.first ≢ right.first }
    ensures { IsFew (chars word.now) (chars other.now) result }
{
    if is_same(left.after, right.after) {
        return 1;
    }
    if is_same(word, right.after) {
        return 1;
    }
    if is_same(left.after, other) {
        return 1;
    }
    if is_swap(left, right) {
        return 1;
    }
    2
}

// Whether the first two characters are swapped, and all else is the same.
fn is_swap(left: Parted<'_>, right: Parted<'_>) -> bool
    ensures yes { result ≡ true → IsSwap (characters left.entry) (characters right.entry) }
    ensures no { IsSwap (characters left.entry) (characters right.entry) → result ≡ true }
{
    let Some(second) = first_of(left.after) else {
        return false;
    };
    let Some(other_second) = first_of(right.after) else {
        return false;
    };
    if left.first != other_second.first {
        return false;
    }
    if second.first != right.first {
        return false;
    }
    is_same(second.after, other_second.after)
}

// Whether two texts have the same characters.
fn is_same(text: &str, other: &str) -> bool
    ensures yes { result ≡ true → chars text.now ≡ chars other.now }
    ensures no { chars text.now ≡ chars other.now → result ≡ true }
{
    text == other
}

// How many characters a text has, two at most.
fn at_most_two(text: &str) -> usize
    ensures { result ≡ min 2 (length (chars text.now)) }
{
    let Some(first) = first_of(text) else {
        return 0;
    };
    match first_of(first.after) {
        Some(_second) => 2,
        None => 1,
    }
}

// The first character and what follows it, if there is one.
fn first_of(text: &str) -> Option<Parted<'_>>
    ensures { IsParted (chars text.now) result }
{
    let mut left = text.chars();
    match left.next() {
        Some(first) => Some(Parted {
            first,
            after: left.as_str(),
        }),
        None => None,
    }
}
