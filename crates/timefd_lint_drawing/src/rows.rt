//! Rows of one character, without allocated memory.

ghost use Rattle.std.specs.Prelude.{◌≡◌, codes, decimal, length, IfSome};
ghost use Rattle.std.specs.List.{repeat};

/// A row of `count` spaces, or `None` if the constant has fewer.
#[tactic(auto, using(crate::proofs::RowLemmas::of_spaces))]
pub fn spaces(count: usize) -> Option<&'static str>
    ensures { IfSome result (λ row. row.now ≡ repeat count (codes " ")) }
{
    SPACES.get(..count)
}

/// A row of `count` carets, or `None` if the constant has fewer.
#[tactic(auto, using(crate::proofs::RowLemmas::of_carets))]
pub fn carets(count: usize) -> Option<&'static str>
    ensures { IfSome result (λ row. row.now ≡ repeat count (codes "^")) }
{
    CARETS.get(..count)
}

/// How many decimal digits a number has.
pub fn digit_count(number: u64) -> usize
    ensures { result ≡ length (decimal number) }
{
    let mut left = number;
    let mut count = 1;
    while left >= 10 {
        left /= 10;
        count += 1;
    }
    count
}

const SPACES: &str =
    "                                                                                                ";

const CARETS: &str =
    "^^^^^^^^^^^^^^^^^^^^^^^^^^^^^^^^^^^^^^^^^^^^^^^^^^^^^^^^^^^^^^^^^^^^^^^^^^^^^^^^^^^^^^^^^^^^^^^^";
