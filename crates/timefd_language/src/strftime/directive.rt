//! A directive of strftime: `%`, an optional flag and a letter.

ghost use Rattle.std.specs.Prelude.{None, ◌≡◌, ◌+◌, ◌<◌, ◌∷◌, length, slice_index};
ghost use Rattle.timefd_language.specs.Directives.LetterMeaning.{flag_padding, letter_tree};
ghost use Rattle.timefd_language.specs.Directives.PieceMeaning.{piece_tree};
ghost use Rattle.timefd_language.specs.Letters.{Flag};
ghost use Rattle.timefd_lang_fault.specs.Words.{expected_escape};
ghost use Rattle.timefd_lang_fault.specs.RuleKinds.{rule_kind};
ghost use Rattle.timefd_lang_fault.specs.Slots.{wanted_by};
ghost use Rattle.timefd_language.specs.Strftime.{cut_index, flag_text, percent, unknown_kind};
ghost use Rattle.timefd_language.specs.Directives.StrftimeReading.{ReadsDirective};

use crate::strftime::letter::{Letter, letter_of, padded};
use crate::strftime::piece::StrftimePiece;
use crate::strftime::text::cut_flag;
use crate::text::{first_len, tail};
use timefd_lang_fault::{Fault, Rule};
use timefd_modifier::Padding;

/// A directive, and what follows it. `after` is the text after its `%`.
#[inline(always)]
pub fn directive<'a>(after: &'a str) -> Result<(StrftimePiece<'a>, &'a str), Fault<'a>>
    ensures { ReadsDirective (percent ∷ after.now) result }
{
    let (padding, text) = cut_flag(after);
    let [byte, ..] = text.as_bytes() else {
        return Err(cut_short(padding));
    };
    match letter_of(*byte) {
        Some(letter) => Ok((piece(letter, padding), tail(text))),
        None => Err(Fault {
            rule: unknown(text),
            remaining: text.len(),
            len: first_len(text),
        }),
    }
}

/// The fault of a text that ends before a letter: it is at the `%`, or right after the flag.
pub fn cut_short<'a>(padding: Option<Padding>) -> Fault<'a>
    ensures kind { rule_kind result.rule ≡ expected_escape }
    ensures position { (f : Flag) → flag_padding f ≡ padding
        → cut_index f + result.remaining ≡ 1 + length (flag_text f) }
    ensures len { result.len ≡ result.remaining }
    ensures wanted { wanted_by result.rule ≡ None }
{
    let remaining = match padding {
        Some(_) => 0,
        None => 1,
    };
    Fault {
        rule: Rule::InvalidEscape,
        remaining,
        len: remaining,
    }
}

/// What a letter stands for, with the padding that a flag asks for.
#[inline(always)]
fn piece<'a>(letter: Letter, padding: Option<Padding>) -> StrftimePiece<'a>
    ensures { (f : Flag) → flag_padding f ≡ padding → piece_tree result ≡ letter_tree letter f }
{
    match letter {
        Letter::Percent => StrftimePiece::Literal("%"),
        Letter::LineFeed => StrftimePiece::Literal("\n"),
        Letter::Tab => StrftimePiece::Literal("\t"),
        Letter::Fixed(component) => StrftimePiece::Component(component),
        Letter::Padded(field, usual) => {
            StrftimePiece::Component(padded(field, padding.unwrap_or(usual)))
        }
        Letter::Composite(composite) => StrftimePiece::Composite(composite),
    }
}

/// The rule that a text breaks, if it doesn't begin with a letter that strftime reads, but needs
/// one.
pub fn unknown(text: &str) -> Rule<'_>
    requires { 0 < length text.now }
    ensures kind { rule_kind result ≡ unknown_kind (slice_index text.now 0) }
    ensures wanted { wanted_by result ≡ None }
{
    let first = text.as_bytes()[0];
    match first {
        b'O' => Rule::UnsupportedFlag,
        b'Z' => Rule::UnsupportedLetter,
        byte if byte.is_ascii() => Rule::UnknownLetter(text.split_at(1).0),
        _ => Rule::UnknownLetter("\u{FFFD}"),
    }
}
