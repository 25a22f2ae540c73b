//! The positions of the keys of a head.

ghost use Rattle.std.specs.Prelude.{◌≡◌, IsFalse, Some, false, is_some};
ghost use Rattle.timefd_parse.specs.Positions as spec;
ghost use Rattle.timefd_parse.specs.Quick.{IsNoted};

use timefd_lang_fault::Key;

/// The position of each key, by its spelling, as the number of bytes from there to the end of the
/// text.
#[derive(Clone, Copy)]
pub struct Positions {
    pub padding: Option<usize>,
    pub trailing_input: Option<usize>,
    pub repr: Option<usize>,
    pub count: Option<usize>,
    pub case_sensitive: Option<usize>,
    pub sign: Option<usize>,
    pub case: Option<usize>,
    pub digits: Option<usize>,
    pub precision: Option<usize>,
    pub one_indexed: Option<usize>,
    pub range: Option<usize>,
    pub base: Option<usize>,
    pub format: Option<usize>,
}

impl Positions {
    #[inline(always)]
    pub fn new() -> Positions
        ensures { result ≡ spec.no_positions }
    {
        Positions {
            padding: None,
            trailing_input: None,
            repr: None,
            count: None,
            case_sensitive: None,
            sign: None,
            case: None,
            digits: None,
            precision: None,
            one_indexed: None,
            range: None,
            base: None,
            format: None,
        }
    }

    /// The position of the key; `None` if the head doesn't have it.
    pub fn of(&self, key: Key) -> Option<usize>
        ensures { result ≡ spec.position self.now key }
    {
        match key {
            Key::Padding => self.padding,
            Key::TrailingInput => self.trailing_input,
            Key::HourRepr
            | Key::MonthRepr
            | Key::WeekdayRepr
            | Key::WeekNumberRepr
            | Key::YearRepr => self.repr,
            Key::Count => self.count,
            Key::CaseSensitive => self.case_sensitive,
            Key::Sign => self.sign,
            Key::Case => self.case,
            Key::Digits => self.digits,
            Key::Precision => self.precision,
            Key::OneIndexed => self.one_indexed,
            Key::Range => self.range,
            Key::Base => self.base,
            Key::Format => self.format,
        }
    }

    /// Sets the position of the key.
    pub fn set(&mut self, key: Key, remaining: usize)
        ensures { self.new ≡ spec.with_position self.old key remaining }
    {
        let position = Some(remaining);
        match key {
            Key::Padding => self.padding = position,
            Key::TrailingInput => self.trailing_input = position,
            Key::HourRepr
            | Key::MonthRepr
            | Key::WeekdayRepr
            | Key::WeekNumberRepr
            | Key::YearRepr => self.repr = position,
            Key::Count => self.count = position,
            Key::CaseSensitive => self.case_sensitive = position,
            Key::Sign => self.sign = position,
            Key::Case => self.case = position,
            Key::Digits => self.digits = position,
            Key::Precision => self.precision = position,
            Key::OneIndexed => self.one_indexed = position,
            Key::Range => self.range = position,
            Key::Base => self.base = position,
            Key::Format => self.format = position,
        }
    }
    /// Sets the position of a key that has none yet. Whether it had one before.
    #[inline(always)]
    pub fn note(&mut self, key: Key, remaining: usize) -> bool
        ensures { IsFalse result → IsNoted self.old key remaining self.new }
    {
        match key {
            Key::Padding => noted(&mut self.padding, remaining),
            Key::TrailingInput => noted(&mut self.trailing_input, remaining),
            Key::HourRepr
            | Key::MonthRepr
            | Key::WeekdayRepr
            | Key::WeekNumberRepr
            | Key::YearRepr => noted(&mut self.repr, remaining),
            Key::Count => noted(&mut self.count, remaining),
            Key::CaseSensitive => noted(&mut self.case_sensitive, remaining),
            Key::Sign => noted(&mut self.sign, remaining),
            Key::Case => noted(&mut self.case, remaining),
            Key::Digits => noted(&mut self.digits, remaining),
            Key::Precision => noted(&mut self.precision, remaining),
            Key::OneIndexed => noted(&mut self.one_indexed, remaining),
            Key::Range => noted(&mut self.range, remaining),
            Key::Base => noted(&mut self.base, remaining),
            Key::Format => noted(&mut self.format, remaining),
        }
    }
}

/// Sets a position if there is none yet. Whether there was one before.
#[inline(always)]
fn noted(position: &mut Option<usize>, remaining: usize) -> bool
    ensures { IsFalse result → (is_some position.old ≡ false) × (position.new ≡ Some remaining) }
{
    if position.is_some() {
        return true;
    }
    *position = Some(remaining);
    false
}
