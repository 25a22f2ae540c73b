//! What a key isn't valid with.

ghost use Rattle.std.specs.Prelude.{◌≡◌};
ghost use Rattle.timefd_lang_fault.specs.Slots.{context_of};

/// What refuses a key: a value of another key of the same bracket.
#[derive(Clone, Copy)]
pub enum Refuser {
    /// The month is a number.
    NumericalMonth,
    /// The month is its whole name.
    LongMonth,
    /// The month is its short name.
    ShortMonth,
    /// The weekday is its short name.
    ShortWeekday,
    /// The weekday is its whole name.
    LongWeekday,
    /// The weekday is a number.
    NumericalWeekday,
    /// The year is its last two digits.
    LastTwo,
}

impl Refuser {
    /// The words that end the fault's sentence.
    pub fn context(self) -> &'static str
        ensures { result.now ≡ context_of self }
    {
        match self {
            Refuser::NumericalMonth => "for numerical month",
            Refuser::LongMonth => "for long month",
            Refuser::ShortMonth => "for short month",
            Refuser::ShortWeekday => "for short weekday",
            Refuser::LongWeekday => "for long weekday",
            Refuser::NumericalWeekday => "for numerical weekday",
            Refuser::LastTwo => "when `repr:last_two` is used",
        }
    }
}
