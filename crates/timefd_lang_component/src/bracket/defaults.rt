//! Whether a bracket says what holds by default.

ghost use Rattle.std.specs.Prelude.{◌≡◌};
ghost use Rattle.timefd_lang_component.specs.Bracket.Words as spec;

/// Whether modifiers with the default value of version 3 are written.
#[derive(Clone, Copy)]
pub enum Defaults {
    /// Every modifier is written.
    Written,
    /// A modifier is written if it isn't the default. The range of a year is always written, as version
    /// 2 has another default.
    Omitted,
}

impl Defaults {
    /// The first text if defaults are written, the second if they are omitted.
    pub fn choose(self, written: &'static str, omitted: &'static str) -> &'static str
        ensures { result.now ≡ spec.choose self written.now omitted.now }
    {
        match self {
            Defaults::Written => written,
            Defaults::Omitted => omitted,
        }
    }
}
