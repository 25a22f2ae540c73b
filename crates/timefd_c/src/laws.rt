//! What holds for the numbers that C sees.

ghost use Rattle.timefd_c.specs.Numbers.{Numbers};

/// The version, the statuses, the languages and the dialects have the numbers of `examples/timefd.h`.
pub fn numbers()
    ensures { Numbers }
{}
