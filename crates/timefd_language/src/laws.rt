//! The laws of the languages. Each law is the contract of a function with an empty body.

ghost use Rattle.timefd_language.specs.Distinct.{DistinctLetters, DistinctWords};
ghost use Rattle.timefd_language.specs.FaultSpans.{FaultsLieBetween, SlotsLack, StrftimeFaultsLieBetween};
ghost use Rattle.timefd_language.specs.Settled.{Settled};
ghost use Rattle.timefd_language.specs.Positions.{PlacedWithin, PlacedBetween, StrftimePlacedBetween};
ghost use Rattle.timefd_language.specs.Laws.{OneAnswer, OneCut, OneReading, Joining, Shift, OneStrftimeAnswer, OneStrftimeCut, StrftimeJoining, StrftimeShift, GreaterLimit, Lifting, ReservesWithin, Recasing, Relaxing, Modernity, StrftimeModernity};

/// A text either spells a list or has a fault, never both, and there is only one such list or fault.
pub fn one_answer()
    ensures { OneAnswer }
{}

/// A text can be cut into pieces in at most one way.
pub fn one_cut()
    ensures { OneCut }
{}

/// Inside of nested descriptions too, each text is pieces and then what stops them, in exactly one
/// way.
pub fn one_reading()
    ensures { OneReading }
{}

/// Two texts that spell items spell, when joined, the items of the first and then those of the
/// second. Literals that meet become one.
pub fn joining()
    ensures { Joining }
{}

/// A fault in what follows a spelled text is shifted by the length of that text.
pub fn shift()
    ensures { Shift }
{}

/// A text of strftime either spells a list or has a fault, never both, and there is only one such
/// list or fault.
pub fn strftime_one_answer()
    ensures { OneStrftimeAnswer }
{}

/// A text of strftime can be cut into pieces in at most one way.
pub fn strftime_one_cut()
    ensures { OneStrftimeCut }
{}

/// Two texts of strftime that spell items spell, when joined, the items of the first and then those
/// of the second. Literals that meet become one.
pub fn strftime_joining()
    ensures { StrftimeJoining }
{}

/// A fault in what follows a spelled text of strftime is shifted by the length of that text.
pub fn strftime_shift()
    ensures { StrftimeShift }
{}

/// What a text spells with one limit, it spells with every greater limit. The same holds of every
/// fault except that a description is nested too deeply.
pub fn greater_limit()
    ensures { GreaterLimit }
{}

/// A text of version 1, once it is rewritten, spells the same in version 2, up to how literals are
/// split.
pub fn lifting()
    ensures { Lifting }
{}

/// A text of version 3 is at least as long as the bytes that it reserves.
pub fn reserves_within()
    ensures { ReservesWithin }
{}

/// In versions 1 and 2 the case of letters in heads makes no difference.
pub fn recasing()
    ensures { Recasing }
{}

/// A text of version 3 without nested descriptions is a text of version 2 too, piece by piece.
pub fn relaxing()
    ensures { Relaxing }
{}

/// All components of a text are modern.
pub fn modernity()
    ensures { Modernity }
{}

/// All components of a text of strftime are modern.
pub fn strftime_modernity()
    ensures { StrftimeModernity }
{}

/// If text follows the construct at fault, the fault stays the same however the text goes on.
pub fn settled()
    ensures { Settled }
{}

/// The index of a fault is in its text, or at its end.
pub fn placed_within()
    ensures { PlacedWithin }
{}

/// The index of a fault is between two characters of its text.
pub fn placed_between()
    ensures { PlacedBetween }
{}

/// The index of a fault of strftime is between two characters of its text.
pub fn strftime_placed_between()
    ensures { StrftimePlacedBetween }
{}

/// No two names, keys of a name or values of a key are the same, even if case is ignored.
pub fn distinct_words()
    ensures { DistinctWords }
{}

/// No letter of strftime is listed twice, so each means one item.
pub fn distinct_letters()
    ensures { DistinctLetters }
{}

/// The bytes at fault lie in the text, and begin and end between two of its characters.
pub fn faults_lie_between()
    ensures { FaultsLieBetween }
{}

/// The bytes at fault of a text of strftime lie in it, and begin and end between two of its characters.
pub fn strftime_faults_lie_between()
    ensures { StrftimeFaultsLieBetween }
{}

/// Where a fault is, none of the words stands that should have been there: no name, no key with its colon,
/// no value.
pub fn slots_lack()
    ensures { SlotsLack }
{}
