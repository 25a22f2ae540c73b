//! The whole program, except for the system that it runs in.

ghost use Rattle.std.specs.Prelude.{◌≡◌, ◌≤◌, ◌⊎◌, None, map, string_bytes, IsUtf8, IsTrue, IsFalse};
ghost use Rattle.timefd.specs.Line.{IsOkLine, IsFaultLine};
ghost use Rattle.timefd.specs.Program.{request, Asks};
ghost use Rattle.timefd.specs.Runs.{Answers, EndsAt};

use crate::kind::arguments;
use crate::run::run_within;
use std::alloc::Global;
use timefd_bin_streams::{Sink, Source};

/// The exit status if the arguments ask for nothing that the program does.
pub const WRONG_ARGUMENTS: u8 = 2;

/// Does what the arguments ask for, and returns the exit status of the program. The first argument
/// is the program's name.
pub fn execute<R: Source, W: Sink>(
    alloc: Global,
    args: &[String],
    reader: &mut R,
    writer: &mut W,
) -> u8
    // All bytes are read, and one line about them is written, and nothing else.
    ensures accepted { result ≡ 0 → Asks (map string_bytes args.now) (λ kind limit.
        Answers (IsOkLine kind limit) (R.remaining reader.old) (R.remaining reader.new)
        (W.contents writer.old) (W.contents writer.new)) }
    ensures refused { result ≡ 1 → Asks (map string_bytes args.now) (λ kind limit.
        Answers (IsFaultLine kind limit) (R.remaining reader.old) (R.remaining reader.new)
        (W.contents writer.old) (W.contents writer.new)) }
    ensures written { result ≤ 1
        → IsFalse (R.has_failed reader.new)
        × IsFalse (W.has_failed writer.new) × IsTrue (W.is_flushed writer.new) }

    // Wrong arguments are found before anything is read.
    ensures wrong { result ≡ 2 → request (map string_bytes args.now) ≡ None }
    ensures unread { request (map string_bytes args.now) ≡ None
        → (result ≡ 2) × (reader.new ≡ reader.old) × (writer.new ≡ writer.old) }

    // Memory ran out, the reader or the writer failed, or the bytes aren't UTF-8.
    ensures no_memory { result ≡ 3 → writer.new ≡ writer.old }
    ensures failed { result ≡ 4
        → IsTrue (R.has_failed reader.new) ⊎ IsTrue (W.has_failed writer.new) }
    ensures not_utf8 { result ≡ 5
        → EndsAt (λ bytes. ¬ IsUtf8 bytes) (R.remaining reader.old) (R.remaining reader.new)
        × IsFalse (R.has_failed reader.new) × (writer.new ≡ writer.old) }

    // There is no other status.
    ensures status { result ≤ 5 }
{
    let [_, words @ ..] = args else {
        return WRONG_ARGUMENTS;
    };
    let Some((kind, limit)) = arguments(words) else {
        return WRONG_ARGUMENTS;
    };
    run_within(alloc, kind, limit, reader, writer).status()
}
