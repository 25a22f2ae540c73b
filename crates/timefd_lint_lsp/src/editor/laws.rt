//! What holds for positions, as the contracts of functions that do nothing.

ghost use Rattle.timefd_lint_lsp.specs.Editor.Positions.{RoundTrip};

/// Turning an index into a position and back gives the same index, if it is between two characters and not
/// inside of `\r\n`.
pub fn round_trip()
    ensures { RoundTrip }
{}
