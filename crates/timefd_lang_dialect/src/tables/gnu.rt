//! The rows of GNU date. `tables/write` writes them.

ghost use Rattle.std.specs.Prelude.{◌≡◌};
ghost use Rattle.timefd_lang_dialect.specs.Groups.{keys_of, rows_at};
ghost use Rattle.timefd_lang_dialect.specs.Gnu.{gnu_groups};
ghost use Rattle.timefd_lang_dialect.specs.Rows.{entries};

use crate::row::{NotBefore, Range, Row, Verdict, row};
use crate::tables::gnu_padded::gnu_padded_rows;
use crate::tables::strftime::{
    CAPITAL_A, CAPITAL_B, CAPITAL_C, CAPITAL_D, CAPITAL_E, CAPITAL_F, CAPITAL_G, CAPITAL_H,
    CAPITAL_I, CAPITAL_M, CAPITAL_N, CAPITAL_O, CAPITAL_P, CAPITAL_R, CAPITAL_S, CAPITAL_T,
    CAPITAL_U, CAPITAL_V, CAPITAL_W, CAPITAL_X, CAPITAL_Y, CAPITAL_Z, SMALL_A, SMALL_B, SMALL_C,
    SMALL_D, SMALL_E, SMALL_H, SMALL_J, SMALL_K, SMALL_L, SMALL_M, SMALL_N, SMALL_P, SMALL_Q,
    SMALL_R, SMALL_S, SMALL_T, SMALL_U, SMALL_W, SMALL_X, SMALL_Y,
};

/// The rows of the directives with this byte after the `%`, the longest first.
#[tactic(auto, unfolding(crate::specs::Gnu::gnu_groups))]
pub fn gnu_rows(byte: u8) -> &'static [Row]
    ensures { entries result.now ≡ rows_at byte gnu_groups }
{
    match byte {
        b'd' => SMALL_D,
        b'e' => SMALL_E,
        b'H' => CAPITAL_H,
        b'k' => SMALL_K,
        b'I' => CAPITAL_I,
        b'l' => SMALL_L,
        b'j' => SMALL_J,
        b'm' => SMALL_M,
        b'M' => CAPITAL_M,
        b'S' => CAPITAL_S,
        b'U' => CAPITAL_U,
        b'V' => CAPITAL_V,
        b'W' => CAPITAL_W,
        b'y' => SMALL_Y,
        b'g' => SMALL_G,
        b'C' => CAPITAL_C,
        b'Y' => CAPITAL_Y,
        b'G' => CAPITAL_G,
        b'u' => SMALL_U,
        b'w' => SMALL_W,
        b'a' => SMALL_A,
        b'A' => CAPITAL_A,
        b'b' => SMALL_B,
        b'B' => CAPITAL_B,
        b'h' => SMALL_H,
        b'p' => SMALL_P,
        b'P' => CAPITAL_P,
        b'D' => CAPITAL_D,
        b'F' => CAPITAL_F,
        b'r' => SMALL_R,
        b'R' => CAPITAL_R,
        b'T' => CAPITAL_T,
        b'n' => SMALL_N,
        b't' => SMALL_T,
        b'z' => SMALL_Z,
        b's' => SMALL_S,
        b'N' => CAPITAL_N,
        b'Z' => CAPITAL_Z,
        b'q' => SMALL_Q,
        b'E' => CAPITAL_E,
        b'O' => CAPITAL_O,
        b'c' => SMALL_C,
        b'x' => SMALL_X,
        b'X' => CAPITAL_X,
        _ => gnu_padded_rows(byte),
    }
}

/// The bytes that select rows.
#[tactic(auto, unfolding(crate::specs::Gnu::gnu_groups, crate::specs::GnuPadded::gnu_padded, crate::specs::GnuMarked::gnu_marked))]
pub fn gnu_keys() -> &'static [u8]
    ensures { result.now ≡ keys_of gnu_groups }
{
    KEYS
}

const KEYS: &[u8] = b"deHkIljmMSUVWygCYGuwaAbBhpPDFrRTntzsNZqEOcxX-0_%:123456789^#";

const SMALL_G: &[Row] = &[row!("%g" => "[year repr:last_two base:iso_week]")];

const SMALL_Z: &[Row] = &[row!("%z" => "[offset_hour sign:mandatory][offset_minute]")];
