//! The rows of jiff. `tables/write` writes them.

ghost use Rattle.std.specs.Prelude.{◌≡◌};
ghost use Rattle.timefd_lang_dialect.specs.Groups.{keys_of, rows_at};
ghost use Rattle.timefd_lang_dialect.specs.Jiff.{jiff_groups};
ghost use Rattle.timefd_lang_dialect.specs.Rows.{entries};

use crate::reason::Reason;
use crate::row::{NotBefore, Range, Row, Verdict, row};
use crate::tables::jiff_padded::jiff_padded_rows;
use crate::tables::strftime::{
    CAPITAL_A, CAPITAL_B, CAPITAL_D, CAPITAL_F, CAPITAL_G, CAPITAL_H, CAPITAL_I, CAPITAL_M,
    CAPITAL_N, CAPITAL_P, CAPITAL_R, CAPITAL_S, CAPITAL_T, CAPITAL_U, CAPITAL_V, CAPITAL_W,
    CAPITAL_X, CAPITAL_Y, CAPITAL_Z, SMALL_A, SMALL_B, SMALL_D, SMALL_E, SMALL_G, SMALL_H, SMALL_J,
    SMALL_K, SMALL_L, SMALL_M, SMALL_N, SMALL_P, SMALL_Q, SMALL_T, SMALL_U, SMALL_W, SMALL_Y,
    SMALL_Z,
};

/// The rows of the directives with this byte after the `%`, the longest first.
#[tactic(auto, unfolding(crate::specs::Jiff::jiff_groups))]
pub fn jiff_rows(byte: u8) -> &'static [Row]
    ensures { entries result.now ≡ rows_at byte jiff_groups }
{
    match byte {
        b'd' => SMALL_D,
        b'e' => SMALL_E,
        b'H' => CAPITAL_H,
        b'k' => SMALL_K,
        b'I' => CAPITAL_I,
        b'l' => SMALL_L,
        b'j' => SMALL_J,
        b'm' => SMALL_M,
        b'M' => CAPITAL_M,
        b'S' => CAPITAL_S,
        b'U' => CAPITAL_U,
        b'V' => CAPITAL_V,
        b'W' => CAPITAL_W,
        b'y' => SMALL_Y,
        b'g' => SMALL_G,
        b'C' => CAPITAL_C,
        b'Y' => CAPITAL_Y,
        b'G' => CAPITAL_G,
        b'u' => SMALL_U,
        b'w' => SMALL_W,
        b'a' => SMALL_A,
        b'A' => CAPITAL_A,
        b'b' => SMALL_B,
        b'B' => CAPITAL_B,
        b'h' => SMALL_H,
        b'p' => SMALL_P,
        b'P' => CAPITAL_P,
        b'D' => CAPITAL_D,
        b'F' => CAPITAL_F,
        b'R' => CAPITAL_R,
        b'T' => CAPITAL_T,
        b'n' => SMALL_N,
        b't' => SMALL_T,
        b'f' => SMALL_F,
        b'r' => SMALL_R,
        b'N' => CAPITAL_N,
        b's' => SMALL_S,
        b'z' => SMALL_Z,
        b'Z' => CAPITAL_Z,
        b'Q' => CAPITAL_Q,
        b'q' => SMALL_Q,
        b'c' => SMALL_C,
        b'x' => SMALL_X,
        b'X' => CAPITAL_X,
        _ => jiff_padded_rows(byte),
    }
}

/// The bytes that select rows.
#[tactic(auto, unfolding(crate::specs::Jiff::jiff_groups, crate::specs::JiffPadded::jiff_padded, crate::specs::JiffMarked::jiff_marked))]
pub fn jiff_keys() -> &'static [u8]
    ensures { result.now ≡ keys_of jiff_groups }
{
    KEYS
}

const KEYS: &[u8] = b"deHkIljmMSUVWygCYGuwaAbBhpPDFRTntfrNszZQqcxX-_0%123456789.:^#";

const CAPITAL_C: &[Row] = &[row!("%C" => "[year repr:century padding:none]")];

const SMALL_F: &[Row] = &[row!("%f" => "[subsecond]")];

const SMALL_R: &[Row] = &[row!("%r" => "[hour repr:12 padding:none]:[minute]:[second] [period]")];

const SMALL_S: &[Row] = &[row!("%s" => "[unix_timestamp]" within From1970)];

const CAPITAL_Q: &[Row] = &[row!("%Q" refused ZoneName)];

const SMALL_C: &[Row] = &[
    row!("%c" => "[year] M[month] [day padding:none], [weekday repr:short] \
        [hour]:[minute]:[second]"),
];

const SMALL_X: &[Row] = &[row!("%x" => "[year] M[month] [day padding:none]")];
