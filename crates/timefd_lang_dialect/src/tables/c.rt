//! The rows of C. `tables/write` writes them.

ghost use Rattle.std.specs.Prelude.{◌≡◌};
ghost use Rattle.timefd_lang_dialect.specs.Groups.{keys_of, rows_at};
ghost use Rattle.timefd_lang_dialect.specs.C.{c_groups};
ghost use Rattle.timefd_lang_dialect.specs.Rows.{entries};

use crate::reason::Reason;
use crate::row::{NotBefore, Range, Row, Verdict, row};
use crate::tables::c_padded::c_padded_rows;
use crate::tables::strftime::{
    CAPITAL_A, CAPITAL_B, CAPITAL_D, CAPITAL_E, CAPITAL_H, CAPITAL_I, CAPITAL_M, CAPITAL_O,
    CAPITAL_P, CAPITAL_R, CAPITAL_S, CAPITAL_T, CAPITAL_U, CAPITAL_V, CAPITAL_W, CAPITAL_X,
    CAPITAL_Z, SMALL_A, SMALL_B, SMALL_C, SMALL_D, SMALL_E, SMALL_G, SMALL_H, SMALL_J, SMALL_K,
    SMALL_L, SMALL_M, SMALL_N, SMALL_P, SMALL_R, SMALL_S, SMALL_T, SMALL_U, SMALL_W, SMALL_X,
    SMALL_Y,
};

/// The rows of the directives with this byte after the `%`, the longest first.
#[tactic(auto, unfolding(crate::specs::C::c_groups))]
pub fn c_rows(byte: u8) -> &'static [Row]
    ensures { entries result.now ≡ rows_at byte c_groups }
{
    match byte {
        b'd' => SMALL_D,
        b'e' => SMALL_E,
        b'H' => CAPITAL_H,
        b'k' => SMALL_K,
        b'I' => CAPITAL_I,
        b'l' => SMALL_L,
        b'j' => SMALL_J,
        b'm' => SMALL_M,
        b'M' => CAPITAL_M,
        b'S' => CAPITAL_S,
        b'U' => CAPITAL_U,
        b'V' => CAPITAL_V,
        b'W' => CAPITAL_W,
        b'y' => SMALL_Y,
        b'g' => SMALL_G,
        b'C' => CAPITAL_C,
        b'Y' => CAPITAL_Y,
        b'G' => CAPITAL_G,
        b'u' => SMALL_U,
        b'w' => SMALL_W,
        b'a' => SMALL_A,
        b'A' => CAPITAL_A,
        b'b' => SMALL_B,
        b'B' => CAPITAL_B,
        b'h' => SMALL_H,
        b'p' => SMALL_P,
        b'P' => CAPITAL_P,
        b'D' => CAPITAL_D,
        b'F' => CAPITAL_F,
        b'r' => SMALL_R,
        b'R' => CAPITAL_R,
        b'T' => CAPITAL_T,
        b'n' => SMALL_N,
        b't' => SMALL_T,
        b'z' => SMALL_Z,
        b's' => SMALL_S,
        b'E' => CAPITAL_E,
        b'O' => CAPITAL_O,
        b'Z' => CAPITAL_Z,
        b'v' => SMALL_V,
        b'f' => SMALL_F,
        b'N' => CAPITAL_N,
        b'L' => CAPITAL_L,
        b'Q' => CAPITAL_Q,
        b'q' => SMALL_Q,
        b'i' => SMALL_I,
        b'J' => CAPITAL_J,
        b'K' => CAPITAL_K,
        b'o' => SMALL_O,
        b'c' => SMALL_C,
        b'x' => SMALL_X,
        b'X' => CAPITAL_X,
        _ => c_padded_rows(byte),
    }
}

/// The bytes that select rows.
#[tactic(auto, unfolding(crate::specs::C::c_groups, crate::specs::CPadded::c_padded, crate::specs::CMarked::c_marked))]
pub fn c_keys() -> &'static [u8]
    ensures { result.now ≡ keys_of c_groups }
{
    KEYS
}

const KEYS: &[u8] = b"deHkIljmMSUVWygCYGuwaAbBhpPDFrRTntzsEOZvfNLQqiJKocxX-_0%^#+423156789";

const CAPITAL_C: &[Row] = &[row!("%C" => "[year repr:century]" within YearsFrom1000)];

const CAPITAL_Y: &[Row] = &[row!("%Y" => "[year]" within YearsFrom1000)];

const CAPITAL_G: &[Row] = &[row!("%G" => "[year base:iso_week]" within YearsFrom1000)];

const CAPITAL_F: &[Row] = &[row!("%F" => "[year]-[month]-[day]" within YearsFrom1000)];

const SMALL_Z: &[Row] = &[row!("%z" => "[offset_hour sign:mandatory][offset_minute]")];

const SMALL_V: &[Row] = &[row!("%v" refused Unsupported)];

const SMALL_F: &[Row] = &[row!("%f" refused Unsupported)];

const CAPITAL_N: &[Row] = &[row!("%N" refused Unsupported)];

const CAPITAL_L: &[Row] = &[row!("%L" refused Unsupported)];

const CAPITAL_Q: &[Row] = &[row!("%Q" refused Unsupported)];

const SMALL_Q: &[Row] = &[row!("%q" refused Unsupported)];

const SMALL_I: &[Row] = &[row!("%i" refused Unsupported)];

const CAPITAL_J: &[Row] = &[row!("%J" refused Unsupported)];

const CAPITAL_K: &[Row] = &[row!("%K" refused Unsupported)];

const SMALL_O: &[Row] = &[row!("%o" refused Unsupported)];
