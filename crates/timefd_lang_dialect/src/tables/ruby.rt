//! The rows of Ruby. `tables/write` writes them.

ghost use Rattle.std.specs.Prelude.{◌≡◌};
ghost use Rattle.timefd_lang_dialect.specs.Groups.{keys_of, rows_at};
ghost use Rattle.timefd_lang_dialect.specs.Ruby.{ruby_groups};
ghost use Rattle.timefd_lang_dialect.specs.Rows.{entries};

use crate::reason::Reason;
use crate::row::{NotBefore, Range, Row, Verdict, row};
use crate::tables::ruby_padded::ruby_padded_rows;
use crate::tables::strftime::{
    CAPITAL_A, CAPITAL_B, CAPITAL_C, CAPITAL_D, CAPITAL_F, CAPITAL_G, CAPITAL_H, CAPITAL_I,
    CAPITAL_M, CAPITAL_N, CAPITAL_O, CAPITAL_P, CAPITAL_R, CAPITAL_S, CAPITAL_T, CAPITAL_U,
    CAPITAL_V, CAPITAL_W, CAPITAL_X, CAPITAL_Y, CAPITAL_Z, SMALL_A, SMALL_B, SMALL_D, SMALL_E,
    SMALL_G, SMALL_H, SMALL_J, SMALL_K, SMALL_L, SMALL_M, SMALL_N, SMALL_P, SMALL_R, SMALL_S,
    SMALL_T, SMALL_U, SMALL_W, SMALL_X, SMALL_Y,
};

/// The rows of the directives with this byte after the `%`, the longest first.
#[tactic(auto, unfolding(crate::specs::Ruby::ruby_groups))]
pub fn ruby_rows(byte: u8) -> &'static [Row]
    ensures { entries result.now ≡ rows_at byte ruby_groups }
{
    match byte {
        b'd' => SMALL_D,
        b'e' => SMALL_E,
        b'H' => CAPITAL_H,
        b'k' => SMALL_K,
        b'I' => CAPITAL_I,
        b'l' => SMALL_L,
        b'j' => SMALL_J,
        b'm' => SMALL_M,
        b'M' => CAPITAL_M,
        b'S' => CAPITAL_S,
        b'U' => CAPITAL_U,
        b'V' => CAPITAL_V,
        b'W' => CAPITAL_W,
        b'y' => SMALL_Y,
        b'g' => SMALL_G,
        b'C' => CAPITAL_C,
        b'Y' => CAPITAL_Y,
        b'G' => CAPITAL_G,
        b'u' => SMALL_U,
        b'w' => SMALL_W,
        b'a' => SMALL_A,
        b'A' => CAPITAL_A,
        b'b' => SMALL_B,
        b'B' => CAPITAL_B,
        b'h' => SMALL_H,
        b'p' => SMALL_P,
        b'P' => CAPITAL_P,
        b'D' => CAPITAL_D,
        b'F' => CAPITAL_F,
        b'r' => SMALL_R,
        b'R' => CAPITAL_R,
        b'T' => CAPITAL_T,
        b'n' => SMALL_N,
        b't' => SMALL_T,
        b'z' => SMALL_Z,
        b's' => SMALL_S,
        b'L' => CAPITAL_L,
        b'N' => CAPITAL_N,
        b'Z' => CAPITAL_Z,
        b'v' => SMALL_V,
        b'Q' => CAPITAL_Q,
        b'E' => CAPITAL_E,
        b'O' => CAPITAL_O,
        b'c' => SMALL_C,
        b'x' => SMALL_X,
        b'X' => CAPITAL_X,
        _ => ruby_padded_rows(byte),
    }
}

/// The bytes that select rows.
#[tactic(auto, unfolding(crate::specs::Ruby::ruby_groups, crate::specs::RubyPadded::ruby_padded, crate::specs::RubyMarked::ruby_marked))]
pub fn ruby_keys() -> &'static [u8]
    ensures { result.now ≡ keys_of ruby_groups }
{
    KEYS
}

const KEYS: &[u8] = b"deHkIljmMSUVWygCYGuwaAbBhpPDFrRTntzsLNZvQEOcxX0-_%:123456789^#+";

const SMALL_Z: &[Row] = &[row!("%z" => "[offset_hour sign:mandatory][offset_minute]")];

const CAPITAL_L: &[Row] = &[row!("%L" => "[subsecond digits:3]")];

const SMALL_V: &[Row] = &[row!("%v" refused Capitals)];

const CAPITAL_Q: &[Row] = &[row!("%Q" => "[unix_timestamp precision:millisecond]" within From1970)];

const CAPITAL_E: &[Row] = &[
    row!("%Ec" => "[weekday repr:short] [month repr:short] [day padding:space] \
        [hour]:[minute]:[second] [year]"),
    row!("%EC" => "[year repr:century]"),
    row!("%Ex" => "[month]/[day]/[year repr:last_two]"),
    row!("%EX" => "[hour]:[minute]:[second]"),
    row!("%Ey" => "[year repr:last_two]"),
    row!("%EY" => "[year]"),
];

const SMALL_C: &[Row] = &[
    row!("%c" => "[weekday repr:short] [month repr:short] [day padding:space] \
        [hour]:[minute]:[second] [year]"),
];
