//! The rows of Python. `tables/write` writes them.

ghost use Rattle.std.specs.Prelude.{◌≡◌};
ghost use Rattle.timefd_lang_dialect.specs.Groups.{keys_of, rows_at};
ghost use Rattle.timefd_lang_dialect.specs.Python.{python_groups};
ghost use Rattle.timefd_lang_dialect.specs.Rows.{entries};

use crate::reason::Reason;
use crate::row::{NotBefore, Range, Row, Verdict, row};
use crate::tables::strftime::{
    CAPITAL_A, CAPITAL_B, CAPITAL_D, CAPITAL_E, CAPITAL_H, CAPITAL_I, CAPITAL_M, CAPITAL_P,
    CAPITAL_R, CAPITAL_S, CAPITAL_T, CAPITAL_U, CAPITAL_V, CAPITAL_W, CAPITAL_X, CAPITAL_Z,
    PERCENT_SIGN, SMALL_A, SMALL_B, SMALL_C, SMALL_D, SMALL_E, SMALL_H, SMALL_J, SMALL_K, SMALL_L,
    SMALL_M, SMALL_N, SMALL_P, SMALL_R, SMALL_T, SMALL_U, SMALL_W, SMALL_X, SMALL_Y, SMALL_Z,
};

/// The rows of the directives with this byte after the `%`, the longest first.
#[tactic(auto, unfolding(crate::specs::Python::python_groups))]
pub fn python_rows(byte: u8) -> &'static [Row]
    ensures { entries result.now ≡ rows_at byte python_groups }
{
    match byte {
        b'd' => SMALL_D,
        b'H' => CAPITAL_H,
        b'I' => CAPITAL_I,
        b'j' => SMALL_J,
        b'm' => SMALL_M,
        b'M' => CAPITAL_M,
        b'S' => CAPITAL_S,
        b'U' => CAPITAL_U,
        b'V' => CAPITAL_V,
        b'W' => CAPITAL_W,
        b'y' => SMALL_Y,
        b'Y' => CAPITAL_Y,
        b'G' => CAPITAL_G,
        b'u' => SMALL_U,
        b'w' => SMALL_W,
        b'a' => SMALL_A,
        b'A' => CAPITAL_A,
        b'b' => SMALL_B,
        b'B' => CAPITAL_B,
        b'p' => SMALL_P,
        b'%' => PERCENT_SIGN,
        b'f' => SMALL_F,
        b'z' => SMALL_Z,
        b':' => COLON,
        b'Z' => CAPITAL_Z,
        b'e' => SMALL_E,
        b'k' => SMALL_K,
        b'l' => SMALL_L,
        b'g' => SMALL_G,
        b'C' => CAPITAL_C,
        b'h' => SMALL_H,
        b'P' => CAPITAL_P,
        b'D' => CAPITAL_D,
        b'F' => CAPITAL_F,
        b'r' => SMALL_R,
        b'R' => CAPITAL_R,
        b'T' => CAPITAL_T,
        b'n' => SMALL_N,
        b't' => SMALL_T,
        b'-' => HYPHEN,
        b'_' => UNDERSCORE,
        b'0' => DIGIT_ZERO,
        b's' => SMALL_S,
        b'^' => CARET,
        b'#' => HASH,
        b'E' => CAPITAL_E,
        b'O' => CAPITAL_O,
        b'c' => SMALL_C,
        b'x' => SMALL_X,
        b'X' => CAPITAL_X,
        _ => &[],
    }
}

/// The bytes that select rows.
#[tactic(auto, unfolding(crate::specs::Python::python_groups))]
pub fn python_keys() -> &'static [u8]
    ensures { result.now ≡ keys_of python_groups }
{
    KEYS
}

const KEYS: &[u8] = b"dHIjmMSUVWyYGuwaAbBp%fz:ZeklgChPDFrRTnt-_0s^#EOcxX";

const CAPITAL_Y: &[Row] = &[row!("%Y" => "[year]" within YearsFrom1000)];

const CAPITAL_G: &[Row] = &[row!("%G" => "[year base:iso_week]" within YearsFrom1000)];

const SMALL_F: &[Row] = &[row!("%f" => "[subsecond digits:6]")];

const COLON: &[Row] = &[row!("%:z" => "[offset_hour \
        sign:mandatory]:[offset_minute]" within WholeMinutes)];

const SMALL_G: &[Row] = &[row!("%g" => "[year repr:last_two base:iso_week]")];

const CAPITAL_C: &[Row] = &[row!("%C" => "[year repr:century]" within YearsFrom1000)];

const CAPITAL_F: &[Row] = &[row!("%F" => "[year]-[month]-[day]" within YearsFrom1000)];

const HYPHEN: &[Row] = &[
    row!("%-d" => "[day padding:none]"),
    row!("%-e" => "[day padding:none]"),
    row!("%-H" => "[hour padding:none]"),
    row!("%-k" => "[hour padding:none]"),
    row!("%-I" => "[hour repr:12 padding:none]"),
    row!("%-l" => "[hour repr:12 padding:none]"),
    row!("%-j" => "[ordinal padding:none]"),
    row!("%-m" => "[month padding:none]"),
    row!("%-M" => "[minute padding:none]"),
    row!("%-S" => "[second padding:none]"),
    row!("%-U" => "[week_number repr:sunday padding:none]"),
    row!("%-V" => "[week_number padding:none]"),
    row!("%-W" => "[week_number repr:monday padding:none]"),
    row!("%-y" => "[year repr:last_two padding:none]"),
    row!("%-g" => "[year repr:last_two base:iso_week padding:none]"),
    row!("%-Y" => "[year padding:none]"),
    row!("%-G" => "[year base:iso_week padding:none]"),
    row!("%-C" => "[year repr:century padding:none]"),
];

const UNDERSCORE: &[Row] = &[
    row!("%_d" => "[day padding:space]"),
    row!("%_e" => "[day padding:space]"),
    row!("%_H" => "[hour padding:space]"),
    row!("%_k" => "[hour padding:space]"),
    row!("%_I" => "[hour repr:12 padding:space]"),
    row!("%_l" => "[hour repr:12 padding:space]"),
    row!("%_j" => "[ordinal padding:space]"),
    row!("%_m" => "[month padding:space]"),
    row!("%_M" => "[minute padding:space]"),
    row!("%_S" => "[second padding:space]"),
    row!("%_U" => "[week_number repr:sunday padding:space]"),
    row!("%_V" => "[week_number padding:space]"),
    row!("%_W" => "[week_number repr:monday padding:space]"),
    row!("%_y" => "[year repr:last_two padding:space]"),
    row!("%_g" => "[year repr:last_two base:iso_week padding:space]"),
];

const DIGIT_ZERO: &[Row] = &[
    row!("%0d" => "[day]"),
    row!("%0e" => "[day]"),
    row!("%0H" => "[hour]"),
    row!("%0k" => "[hour]"),
    row!("%0I" => "[hour repr:12]"),
    row!("%0l" => "[hour repr:12]"),
    row!("%0j" => "[ordinal]"),
    row!("%0m" => "[month]"),
    row!("%0M" => "[minute]"),
    row!("%0S" => "[second]"),
    row!("%0U" => "[week_number repr:sunday]"),
    row!("%0V" => "[week_number]"),
    row!("%0W" => "[week_number repr:monday]"),
    row!("%0y" => "[year repr:last_two]"),
    row!("%0g" => "[year repr:last_two base:iso_week]"),
];

const SMALL_S: &[Row] = &[row!("%s" refused LocalTime)];

const CARET: &[Row] = &[
    row!("%^a" refused Capitals),
    row!("%^A" refused Capitals),
    row!("%^b" refused Capitals),
    row!("%^B" refused Capitals),
    row!("%^h" refused Capitals),
];

const HASH: &[Row] = &[
    row!("%#a" refused Capitals),
    row!("%#A" refused Capitals),
    row!("%#b" refused Capitals),
    row!("%#B" refused Capitals),
    row!("%#d" refused Platform),
    row!("%#m" refused Platform),
    row!("%#H" refused Platform),
    row!("%#I" refused Platform),
    row!("%#j" refused Platform),
    row!("%#M" refused Platform),
    row!("%#S" refused Platform),
    row!("%#y" refused Platform),
    row!("%#Y" refused Platform),
    row!("%#c" refused Platform),
    row!("%#x" refused Platform),
];

const CAPITAL_O: &[Row] = &[
    row!("%Od" => "[day]"),
    row!("%Oe" => "[day padding:space]"),
    row!("%OH" => "[hour]"),
    row!("%OI" => "[hour repr:12]"),
    row!("%Om" => "[month]"),
    row!("%OM" => "[minute]"),
    row!("%OS" => "[second]"),
    row!("%Ou" => "[weekday repr:monday]"),
    row!("%OU" => "[week_number repr:sunday]"),
    row!("%OV" => "[week_number]"),
    row!("%Ow" => "[weekday repr:sunday one_indexed:false]"),
    row!("%OW" => "[week_number repr:monday]"),
    row!("%Oy" => "[year repr:last_two]"),
];
