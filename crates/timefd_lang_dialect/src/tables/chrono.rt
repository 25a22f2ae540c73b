//! The rows of chrono. `tables/write` writes them.

ghost use Rattle.std.specs.Prelude.{◌≡◌};
ghost use Rattle.timefd_lang_dialect.specs.Groups.{keys_of, rows_at};
ghost use Rattle.timefd_lang_dialect.specs.Chrono.{chrono_groups};
ghost use Rattle.timefd_lang_dialect.specs.Rows.{entries};

use crate::reason::Reason;
use crate::row::{NotBefore, Range, Row, Verdict, row};
use crate::tables::strftime::{
    CAPITAL_A, CAPITAL_B, CAPITAL_C, CAPITAL_D, CAPITAL_F, CAPITAL_G, CAPITAL_H, CAPITAL_I,
    CAPITAL_M, CAPITAL_P, CAPITAL_R, CAPITAL_S, CAPITAL_T, CAPITAL_U, CAPITAL_V, CAPITAL_W,
    CAPITAL_X, CAPITAL_Y, CAPITAL_Z, PERCENT_SIGN, SMALL_A, SMALL_B, SMALL_D, SMALL_E, SMALL_G,
    SMALL_H, SMALL_J, SMALL_K, SMALL_L, SMALL_M, SMALL_N, SMALL_P, SMALL_R, SMALL_S, SMALL_T,
    SMALL_U, SMALL_W, SMALL_X, SMALL_Y, SMALL_Z,
};

/// The rows of the directives with this byte after the `%`, the longest first.
#[tactic(auto, unfolding(crate::specs::Chrono::chrono_groups))]
pub fn chrono_rows(byte: u8) -> &'static [Row]
    ensures { entries result.now ≡ rows_at byte chrono_groups }
{
    match byte {
        b'd' => SMALL_D,
        b'e' => SMALL_E,
        b'H' => CAPITAL_H,
        b'k' => SMALL_K,
        b'I' => CAPITAL_I,
        b'l' => SMALL_L,
        b'j' => SMALL_J,
        b'm' => SMALL_M,
        b'M' => CAPITAL_M,
        b'S' => CAPITAL_S,
        b'U' => CAPITAL_U,
        b'V' => CAPITAL_V,
        b'W' => CAPITAL_W,
        b'y' => SMALL_Y,
        b'g' => SMALL_G,
        b'C' => CAPITAL_C,
        b'Y' => CAPITAL_Y,
        b'G' => CAPITAL_G,
        b'u' => SMALL_U,
        b'w' => SMALL_W,
        b'a' => SMALL_A,
        b'A' => CAPITAL_A,
        b'b' => SMALL_B,
        b'B' => CAPITAL_B,
        b'h' => SMALL_H,
        b'p' => SMALL_P,
        b'P' => CAPITAL_P,
        b'D' => CAPITAL_D,
        b'F' => CAPITAL_F,
        b'r' => SMALL_R,
        b'R' => CAPITAL_R,
        b'T' => CAPITAL_T,
        b'%' => PERCENT_SIGN,
        b'n' => SMALL_N,
        b't' => SMALL_T,
        b'f' => SMALL_F,
        b'v' => SMALL_V,
        b's' => SMALL_S,
        b'-' => HYPHEN,
        b'3' => DIGIT_THREE,
        b'6' => DIGIT_SIX,
        b'9' => DIGIT_NINE,
        b'.' => DOT,
        b'0' => DIGIT_ZERO,
        b'z' => SMALL_Z,
        b':' => COLON,
        b'+' => PLUS_SIGN,
        b'_' => UNDERSCORE,
        b'Z' => CAPITAL_Z,
        b'#' => HASH,
        b'c' => SMALL_C,
        b'x' => SMALL_X,
        b'X' => CAPITAL_X,
        _ => &[],
    }
}

/// The bytes that select rows.
#[tactic(auto, unfolding(crate::specs::Chrono::chrono_groups))]
pub fn chrono_keys() -> &'static [u8]
    ensures { result.now ≡ keys_of chrono_groups }
{
    KEYS
}

const KEYS: &[u8] = b"deHkIljmMSUVWygCYGuwaAbBhpPDFrRT%ntfvs-369.0z:+_Z#cxX";

const SMALL_F: &[Row] = &[row!("%f" => "[subsecond digits:9]")];

const SMALL_V: &[Row] = &[row!("%v" => "[day padding:space]-[month repr:short]-[year]")];

const HYPHEN: &[Row] = &[
    row!("%-s" => "[unix_timestamp]"),
    row!("%-f" refused VariableWidth),
    row!("%-d" => "[day padding:none]"),
    row!("%-e" => "[day padding:none]"),
    row!("%-H" => "[hour padding:none]"),
    row!("%-k" => "[hour padding:none]"),
    row!("%-I" => "[hour repr:12 padding:none]"),
    row!("%-l" => "[hour repr:12 padding:none]"),
    row!("%-j" => "[ordinal padding:none]"),
    row!("%-m" => "[month padding:none]"),
    row!("%-M" => "[minute padding:none]"),
    row!("%-S" => "[second padding:none]"),
    row!("%-U" => "[week_number repr:sunday padding:none]"),
    row!("%-V" => "[week_number padding:none]"),
    row!("%-W" => "[week_number repr:monday padding:none]"),
    row!("%-y" => "[year repr:last_two padding:none]"),
    row!("%-g" => "[year repr:last_two base:iso_week \
        padding:none]" within YearsFrom1),
    row!("%-C" => "[year repr:century padding:none]"),
    row!("%-Y" => "[year padding:none]"),
    row!("%-G" => "[year base:iso_week padding:none]" within YearsFrom1),
    row!("%-u" => "[weekday repr:monday]"),
    row!("%-w" => "[weekday repr:sunday one_indexed:false]"),
    row!("%-" refused Flag),
];

const DIGIT_THREE: &[Row] = &[row!("%3f" => "[subsecond digits:3]")];

const DIGIT_SIX: &[Row] = &[row!("%6f" => "[subsecond digits:6]")];

const DIGIT_NINE: &[Row] = &[row!("%9f" => "[subsecond digits:9]")];

const DOT: &[Row] = &[
    row!("%.3f" => ".[subsecond digits:3]"),
    row!("%.6f" => ".[subsecond digits:6]"),
    row!("%.9f" => ".[subsecond digits:9]"),
    row!("%.f" refused VariableFraction),
];

const DIGIT_ZERO: &[Row] = &[
    row!("%0f" => "[subsecond digits:9]"),
    row!("%0s" refused VariableWidth),
    row!("%0d" => "[day]"),
    row!("%0e" => "[day]"),
    row!("%0H" => "[hour]"),
    row!("%0k" => "[hour]"),
    row!("%0I" => "[hour repr:12]"),
    row!("%0l" => "[hour repr:12]"),
    row!("%0j" => "[ordinal]"),
    row!("%0m" => "[month]"),
    row!("%0M" => "[minute]"),
    row!("%0S" => "[second]"),
    row!("%0U" => "[week_number repr:sunday]"),
    row!("%0V" => "[week_number]"),
    row!("%0W" => "[week_number repr:monday]"),
    row!("%0y" => "[year repr:last_two]"),
    row!("%0g" => "[year repr:last_two base:iso_week]" within YearsFrom1),
    row!("%0C" => "[year repr:century]"),
    row!("%0Y" => "[year]"),
    row!("%0G" => "[year base:iso_week]" within YearsFrom1),
    row!("%0u" => "[weekday repr:monday]"),
    row!("%0w" => "[weekday repr:sunday one_indexed:false]"),
    row!("%0" refused Flag),
];

const COLON: &[Row] = &[
    row!("%:::z" => "[offset_hour sign:mandatory]"),
    row!("%::z" => "[offset_hour sign:mandatory]:[offset_minute]:[offset_second]"),
    row!("%:z" => "[offset_hour \
        sign:mandatory]:[offset_minute]" within WholeMinutes),
];

const PLUS_SIGN: &[Row] = &[row!("%+" refused VariableFraction)];

const UNDERSCORE: &[Row] = &[
    row!("%_f" refused VariableWidth),
    row!("%_s" refused VariableWidth),
    row!("%_d" => "[day padding:space]"),
    row!("%_e" => "[day padding:space]"),
    row!("%_H" => "[hour padding:space]"),
    row!("%_k" => "[hour padding:space]"),
    row!("%_I" => "[hour repr:12 padding:space]"),
    row!("%_l" => "[hour repr:12 padding:space]"),
    row!("%_j" => "[ordinal padding:space]"),
    row!("%_m" => "[month padding:space]"),
    row!("%_M" => "[minute padding:space]"),
    row!("%_S" => "[second padding:space]"),
    row!("%_U" => "[week_number repr:sunday padding:space]"),
    row!("%_V" => "[week_number padding:space]"),
    row!("%_W" => "[week_number repr:monday padding:space]"),
    row!("%_y" => "[year repr:last_two padding:space]"),
    row!("%_g" => "[year repr:last_two base:iso_week \
        padding:space]" within YearsFrom1),
    row!("%_C" => "[year repr:century padding:space]"),
    row!("%_Y" => "[year padding:space]"),
    row!("%_G" => "[year base:iso_week padding:space]" within YearsFrom1),
    row!("%_u" => "[weekday repr:monday]"),
    row!("%_w" => "[weekday repr:sunday one_indexed:false]"),
    row!("%_" refused Flag),
];

const HASH: &[Row] = &[row!("%#z" refused ReadingOnly)];

const SMALL_C: &[Row] = &[
    row!("%c" => "[weekday repr:short] [month repr:short] [day padding:space] \
        [hour]:[minute]:[second] [year]"),
];
