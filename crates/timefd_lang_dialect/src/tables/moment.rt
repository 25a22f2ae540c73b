//! The rows of moment. `tables/write` writes them.

ghost use Rattle.std.specs.Prelude.{◌≡◌};
ghost use Rattle.timefd_lang_dialect.specs.Groups.{keys_of, rows_at};
ghost use Rattle.timefd_lang_dialect.specs.Moment.{moment_groups};
ghost use Rattle.timefd_lang_dialect.specs.Rows.{entries};

use crate::reason::Reason;
use crate::row::{NotBefore, Range, Row, Verdict, row};
use crate::tables::moment_escaped::moment_escaped_rows;

/// The rows that begin with this byte, the longest first.
#[tactic(auto, unfolding(crate::specs::Moment::moment_groups))]
pub fn moment_rows(byte: u8) -> &'static [Row]
    ensures { entries result.now ≡ rows_at byte moment_groups }
{
    match byte {
        b'M' => CAPITAL_M,
        b'D' => CAPITAL_D,
        b'd' => SMALL_D,
        b'E' => CAPITAL_E,
        b'e' => SMALL_E,
        b'w' => SMALL_W,
        b'g' => SMALL_G,
        b'W' => CAPITAL_W,
        b'Q' => CAPITAL_Q,
        b'y' => SMALL_Y,
        b'Y' => CAPITAL_Y,
        b'G' => CAPITAL_G,
        b'N' => CAPITAL_N,
        b'A' => CAPITAL_A,
        b'a' => SMALL_A,
        b'H' => CAPITAL_H,
        b'h' => SMALL_H,
        b'm' => SMALL_M,
        b's' => SMALL_S,
        b'k' => SMALL_K,
        b'S' => CAPITAL_S,
        b'X' => CAPITAL_X,
        b'x' => SMALL_X,
        b'Z' => CAPITAL_Z,
        b'z' => SMALL_Z,
        b'L' => CAPITAL_L,
        b'l' => SMALL_L,
        b'\n' => LINE_FEED,
        b'\r' => CARRIAGE_RETURN,
        226 => LINE_SEPARATOR,
        _ => moment_escaped_rows(byte),
    }
}

/// The bytes that select rows.
#[tactic(auto, unfolding(crate::specs::Moment::moment_groups, crate::specs::MomentEscaped::moment_escaped))]
pub fn moment_keys() -> &'static [u8]
    ensures { result.now ≡ keys_of moment_groups }
{
    KEYS
}

const KEYS: &[u8] = b"MDdEewgWQyYGNAaHhmskSXxZzLl\n\r\xE2\\";

const CAPITAL_M: &[Row] = &[
    row!("MMMM" => "[month repr:long]"),
    row!("MMM" => "[month repr:short]"),
    row!("MM" => "[month]"),
    row!("Mo" refused OrdinalSuffix),
    row!("M" => "[month padding:none]"),
];

const CAPITAL_D: &[Row] = &[
    row!("DDDD" => "[ordinal]"),
    row!("DDDo" refused OrdinalSuffix),
    row!("DDD" => "[ordinal padding:none]"),
    row!("DD" => "[day]"),
    row!("Do" refused OrdinalSuffix),
    row!("D" => "[day padding:none]"),
];

const SMALL_D: &[Row] = &[
    row!("dddd" => "[weekday]"),
    row!("ddd" => "[weekday repr:short]"),
    row!("dd" refused TwoLetterName),
    row!("do" refused OrdinalSuffix),
    row!("d" => "[weekday repr:sunday one_indexed:false]"),
];

const CAPITAL_E: &[Row] = &[row!("E" => "[weekday repr:monday]")];

const SMALL_E: &[Row] = &[row!("e" refused LocalWeek)];

const SMALL_W: &[Row] = &[
    row!("ww" refused LocalWeek),
    row!("wo" refused LocalWeek),
    row!("w|" refused Reserved),
    row!("w" refused LocalWeek),
];

const SMALL_G: &[Row] = &[
    row!("ggggg" refused LocalWeek),
    row!("gggg" refused LocalWeek),
    row!("gg" refused LocalWeek),
];

const CAPITAL_W: &[Row] = &[
    row!("Wo" refused OrdinalSuffix),
    row!("WW" => "[week_number]"),
    row!("W|" refused Reserved),
    row!("W" => "[week_number padding:none]"),
];

const CAPITAL_Q: &[Row] = &[row!("Qo" refused OrdinalSuffix), row!("Q" refused Quarter)];

const SMALL_Y: &[Row] = &[
    row!("yyyy" refused Era),
    row!("yyy" refused Era),
    row!("yo" refused OrdinalSuffix),
    row!("yy" refused Era),
    row!("y" refused Era),
];

const CAPITAL_Y: &[Row] = &[
    row!("YYYYYY" => "+00[year]"),
    row!("YYYYY" => "0[year]"),
    row!("YYYY" => "[year]"),
    row!("YY" => "[year repr:last_two]"),
    row!("Y" => "[year]"),
];

const CAPITAL_G: &[Row] = &[
    row!("GGGGG" => "0[year base:iso_week]" within YearsFrom1),
    row!("GGGG" => "[year base:iso_week]" within YearsFrom1),
    row!("GG" => "[year repr:last_two base:iso_week]" within YearsFrom1),
];

const CAPITAL_N: &[Row] = &[
    row!("NNNNN" refused Era),
    row!("NNNN" refused Era),
    row!("NNN" refused Era),
    row!("NN" refused Era),
    row!("N" refused Era),
];

const CAPITAL_A: &[Row] = &[row!("A" => "[period]")];

const SMALL_A: &[Row] = &[row!("a" => "[period case:lower]")];

const CAPITAL_H: &[Row] = &[
    row!("Hmmss" => "[hour padding:none][minute][second]"),
    row!("Hmm" => "[hour padding:none][minute]"),
    row!("HH" => "[hour]"),
    row!("H" => "[hour padding:none]"),
];

const SMALL_H: &[Row] = &[
    row!("hmmss" => "[hour repr:12 padding:none][minute][second]"),
    row!("hmm" => "[hour repr:12 padding:none][minute]"),
    row!("hh" => "[hour repr:12]"),
    row!("h" => "[hour repr:12 padding:none]"),
];

const SMALL_M: &[Row] = &[
    row!("mm" => "[minute]"),
    row!("m" => "[minute padding:none]"),
];

const SMALL_S: &[Row] = &[
    row!("ss" => "[second]"),
    row!("s" => "[second padding:none]"),
];

const SMALL_K: &[Row] = &[
    row!("kk" refused HourFrom0Or24),
    row!("k" refused HourFrom0Or24),
];

const CAPITAL_S: &[Row] = &[
    row!("SSSSSSSSS" => "[subsecond digits:3]000000"),
    row!("SSSSSSSS" => "[subsecond digits:3]00000"),
    row!("SSSSSSS" => "[subsecond digits:3]0000"),
    row!("SSSSSS" => "[subsecond digits:3]000"),
    row!("SSSSS" => "[subsecond digits:3]00"),
    row!("SSSS" => "[subsecond digits:3]0"),
    row!("SSS" => "[subsecond digits:3]"),
    row!("SS" => "[subsecond digits:2]"),
    row!("S" => "[subsecond digits:1]"),
];

const CAPITAL_X: &[Row] = &[row!("X" => "[unix_timestamp]")];

const SMALL_X: &[Row] = &[row!("x" => "[unix_timestamp precision:millisecond]" within From1970)];

const CAPITAL_Z: &[Row] = &[
    row!("ZZ" => "[offset_hour sign:mandatory][offset_minute]"),
    row!("Z" => "[offset_hour sign:mandatory]:[offset_minute]"),
];

const SMALL_Z: &[Row] = &[row!("zz" refused ZoneName), row!("z" refused ZoneName)];

const CAPITAL_L: &[Row] = &[
    row!("LLLL" refused Locale),
    row!("LTS" refused Locale),
    row!("LLL" refused Locale),
    row!("LT" refused Locale),
    row!("LL" refused Locale),
    row!("L" refused Locale),
];

const SMALL_L: &[Row] = &[
    row!("llll" refused Locale),
    row!("lll" refused Locale),
    row!("ll" refused Locale),
    row!("l" refused Locale),
];

const LINE_FEED: &[Row] = &[row!("\n" refused Reserved)];

const CARRIAGE_RETURN: &[Row] = &[row!("\r" refused Reserved)];

const LINE_SEPARATOR: &[Row] = &[
    row!("\u{2028}" refused Reserved),
    row!("\u{2029}" refused Reserved),
];
