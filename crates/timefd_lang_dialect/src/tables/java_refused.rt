//! The rows of letters that are always refused of Java. `tables/write` writes them.

ghost use Rattle.std.specs.Prelude.{◌≡◌};
ghost use Rattle.timefd_lang_dialect.specs.Groups.{rows_at};
ghost use Rattle.timefd_lang_dialect.specs.JavaRefused.{java_refused};
ghost use Rattle.timefd_lang_dialect.specs.Rows.{entries};

use crate::reason::Reason;
use crate::row::{NotBefore, Row, Verdict, row};

/// The rows of letters that are always refused that begin with this byte, the longest first.
#[tactic(auto, unfolding(crate::specs::JavaRefused::java_refused))]
pub fn java_refused_rows(byte: u8) -> &'static [Row]
    ensures { entries result.now ≡ rows_at byte java_refused }
{
    match byte {
        b'B' => CAPITAL_B,
        b'K' => CAPITAL_K,
        b'k' => SMALL_K,
        b'A' => CAPITAL_A,
        b'N' => CAPITAL_N,
        b'g' => SMALL_G,
        b'Y' => CAPITAL_Y,
        b'w' => SMALL_W,
        b'W' => CAPITAL_W,
        b'F' => CAPITAL_F,
        b'Q' => CAPITAL_Q,
        b'q' => SMALL_Q,
        b'G' => CAPITAL_G,
        b'V' => CAPITAL_V,
        b'v' => SMALL_V,
        b'z' => SMALL_Z,
        b'O' => CAPITAL_O,
        b'X' => CAPITAL_X,
        b'p' => SMALL_P,
        b'b' => SMALL_B,
        b'f' => SMALL_F,
        b'i' => SMALL_I,
        b'j' => SMALL_J,
        b'l' => SMALL_L,
        b'o' => SMALL_O,
        b'r' => SMALL_R,
        b't' => SMALL_T,
        b'C' => CAPITAL_C,
        b'I' => CAPITAL_I,
        b'J' => CAPITAL_J,
        b'P' => CAPITAL_P,
        b'R' => CAPITAL_R,
        b'T' => CAPITAL_T,
        b'U' => CAPITAL_U,
        b'[' => LEFT_SQUARE_BRACKET,
        b']' => RIGHT_SQUARE_BRACKET,
        b'#' => HASH,
        b'{' => LEFT_CURLY_BRACKET,
        b'}' => RIGHT_CURLY_BRACKET,
        _ => &[],
    }
}

const CAPITAL_B: &[Row] = &[
    row!("BBBBBB" refused TooManyLetters),
    row!("BBBBB" refused DayPeriod),
    row!("BBBB" refused DayPeriod),
    row!("BBB" refused TooManyLetters),
    row!("BB" refused TooManyLetters),
    row!("B" refused DayPeriod),
];

const CAPITAL_K: &[Row] = &[
    row!("KKK" refused TooManyLetters),
    row!("KK" refused HourFrom0Or24),
    row!("K" refused HourFrom0Or24),
];

const SMALL_K: &[Row] = &[
    row!("kkk" refused TooManyLetters),
    row!("kk" refused HourFrom0Or24),
    row!("k" refused HourFrom0Or24),
];

const CAPITAL_A: &[Row] = &[
    row!("AAAAAAAAAA" refused TooManyLetters),
    row!("AAAAAAAAA" refused UnitOfDay),
    row!("AAAAAAAA" refused UnitOfDay),
    row!("AAAAAAA" refused UnitOfDay),
    row!("AAAAAA" refused UnitOfDay),
    row!("AAAAA" refused UnitOfDay),
    row!("AAAA" refused UnitOfDay),
    row!("AAA" refused UnitOfDay),
    row!("AA" refused UnitOfDay),
    row!("A" refused UnitOfDay),
];

const CAPITAL_N: &[Row] = &[
    row!("NNNNNNNNNN" refused TooManyLetters),
    row!("NNNNNNNNN" refused UnitOfDay),
    row!("NNNNNNNN" refused UnitOfDay),
    row!("NNNNNNN" refused UnitOfDay),
    row!("NNNNNN" refused UnitOfDay),
    row!("NNNNN" refused UnitOfDay),
    row!("NNNN" refused UnitOfDay),
    row!("NNN" refused UnitOfDay),
    row!("NN" refused UnitOfDay),
    row!("N" refused UnitOfDay),
];

const SMALL_G: &[Row] = &[
    row!("gggggggggg" refused TooManyLetters),
    row!("ggggggggg" refused JulianDay),
    row!("gggggggg" refused JulianDay),
    row!("ggggggg" refused JulianDay),
    row!("gggggg" refused JulianDay),
    row!("ggggg" refused JulianDay),
    row!("gggg" refused JulianDay),
    row!("ggg" refused JulianDay),
    row!("gg" refused JulianDay),
    row!("g" refused JulianDay),
];

const CAPITAL_Y: &[Row] = &[
    row!("YYYYYYYYYY" refused TooManyLetters),
    row!("YYYYYYYYY" refused LocalWeek),
    row!("YYYYYYYY" refused LocalWeek),
    row!("YYYYYYY" refused LocalWeek),
    row!("YYYYYY" refused LocalWeek),
    row!("YYYYY" refused LocalWeek),
    row!("YYYY" refused LocalWeek),
    row!("YYY" refused LocalWeek),
    row!("YY" refused LocalWeek),
    row!("Y" refused LocalWeek),
];

const SMALL_W: &[Row] = &[
    row!("www" refused TooManyLetters),
    row!("ww" refused LocalWeek),
    row!("w" refused LocalWeek),
];

const CAPITAL_W: &[Row] = &[
    row!("WW" refused TooManyLetters),
    row!("W" refused LocalWeek),
];

const CAPITAL_F: &[Row] = &[
    row!("FF" refused TooManyLetters),
    row!("F" refused WeekOfMonth),
];

const CAPITAL_Q: &[Row] = &[
    row!("QQQQQQ" refused TooManyLetters),
    row!("QQQQQ" refused Quarter),
    row!("QQQQ" refused Quarter),
    row!("QQQ" refused Quarter),
    row!("QQ" refused Quarter),
    row!("Q" refused Quarter),
];

const SMALL_Q: &[Row] = &[
    row!("qqqqqq" refused TooManyLetters),
    row!("qqqqq" refused Quarter),
    row!("qqqq" refused Quarter),
    row!("qqq" refused Quarter),
    row!("qq" refused Quarter),
    row!("q" refused Quarter),
];

const CAPITAL_G: &[Row] = &[
    row!("GGGGGG" refused TooManyLetters),
    row!("GGGGG" refused Era),
    row!("GGGG" refused Era),
    row!("GGG" refused Era),
    row!("GG" refused Era),
    row!("G" refused Era),
];

const CAPITAL_V: &[Row] = &[
    row!("VVV" refused TooManyLetters),
    row!("VV" refused ZoneName),
    row!("V" refused TooManyLetters),
];

const SMALL_V: &[Row] = &[
    row!("vvvvv" refused TooManyLetters),
    row!("vvvv" refused ZoneName),
    row!("vvv" refused TooManyLetters),
    row!("vv" refused TooManyLetters),
    row!("v" refused ZoneName),
];

const SMALL_Z: &[Row] = &[
    row!("zzzzz" refused TooManyLetters),
    row!("zzzz" refused ZoneName),
    row!("zzz" refused ZoneName),
    row!("zz" refused ZoneName),
    row!("z" refused ZoneName),
];

const CAPITAL_O: &[Row] = &[
    row!("OOOOO" refused TooManyLetters),
    row!("OOOO" refused GmtOffset),
    row!("OOO" refused TooManyLetters),
    row!("OO" refused TooManyLetters),
    row!("O" refused GmtOffset),
];

const CAPITAL_X: &[Row] = &[
    row!("XXXXXX" refused TooManyLetters),
    row!("XXXXX" refused ZForUtc),
    row!("XXXX" refused ZForUtc),
    row!("XXX" refused ZForUtc),
    row!("XX" refused ZForUtc),
    row!("X" refused ZForUtc),
];

const SMALL_P: &[Row] = &[
    row!("pppppppppp" refused TooManyLetters),
    row!("ppppppppp" refused PadLetter),
    row!("pppppppp" refused PadLetter),
    row!("ppppppp" refused PadLetter),
    row!("pppppp" refused PadLetter),
    row!("ppppp" refused PadLetter),
    row!("pppp" refused PadLetter),
    row!("ppp" refused PadLetter),
    row!("pp" refused PadLetter),
    row!("p" refused PadLetter),
];

const SMALL_B: &[Row] = &[row!("b" refused UnknownLetter)];

const SMALL_F: &[Row] = &[row!("f" refused UnknownLetter)];

const SMALL_I: &[Row] = &[row!("i" refused UnknownLetter)];

const SMALL_J: &[Row] = &[row!("j" refused UnknownLetter)];

const SMALL_L: &[Row] = &[row!("l" refused UnknownLetter)];

const SMALL_O: &[Row] = &[row!("o" refused UnknownLetter)];

const SMALL_R: &[Row] = &[row!("r" refused UnknownLetter)];

const SMALL_T: &[Row] = &[row!("t" refused UnknownLetter)];

const CAPITAL_C: &[Row] = &[row!("C" refused UnknownLetter)];

const CAPITAL_I: &[Row] = &[row!("I" refused UnknownLetter)];

const CAPITAL_J: &[Row] = &[row!("J" refused UnknownLetter)];

const CAPITAL_P: &[Row] = &[row!("P" refused UnknownLetter)];

const CAPITAL_R: &[Row] = &[row!("R" refused UnknownLetter)];

const CAPITAL_T: &[Row] = &[row!("T" refused UnknownLetter)];

const CAPITAL_U: &[Row] = &[row!("U" refused UnknownLetter)];

const LEFT_SQUARE_BRACKET: &[Row] = &[row!("[" refused OptionalPart)];

const RIGHT_SQUARE_BRACKET: &[Row] = &[row!("]" refused OptionalPart)];

const HASH: &[Row] = &[row!("#" refused Reserved)];

const LEFT_CURLY_BRACKET: &[Row] = &[row!("{" refused Reserved)];

const RIGHT_CURLY_BRACKET: &[Row] = &[row!("}" refused Reserved)];
