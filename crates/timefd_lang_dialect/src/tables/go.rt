//! The rows of Go. `tables/write` writes them.

ghost use Rattle.std.specs.Prelude.{◌≡◌};
ghost use Rattle.timefd_lang_dialect.specs.Groups.{keys_of, rows_at};
ghost use Rattle.timefd_lang_dialect.specs.Go.{go_groups};
ghost use Rattle.timefd_lang_dialect.specs.Rows.{entries};

use crate::reason::Reason;
use crate::row::{NotBefore, Range, Row, Verdict, row};

/// The rows that begin with this byte, the longest first.
#[tactic(auto, unfolding(crate::specs::Go::go_groups))]
pub fn go_rows(byte: u8) -> &'static [Row]
    ensures { entries result.now ≡ rows_at byte go_groups }
{
    match byte {
        b'J' => CAPITAL_J,
        b'M' => CAPITAL_M,
        b'1' => DIGIT_ONE,
        b'0' => DIGIT_ZERO,
        b'2' => DIGIT_TWO,
        b'_' => UNDERSCORE,
        b'3' => DIGIT_THREE,
        b'4' => DIGIT_FOUR,
        b'5' => DIGIT_FIVE,
        b'P' => CAPITAL_P,
        b'p' => SMALL_P,
        b'-' => HYPHEN,
        b'Z' => CAPITAL_Z,
        b'.' => DOT,
        b',' => COMMA,
        _ => &[],
    }
}

/// The bytes that select rows.
#[tactic(auto, unfolding(crate::specs::Go::go_groups))]
pub fn go_keys() -> &'static [u8]
    ensures { result.now ≡ keys_of go_groups }
{
    KEYS
}

const KEYS: &[u8] = b"JM102_345Pp-Z.,";

const CAPITAL_J: &[Row] = &[
    row!("January" => "[month repr:long]"),
    row!("Jan" not before Lower => "[month repr:short]"),
];

const CAPITAL_M: &[Row] = &[
    row!("Monday" => "[weekday]"),
    row!("Mon" not before Lower => "[weekday repr:short]"),
    row!("MST" refused ZoneName),
];

const DIGIT_ONE: &[Row] = &[row!("15" => "[hour]"), row!("1" => "[month padding:none]")];

const DIGIT_ZERO: &[Row] = &[
    row!("002" => "[ordinal]"),
    row!("01" => "[month]"),
    row!("02" => "[day]"),
    row!("03" => "[hour repr:12]"),
    row!("04" => "[minute]"),
    row!("05" => "[second]"),
    row!("06" => "[year repr:last_two]"),
];

const DIGIT_TWO: &[Row] = &[row!("2006" => "[year]"), row!("2" => "[day padding:none]")];

const UNDERSCORE: &[Row] = &[
    row!("_2006" => "_[year]"),
    row!("__2" => "[ordinal padding:space]"),
    row!("_2" => "[day padding:space]"),
];

const DIGIT_THREE: &[Row] = &[row!("3" => "[hour repr:12 padding:none]")];

const DIGIT_FOUR: &[Row] = &[row!("4" => "[minute padding:none]")];

const DIGIT_FIVE: &[Row] = &[row!("5" => "[second padding:none]")];

const CAPITAL_P: &[Row] = &[row!("PM" => "[period]")];

const SMALL_P: &[Row] = &[row!("pm" => "[period case:lower]")];

const HYPHEN: &[Row] = &[
    row!("-07:00:00" => "[offset_hour \
        sign:mandatory]:[offset_minute]:[offset_second]"),
    row!("-070000" => "[offset_hour sign:mandatory][offset_minute][offset_second]"),
    row!("-07:00" => "[offset_hour sign:mandatory]:[offset_minute]"),
    row!("-0700" => "[offset_hour sign:mandatory][offset_minute]"),
    row!("-07" => "[offset_hour sign:mandatory]"),
];

const CAPITAL_Z: &[Row] = &[
    row!("Z07:00:00" refused ZForUtc),
    row!("Z070000" refused ZForUtc),
    row!("Z07:00" refused ZForUtc),
    row!("Z0700" refused ZForUtc),
    row!("Z07" refused ZForUtc),
];

const DOT: &[Row] = &[
    row!(".0000000000" refused FractionWidth),
    row!(".9999999999" refused FractionWidth),
    row!(".000000000" not before Digit => ".[subsecond digits:9]"),
    row!(".999999999" not before Digit refused VariableFraction),
    row!(".00000000" not before Digit => ".[subsecond digits:8]"),
    row!(".99999999" not before Digit refused VariableFraction),
    row!(".0000000" not before Digit => ".[subsecond digits:7]"),
    row!(".9999999" not before Digit refused VariableFraction),
    row!(".000000" not before Digit => ".[subsecond digits:6]"),
    row!(".999999" not before Digit refused VariableFraction),
    row!(".00000" not before Digit => ".[subsecond digits:5]"),
    row!(".99999" not before Digit refused VariableFraction),
    row!(".0000" not before Digit => ".[subsecond digits:4]"),
    row!(".9999" not before Digit refused VariableFraction),
    row!(".000" not before Digit => ".[subsecond digits:3]"),
    row!(".999" not before Digit refused VariableFraction),
    row!(".00" not before Digit => ".[subsecond digits:2]"),
    row!(".99" not before Digit refused VariableFraction),
    row!(".0" not before Digit => ".[subsecond digits:1]"),
    row!(".9" not before Digit refused VariableFraction),
];

const COMMA: &[Row] = &[
    row!(",0000000000" refused FractionWidth),
    row!(",9999999999" refused FractionWidth),
    row!(",000000000" not before Digit => ",[subsecond digits:9]"),
    row!(",999999999" not before Digit refused VariableFraction),
    row!(",00000000" not before Digit => ",[subsecond digits:8]"),
    row!(",99999999" not before Digit refused VariableFraction),
    row!(",0000000" not before Digit => ",[subsecond digits:7]"),
    row!(",9999999" not before Digit refused VariableFraction),
    row!(",000000" not before Digit => ",[subsecond digits:6]"),
    row!(",999999" not before Digit refused VariableFraction),
    row!(",00000" not before Digit => ",[subsecond digits:5]"),
    row!(",99999" not before Digit refused VariableFraction),
    row!(",0000" not before Digit => ",[subsecond digits:4]"),
    row!(",9999" not before Digit refused VariableFraction),
    row!(",000" not before Digit => ",[subsecond digits:3]"),
    row!(",999" not before Digit refused VariableFraction),
    row!(",00" not before Digit => ",[subsecond digits:2]"),
    row!(",99" not before Digit refused VariableFraction),
    row!(",0" not before Digit => ",[subsecond digits:1]"),
    row!(",9" not before Digit refused VariableFraction),
];
