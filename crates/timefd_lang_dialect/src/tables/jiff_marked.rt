//! The rows of widths and other marks of jiff. `tables/write` writes them.

ghost use Rattle.std.specs.Prelude.{◌≡◌};
ghost use Rattle.timefd_lang_dialect.specs.Groups.{rows_at};
ghost use Rattle.timefd_lang_dialect.specs.JiffMarked.{jiff_marked};
ghost use Rattle.timefd_lang_dialect.specs.Rows.{entries};

use crate::reason::Reason;
use crate::row::{NotBefore, Range, Row, Verdict, row};
use crate::tables::strftime::PERCENT_SIGN;

/// The rows of widths and other marks of the directives with this byte after the `%`, the longest first.
#[tactic(auto, unfolding(crate::specs::JiffMarked::jiff_marked))]
pub fn jiff_marked_rows(byte: u8) -> &'static [Row]
    ensures { entries result.now ≡ rows_at byte jiff_marked }
{
    match byte {
        b'%' => PERCENT_SIGN,
        b'1' => DIGIT_ONE,
        b'2' => DIGIT_TWO,
        b'3' => DIGIT_THREE,
        b'4' => DIGIT_FOUR,
        b'5' => DIGIT_FIVE,
        b'6' => DIGIT_SIX,
        b'7' => DIGIT_SEVEN,
        b'8' => DIGIT_EIGHT,
        b'9' => DIGIT_NINE,
        b'.' => DOT,
        b':' => COLON,
        b'^' => CARET,
        b'#' => HASH,
        _ => &[],
    }
}

const DIGIT_ONE: &[Row] = &[
    row!("%1f" => "[subsecond digits:1]"),
    row!("%1N" => "[subsecond digits:1]"),
    row!("%1" refused Width),
];

const DIGIT_TWO: &[Row] = &[
    row!("%2f" => "[subsecond digits:2]"),
    row!("%2N" => "[subsecond digits:2]"),
    row!("%2d" => "[day]"),
    row!("%2e" => "[day padding:space]"),
    row!("%2H" => "[hour]"),
    row!("%2k" => "[hour padding:space]"),
    row!("%2I" => "[hour repr:12]"),
    row!("%2l" => "[hour repr:12 padding:space]"),
    row!("%2m" => "[month]"),
    row!("%2M" => "[minute]"),
    row!("%2S" => "[second]"),
    row!("%2U" => "[week_number repr:sunday]"),
    row!("%2V" => "[week_number]"),
    row!("%2W" => "[week_number repr:monday]"),
    row!("%2y" => "[year repr:last_two]"),
    row!("%2g" => "[year repr:last_two base:iso_week]" within YearsFrom1),
    row!("%2" refused Width),
];

const DIGIT_THREE: &[Row] = &[
    row!("%3f" => "[subsecond digits:3]"),
    row!("%3N" => "[subsecond digits:3]"),
    row!("%3j" => "[ordinal]"),
    row!("%3" refused Width),
];

const DIGIT_FOUR: &[Row] = &[
    row!("%4f" => "[subsecond digits:4]"),
    row!("%4N" => "[subsecond digits:4]"),
    row!("%4Y" => "[year]"),
    row!("%4G" => "[year base:iso_week]" within YearsFrom1),
    row!("%4" refused Width),
];

const DIGIT_FIVE: &[Row] = &[
    row!("%5f" => "[subsecond digits:5]"),
    row!("%5N" => "[subsecond digits:5]"),
    row!("%5" refused Width),
];

const DIGIT_SIX: &[Row] = &[
    row!("%6f" => "[subsecond digits:6]"),
    row!("%6N" => "[subsecond digits:6]"),
    row!("%6" refused Width),
];

const DIGIT_SEVEN: &[Row] = &[
    row!("%7f" => "[subsecond digits:7]"),
    row!("%7N" => "[subsecond digits:7]"),
    row!("%7" refused Width),
];

const DIGIT_EIGHT: &[Row] = &[
    row!("%8f" => "[subsecond digits:8]"),
    row!("%8N" => "[subsecond digits:8]"),
    row!("%8" refused Width),
];

const DIGIT_NINE: &[Row] = &[
    row!("%9f" => "[subsecond digits:9]"),
    row!("%9N" => "[subsecond digits:9]"),
    row!("%9" refused Width),
];

const DOT: &[Row] = &[
    row!("%.1f" => ".[subsecond digits:1]"),
    row!("%.2f" => ".[subsecond digits:2]"),
    row!("%.3f" => ".[subsecond digits:3]"),
    row!("%.4f" => ".[subsecond digits:4]"),
    row!("%.5f" => ".[subsecond digits:5]"),
    row!("%.6f" => ".[subsecond digits:6]"),
    row!("%.7f" => ".[subsecond digits:7]"),
    row!("%.8f" => ".[subsecond digits:8]"),
    row!("%.9f" => ".[subsecond digits:9]"),
    row!("%.f" refused VariableFraction),
];

const COLON: &[Row] = &[
    row!("%:::z" refused VariableOffset),
    row!("%::z" => "[offset_hour sign:mandatory]:[offset_minute]:[offset_second]"),
    row!("%:z" => "[offset_hour \
        sign:mandatory]:[offset_minute]" within WholeMinutes),
    row!("%:Q" refused ZoneName),
];

const CARET: &[Row] = &[
    row!("%^:z" => "[offset_hour \
        sign:mandatory]:[offset_minute]" within WholeMinutes),
    row!("%^c" refused Capitals),
    row!("%^a" refused Capitals),
    row!("%^A" refused Capitals),
    row!("%^b" refused Capitals),
    row!("%^B" refused Capitals),
    row!("%^h" refused Capitals),
    row!("%^P" => "[period]"),
    row!("%^d" => "[day]"),
    row!("%^e" => "[day padding:space]"),
    row!("%^H" => "[hour]"),
    row!("%^k" => "[hour padding:space]"),
    row!("%^I" => "[hour repr:12]"),
    row!("%^l" => "[hour repr:12 padding:space]"),
    row!("%^j" => "[ordinal]"),
    row!("%^m" => "[month]"),
    row!("%^M" => "[minute]"),
    row!("%^S" => "[second]"),
    row!("%^U" => "[week_number repr:sunday]"),
    row!("%^V" => "[week_number]"),
    row!("%^W" => "[week_number repr:monday]"),
    row!("%^y" => "[year repr:last_two]"),
    row!("%^g" => "[year repr:last_two base:iso_week]" within YearsFrom1),
    row!("%^C" => "[year repr:century padding:none]"),
    row!("%^Y" => "[year]"),
    row!("%^G" => "[year base:iso_week]" within YearsFrom1),
    row!("%^u" => "[weekday repr:monday]"),
    row!("%^w" => "[weekday repr:sunday one_indexed:false]"),
    row!("%^p" => "[period]"),
    row!("%^D" => "[month]/[day]/[year repr:last_two]"),
    row!("%^F" => "[year]-[month]-[day]"),
    row!("%^R" => "[hour]:[minute]"),
    row!("%^T" => "[hour]:[minute]:[second]"),
    row!("%^%" => "%"),
    row!("%^n" => "\n"),
    row!("%^t" => "\t"),
    row!("%^r" => "[hour repr:12 padding:none]:[minute]:[second] [period]"),
    row!("%^x" => "[year] M[month] [day padding:none]"),
    row!("%^X" => "[hour]:[minute]:[second]"),
    row!("%^s" => "[unix_timestamp]" within From1970),
    row!("%^z" => "[offset_hour sign:mandatory][offset_minute]" within WholeMinutes),
    row!("%^" refused Flag),
];

const HASH: &[Row] = &[
    row!("%#:z" => "[offset_hour \
        sign:mandatory]:[offset_minute]" within WholeMinutes),
    row!("%#p" => "[period case:lower]"),
    row!("%#d" => "[day]"),
    row!("%#e" => "[day padding:space]"),
    row!("%#H" => "[hour]"),
    row!("%#k" => "[hour padding:space]"),
    row!("%#I" => "[hour repr:12]"),
    row!("%#l" => "[hour repr:12 padding:space]"),
    row!("%#j" => "[ordinal]"),
    row!("%#m" => "[month]"),
    row!("%#M" => "[minute]"),
    row!("%#S" => "[second]"),
    row!("%#U" => "[week_number repr:sunday]"),
    row!("%#V" => "[week_number]"),
    row!("%#W" => "[week_number repr:monday]"),
    row!("%#y" => "[year repr:last_two]"),
    row!("%#g" => "[year repr:last_two base:iso_week]" within YearsFrom1),
    row!("%#C" => "[year repr:century padding:none]"),
    row!("%#Y" => "[year]"),
    row!("%#G" => "[year base:iso_week]" within YearsFrom1),
    row!("%#u" => "[weekday repr:monday]"),
    row!("%#w" => "[weekday repr:sunday one_indexed:false]"),
    row!("%#a" => "[weekday repr:short]"),
    row!("%#A" => "[weekday]"),
    row!("%#b" => "[month repr:short]"),
    row!("%#B" => "[month repr:long]"),
    row!("%#h" => "[month repr:short]"),
    row!("%#P" => "[period case:lower]"),
    row!("%#D" => "[month]/[day]/[year repr:last_two]"),
    row!("%#F" => "[year]-[month]-[day]"),
    row!("%#R" => "[hour]:[minute]"),
    row!("%#T" => "[hour]:[minute]:[second]"),
    row!("%#%" => "%"),
    row!("%#n" => "\n"),
    row!("%#t" => "\t"),
    row!("%#c" => "[year] M[month] [day padding:none], [weekday repr:short] \
        [hour]:[minute]:[second]"),
    row!("%#r" => "[hour repr:12 padding:none]:[minute]:[second] [period]"),
    row!("%#x" => "[year] M[month] [day padding:none]"),
    row!("%#X" => "[hour]:[minute]:[second]"),
    row!("%#s" => "[unix_timestamp]" within From1970),
    row!("%#z" => "[offset_hour sign:mandatory][offset_minute]" within WholeMinutes),
    row!("%#" refused Flag),
];
