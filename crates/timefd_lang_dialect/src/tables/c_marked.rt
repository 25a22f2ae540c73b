//! The rows of widths and other marks of C. `tables/write` writes them.

ghost use Rattle.std.specs.Prelude.{◌≡◌};
ghost use Rattle.timefd_lang_dialect.specs.Groups.{rows_at};
ghost use Rattle.timefd_lang_dialect.specs.CMarked.{c_marked};
ghost use Rattle.timefd_lang_dialect.specs.Rows.{entries};

use crate::reason::Reason;
use crate::row::{NotBefore, Range, Row, Verdict, row};
use crate::tables::strftime::PERCENT_SIGN;

/// The rows of widths and other marks of the directives with this byte after the `%`, the longest first.
#[tactic(auto, unfolding(crate::specs::CMarked::c_marked))]
pub fn c_marked_rows(byte: u8) -> &'static [Row]
    ensures { entries result.now ≡ rows_at byte c_marked }
{
    match byte {
        b'%' => PERCENT_SIGN,
        b'^' => CARET,
        b'#' => HASH,
        b'+' => PLUS_SIGN,
        b'4' => DIGIT_FOUR,
        b'2' => DIGIT_TWO,
        b'3' => DIGIT_THREE,
        b'1' => DIGIT_ONE,
        b'5' => DIGIT_FIVE,
        b'6' => DIGIT_SIX,
        b'7' => DIGIT_SEVEN,
        b'8' => DIGIT_EIGHT,
        b'9' => DIGIT_NINE,
        _ => &[],
    }
}

const CARET: &[Row] = &[
    row!("%^Ec" refused Capitals),
    row!("%^EC" => "[year repr:century]" within YearsFrom1000),
    row!("%^Ex" => "[month]/[day]/[year repr:last_two]"),
    row!("%^EX" => "[hour]:[minute]:[second]"),
    row!("%^Ey" => "[year repr:last_two]"),
    row!("%^EY" => "[year]" within YearsFrom1000),
    row!("%^Od" => "[day]"),
    row!("%^OH" => "[hour]"),
    row!("%^OI" => "[hour repr:12]"),
    row!("%^OM" => "[minute]"),
    row!("%^OS" => "[second]"),
    row!("%^OU" => "[week_number repr:sunday]"),
    row!("%^OV" => "[week_number]"),
    row!("%^OW" => "[week_number repr:monday]"),
    row!("%^Om" => "[month]"),
    row!("%^Ou" => "[weekday repr:monday]"),
    row!("%^Ow" => "[weekday repr:sunday one_indexed:false]"),
    row!("%^Oy" => "[year repr:last_two]"),
    row!("%^Oe" => "[day padding:space]"),
    row!("%^Ok" => "[hour padding:space]"),
    row!("%^Ol" => "[hour repr:12 padding:space]"),
    row!("%^a" refused Capitals),
    row!("%^A" refused Capitals),
    row!("%^b" refused Capitals),
    row!("%^B" refused Capitals),
    row!("%^h" refused Capitals),
    row!("%^c" refused Capitals),
    row!("%^d" => "[day]"),
    row!("%^e" => "[day padding:space]"),
    row!("%^H" => "[hour]"),
    row!("%^k" => "[hour padding:space]"),
    row!("%^I" => "[hour repr:12]"),
    row!("%^l" => "[hour repr:12 padding:space]"),
    row!("%^j" => "[ordinal]"),
    row!("%^m" => "[month]"),
    row!("%^M" => "[minute]"),
    row!("%^S" => "[second]"),
    row!("%^U" => "[week_number repr:sunday]"),
    row!("%^V" => "[week_number]"),
    row!("%^W" => "[week_number repr:monday]"),
    row!("%^y" => "[year repr:last_two]"),
    row!("%^g" => "[year repr:last_two base:iso_week]" within YearsFrom1),
    row!("%^C" => "[year repr:century]" within YearsFrom1000),
    row!("%^Y" => "[year]" within YearsFrom1000),
    row!("%^G" => "[year base:iso_week]" within YearsFrom1000),
    row!("%^u" => "[weekday repr:monday]"),
    row!("%^w" => "[weekday repr:sunday one_indexed:false]"),
    row!("%^p" => "[period]"),
    row!("%^P" => "[period case:lower]"),
    row!("%^D" => "[month]/[day]/[year repr:last_two]"),
    row!("%^F" => "[year]-[month]-[day]" within YearsFrom1000),
    row!("%^r" => "[hour repr:12]:[minute]:[second] [period]"),
    row!("%^R" => "[hour]:[minute]"),
    row!("%^T" => "[hour]:[minute]:[second]"),
    row!("%^x" => "[month]/[day]/[year repr:last_two]"),
    row!("%^X" => "[hour]:[minute]:[second]"),
    row!("%^%" => "%"),
    row!("%^n" => "\n"),
    row!("%^t" => "\t"),
    row!("%^s" => "[unix_timestamp]"),
    row!("%^" refused Flag),
];

const HASH: &[Row] = &[
    row!("%#Ec" => "[weekday repr:short] [month repr:short] [day padding:space] \
        [hour]:[minute]:[second] [year]" within YearsFrom1000),
    row!("%#EC" => "[year repr:century]" within YearsFrom1000),
    row!("%#Ex" => "[month]/[day]/[year repr:last_two]"),
    row!("%#EX" => "[hour]:[minute]:[second]"),
    row!("%#Ey" => "[year repr:last_two]"),
    row!("%#EY" => "[year]" within YearsFrom1000),
    row!("%#Od" => "[day]"),
    row!("%#OH" => "[hour]"),
    row!("%#OI" => "[hour repr:12]"),
    row!("%#OM" => "[minute]"),
    row!("%#OS" => "[second]"),
    row!("%#OU" => "[week_number repr:sunday]"),
    row!("%#OV" => "[week_number]"),
    row!("%#OW" => "[week_number repr:monday]"),
    row!("%#Om" => "[month]"),
    row!("%#Ou" => "[weekday repr:monday]"),
    row!("%#Ow" => "[weekday repr:sunday one_indexed:false]"),
    row!("%#Oy" => "[year repr:last_two]"),
    row!("%#Oe" => "[day padding:space]"),
    row!("%#Ok" => "[hour padding:space]"),
    row!("%#Ol" => "[hour repr:12 padding:space]"),
    row!("%#a" refused Capitals),
    row!("%#A" refused Capitals),
    row!("%#b" refused Capitals),
    row!("%#B" refused Capitals),
    row!("%#h" refused Capitals),
    row!("%#p" => "[period case:lower]"),
    row!("%#d" => "[day]"),
    row!("%#e" => "[day padding:space]"),
    row!("%#H" => "[hour]"),
    row!("%#k" => "[hour padding:space]"),
    row!("%#I" => "[hour repr:12]"),
    row!("%#l" => "[hour repr:12 padding:space]"),
    row!("%#j" => "[ordinal]"),
    row!("%#m" => "[month]"),
    row!("%#M" => "[minute]"),
    row!("%#S" => "[second]"),
    row!("%#U" => "[week_number repr:sunday]"),
    row!("%#V" => "[week_number]"),
    row!("%#W" => "[week_number repr:monday]"),
    row!("%#y" => "[year repr:last_two]"),
    row!("%#g" => "[year repr:last_two base:iso_week]" within YearsFrom1),
    row!("%#C" => "[year repr:century]" within YearsFrom1000),
    row!("%#Y" => "[year]" within YearsFrom1000),
    row!("%#G" => "[year base:iso_week]" within YearsFrom1000),
    row!("%#u" => "[weekday repr:monday]"),
    row!("%#w" => "[weekday repr:sunday one_indexed:false]"),
    row!("%#P" => "[period case:lower]"),
    row!("%#c" => "[weekday repr:short] [month repr:short] [day padding:space] \
        [hour]:[minute]:[second] [year]" within YearsFrom1000),
    row!("%#D" => "[month]/[day]/[year repr:last_two]"),
    row!("%#F" => "[year]-[month]-[day]" within YearsFrom1000),
    row!("%#r" => "[hour repr:12]:[minute]:[second] [period]"),
    row!("%#R" => "[hour]:[minute]"),
    row!("%#T" => "[hour]:[minute]:[second]"),
    row!("%#x" => "[month]/[day]/[year repr:last_two]"),
    row!("%#X" => "[hour]:[minute]:[second]"),
    row!("%#%" => "%"),
    row!("%#n" => "\n"),
    row!("%#t" => "\t"),
    row!("%#s" => "[unix_timestamp]"),
    row!("%#" refused Flag),
];

const PLUS_SIGN: &[Row] = &[row!("%+" refused Unsupported)];

const DIGIT_FOUR: &[Row] = &[
    row!("%4Y" => "[year]"),
    row!("%4G" => "[year base:iso_week]" within YearsFrom1),
    row!("%4" refused Width),
];

const DIGIT_TWO: &[Row] = &[
    row!("%2C" => "[year repr:century]"),
    row!("%2d" => "[day]"),
    row!("%2e" => "[day padding:space]"),
    row!("%2H" => "[hour]"),
    row!("%2k" => "[hour padding:space]"),
    row!("%2I" => "[hour repr:12]"),
    row!("%2l" => "[hour repr:12 padding:space]"),
    row!("%2m" => "[month]"),
    row!("%2M" => "[minute]"),
    row!("%2S" => "[second]"),
    row!("%2U" => "[week_number repr:sunday]"),
    row!("%2V" => "[week_number]"),
    row!("%2W" => "[week_number repr:monday]"),
    row!("%2y" => "[year repr:last_two]"),
    row!("%2g" => "[year repr:last_two base:iso_week]" within YearsFrom1),
    row!("%2" refused Width),
];

const DIGIT_THREE: &[Row] = &[row!("%3j" => "[ordinal]"), row!("%3" refused Width)];

const DIGIT_ONE: &[Row] = &[
    row!("%1u" => "[weekday repr:monday]"),
    row!("%1w" => "[weekday repr:sunday one_indexed:false]"),
    row!("%1" refused Width),
];

const DIGIT_FIVE: &[Row] = &[row!("%5" refused Width)];

const DIGIT_SIX: &[Row] = &[row!("%6" refused Width)];

const DIGIT_SEVEN: &[Row] = &[row!("%7" refused Width)];

const DIGIT_EIGHT: &[Row] = &[row!("%8" refused Width)];

const DIGIT_NINE: &[Row] = &[row!("%9" refused Width)];
