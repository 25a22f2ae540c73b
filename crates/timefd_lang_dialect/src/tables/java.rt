//! The rows of Java. `tables/write` writes them.

ghost use Rattle.std.specs.Prelude.{◌≡◌};
ghost use Rattle.timefd_lang_dialect.specs.Groups.{keys_of, rows_at};
ghost use Rattle.timefd_lang_dialect.specs.Java.{java_groups};
ghost use Rattle.timefd_lang_dialect.specs.Rows.{entries};

use crate::reason::Reason;
use crate::row::{NotBefore, Range, Row, Verdict, row};
use crate::tables::java_refused::java_refused_rows;

/// The rows that begin with this byte, the longest first.
#[tactic(auto, unfolding(crate::specs::Java::java_groups))]
pub fn java_rows(byte: u8) -> &'static [Row]
    ensures { entries result.now ≡ rows_at byte java_groups }
{
    match byte {
        b'u' => SMALL_U,
        b'y' => SMALL_Y,
        b'M' => CAPITAL_M,
        b'L' => CAPITAL_L,
        b'd' => SMALL_D,
        b'D' => CAPITAL_D,
        b'E' => CAPITAL_E,
        b'e' => SMALL_E,
        b'c' => SMALL_C,
        b'a' => SMALL_A,
        b'H' => CAPITAL_H,
        b'h' => SMALL_H,
        b'm' => SMALL_M,
        b's' => SMALL_S,
        b'S' => CAPITAL_S,
        b'n' => SMALL_N,
        b'x' => SMALL_X,
        b'Z' => CAPITAL_Z,
        _ => java_refused_rows(byte),
    }
}

/// The bytes that select rows.
#[tactic(auto, unfolding(crate::specs::Java::java_groups, crate::specs::JavaRefused::java_refused))]
pub fn java_keys() -> &'static [u8]
    ensures { result.now ≡ keys_of java_groups }
{
    KEYS
}

const KEYS: &[u8] = b"uyMLdDEecaHhmsSnxZBKkANgYwWFQqGVvzOXpbfijlortCIJPRTU[]#{}";

const SMALL_U: &[Row] = &[
    row!("uuuuuuuuuu" refused TooManyLetters),
    row!("uuuuuuuuu" => "00000[year]"),
    row!("uuuuuuuu" => "0000[year]"),
    row!("uuuuuuu" => "000[year]"),
    row!("uuuuuu" => "00[year]"),
    row!("uuuuu" => "0[year]"),
    row!("uuuu" => "[year]"),
    row!("uuu" => "[year padding:none]" within YearsFrom100),
    row!("uu" => "[year repr:last_two]"),
    row!("u" => "[year padding:none]"),
];

const SMALL_Y: &[Row] = &[
    row!("yyyyyyyyyy" refused TooManyLetters),
    row!("yyyyyyyyy" => "00000[year]" within YearsFrom1),
    row!("yyyyyyyy" => "0000[year]" within YearsFrom1),
    row!("yyyyyyy" => "000[year]" within YearsFrom1),
    row!("yyyyyy" => "00[year]" within YearsFrom1),
    row!("yyyyy" => "0[year]" within YearsFrom1),
    row!("yyyy" => "[year]" within YearsFrom1),
    row!("yyy" => "[year padding:none]" within YearsFrom100),
    row!("yy" => "[year repr:last_two]" within YearsFrom1),
    row!("y" => "[year padding:none]" within YearsFrom1),
];

const CAPITAL_M: &[Row] = &[
    row!("MMMMMM" refused TooManyLetters),
    row!("MMMMM" refused NarrowName),
    row!("MMMM" => "[month repr:long]"),
    row!("MMM" => "[month repr:short]"),
    row!("MM" => "[month]"),
    row!("M" => "[month padding:none]"),
];

const CAPITAL_L: &[Row] = &[
    row!("LLLLLL" refused TooManyLetters),
    row!("LLLLL" refused NarrowName),
    row!("LLLL" => "[month repr:long]"),
    row!("LLL" => "[month repr:short]"),
    row!("LL" => "[month]"),
    row!("L" => "[month padding:none]"),
];

const SMALL_D: &[Row] = &[
    row!("ddd" refused TooManyLetters),
    row!("dd" => "[day]"),
    row!("d" => "[day padding:none]"),
];

const CAPITAL_D: &[Row] = &[
    row!("DDDD" refused TooManyLetters),
    row!("DDD" => "[ordinal]"),
    row!("DD" refused VariableWidth),
    row!("D" => "[ordinal padding:none]"),
];

const CAPITAL_E: &[Row] = &[
    row!("EEEEEE" refused TooManyLetters),
    row!("EEEEE" refused NarrowName),
    row!("EEEE" => "[weekday]"),
    row!("EEE" => "[weekday repr:short]"),
    row!("EE" => "[weekday repr:short]"),
    row!("E" => "[weekday repr:short]"),
];

const SMALL_E: &[Row] = &[
    row!("eeeeee" refused TooManyLetters),
    row!("eeeee" refused NarrowName),
    row!("eeee" => "[weekday]"),
    row!("eee" => "[weekday repr:short]"),
    row!("ee" refused LocalWeek),
    row!("e" refused LocalWeek),
];

const SMALL_C: &[Row] = &[
    row!("cccccc" refused TooManyLetters),
    row!("ccccc" refused NarrowName),
    row!("cccc" => "[weekday]"),
    row!("ccc" => "[weekday repr:short]"),
    row!("cc" refused TooManyLetters),
    row!("c" refused LocalWeek),
];

const SMALL_A: &[Row] = &[row!("aa" refused TooManyLetters), row!("a" => "[period]")];

const CAPITAL_H: &[Row] = &[
    row!("HHH" refused TooManyLetters),
    row!("HH" => "[hour]"),
    row!("H" => "[hour padding:none]"),
];

const SMALL_H: &[Row] = &[
    row!("hhh" refused TooManyLetters),
    row!("hh" => "[hour repr:12]"),
    row!("h" => "[hour repr:12 padding:none]"),
];

const SMALL_M: &[Row] = &[
    row!("mmm" refused TooManyLetters),
    row!("mm" => "[minute]"),
    row!("m" => "[minute padding:none]"),
];

const SMALL_S: &[Row] = &[
    row!("sss" refused TooManyLetters),
    row!("ss" => "[second]"),
    row!("s" => "[second padding:none]"),
];

const CAPITAL_S: &[Row] = &[
    row!("SSSSSSSSSS" refused TooManyLetters),
    row!("SSSSSSSSS" => "[subsecond digits:9]"),
    row!("SSSSSSSS" => "[subsecond digits:8]"),
    row!("SSSSSSS" => "[subsecond digits:7]"),
    row!("SSSSSS" => "[subsecond digits:6]"),
    row!("SSSSS" => "[subsecond digits:5]"),
    row!("SSSS" => "[subsecond digits:4]"),
    row!("SSS" => "[subsecond digits:3]"),
    row!("SS" => "[subsecond digits:2]"),
    row!("S" => "[subsecond digits:1]"),
];

const SMALL_N: &[Row] = &[
    row!("nnnnnnnnnn" refused TooManyLetters),
    row!("nnnnnnnnn" => "[subsecond digits:9]"),
    row!("nnnnnnnn" refused VariableWidth),
    row!("nnnnnnn" refused VariableWidth),
    row!("nnnnnn" refused VariableWidth),
    row!("nnnnn" refused VariableWidth),
    row!("nnnn" refused VariableWidth),
    row!("nnn" refused VariableWidth),
    row!("nn" refused VariableWidth),
    row!("n" refused VariableWidth),
];

const SMALL_X: &[Row] = &[
    row!("xxxxxx" refused TooManyLetters),
    row!("xxxxx" => "[offset_hour \
        sign:mandatory]:[offset_minute]" within WholeMinutes),
    row!("xxxx" => "[offset_hour \
        sign:mandatory][offset_minute]" within WholeMinutes),
    row!("xxx" => "[offset_hour sign:mandatory]:[offset_minute]"),
    row!("xx" => "[offset_hour sign:mandatory][offset_minute]"),
    row!("x" refused VariableOffset),
];

const CAPITAL_Z: &[Row] = &[
    row!("ZZZZZZ" refused TooManyLetters),
    row!("ZZZZZ" refused ZForUtc),
    row!("ZZZZ" refused GmtOffset),
    row!("ZZZ" => "[offset_hour sign:mandatory][offset_minute]"),
    row!("ZZ" => "[offset_hour sign:mandatory][offset_minute]"),
    row!("Z" => "[offset_hour sign:mandatory][offset_minute]"),
];
