//! Rows of strftime that several dialects share. `tables/write` writes them.

use crate::reason::Reason;
use crate::row::{NotBefore, Range, Row, Verdict, row};

pub const SMALL_D: &[Row] = &[row!("%d" => "[day]")];

pub const CAPITAL_H: &[Row] = &[row!("%H" => "[hour]")];

pub const CAPITAL_I: &[Row] = &[row!("%I" => "[hour repr:12]")];

pub const SMALL_J: &[Row] = &[row!("%j" => "[ordinal]")];

pub const SMALL_M: &[Row] = &[row!("%m" => "[month]")];

pub const CAPITAL_M: &[Row] = &[row!("%M" => "[minute]")];

pub const CAPITAL_S: &[Row] = &[row!("%S" => "[second]")];

pub const CAPITAL_U: &[Row] = &[row!("%U" => "[week_number repr:sunday]")];

pub const CAPITAL_V: &[Row] = &[row!("%V" => "[week_number]")];

pub const CAPITAL_W: &[Row] = &[row!("%W" => "[week_number repr:monday]")];

pub const SMALL_Y: &[Row] = &[row!("%y" => "[year repr:last_two]")];

pub const CAPITAL_Y: &[Row] = &[row!("%Y" => "[year]")];

pub const CAPITAL_G: &[Row] = &[row!("%G" => "[year base:iso_week]" within YearsFrom1)];

pub const SMALL_U: &[Row] = &[row!("%u" => "[weekday repr:monday]")];

pub const SMALL_W: &[Row] = &[row!("%w" => "[weekday repr:sunday one_indexed:false]")];

pub const SMALL_A: &[Row] = &[row!("%a" => "[weekday repr:short]")];

pub const CAPITAL_A: &[Row] = &[row!("%A" => "[weekday]")];

pub const SMALL_B: &[Row] = &[row!("%b" => "[month repr:short]")];

pub const CAPITAL_B: &[Row] = &[row!("%B" => "[month repr:long]")];

pub const SMALL_P: &[Row] = &[row!("%p" => "[period]")];

pub const PERCENT_SIGN: &[Row] = &[row!("%%" => "%")];

pub const SMALL_Z: &[Row] = &[
    row!("%z" => "[offset_hour sign:mandatory][offset_minute]" within WholeMinutes),
];

pub const COLON: &[Row] = &[
    row!("%:::z" refused VariableOffset),
    row!("%::z" => "[offset_hour sign:mandatory]:[offset_minute]:[offset_second]"),
    row!("%:z" => "[offset_hour sign:mandatory]:[offset_minute]"),
];

pub const CAPITAL_Z: &[Row] = &[row!("%Z" refused ZoneName)];

pub const SMALL_E: &[Row] = &[row!("%e" => "[day padding:space]")];

pub const SMALL_K: &[Row] = &[row!("%k" => "[hour padding:space]")];

pub const SMALL_L: &[Row] = &[row!("%l" => "[hour repr:12 padding:space]")];

pub const SMALL_G: &[Row] = &[row!("%g" => "[year repr:last_two base:iso_week]" within YearsFrom1)];

pub const CAPITAL_C: &[Row] = &[row!("%C" => "[year repr:century]")];

pub const SMALL_H: &[Row] = &[row!("%h" => "[month repr:short]")];

pub const CAPITAL_P: &[Row] = &[row!("%P" => "[period case:lower]")];

pub const CAPITAL_D: &[Row] = &[row!("%D" => "[month]/[day]/[year repr:last_two]")];

pub const CAPITAL_F: &[Row] = &[row!("%F" => "[year]-[month]-[day]")];

pub const SMALL_R: &[Row] = &[row!("%r" => "[hour repr:12]:[minute]:[second] [period]")];

pub const CAPITAL_R: &[Row] = &[row!("%R" => "[hour]:[minute]")];

pub const CAPITAL_T: &[Row] = &[row!("%T" => "[hour]:[minute]:[second]")];

pub const SMALL_N: &[Row] = &[row!("%n" => "\n")];

pub const SMALL_T: &[Row] = &[row!("%t" => "\t")];

pub const SMALL_S: &[Row] = &[row!("%s" => "[unix_timestamp]")];

pub const CAPITAL_E: &[Row] = &[
    row!("%Ec" => "[weekday repr:short] [month repr:short] [day padding:space] \
        [hour]:[minute]:[second] [year]" within YearsFrom1000),
    row!("%EC" => "[year repr:century]" within YearsFrom1000),
    row!("%Ex" => "[month]/[day]/[year repr:last_two]"),
    row!("%EX" => "[hour]:[minute]:[second]"),
    row!("%Ey" => "[year repr:last_two]"),
    row!("%EY" => "[year]" within YearsFrom1000),
];

pub const CAPITAL_O: &[Row] = &[
    row!("%Od" => "[day]"),
    row!("%OH" => "[hour]"),
    row!("%OI" => "[hour repr:12]"),
    row!("%OM" => "[minute]"),
    row!("%OS" => "[second]"),
    row!("%OU" => "[week_number repr:sunday]"),
    row!("%OV" => "[week_number]"),
    row!("%OW" => "[week_number repr:monday]"),
    row!("%Om" => "[month]"),
    row!("%Ou" => "[weekday repr:monday]"),
    row!("%Ow" => "[weekday repr:sunday one_indexed:false]"),
    row!("%Oy" => "[year repr:last_two]"),
    row!("%Oe" => "[day padding:space]"),
    row!("%Ok" => "[hour padding:space]"),
    row!("%Ol" => "[hour repr:12 padding:space]"),
];

pub const SMALL_C: &[Row] = &[
    row!("%c" => "[weekday repr:short] [month repr:short] [day padding:space] \
        [hour]:[minute]:[second] [year]" within YearsFrom1000),
];

pub const SMALL_X: &[Row] = &[row!("%x" => "[month]/[day]/[year repr:last_two]")];

pub const CAPITAL_X: &[Row] = &[row!("%X" => "[hour]:[minute]:[second]")];

pub const CAPITAL_N: &[Row] = &[row!("%N" => "[subsecond digits:9]")];

pub const SMALL_Q: &[Row] = &[row!("%q" refused Quarter)];
