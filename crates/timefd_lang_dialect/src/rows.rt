//! The rows of each dialect. `tables/write` writes this file.

ghost use Rattle.std.specs.Prelude.{◌≡◌};
ghost use Rattle.timefd_lang_dialect.specs.Groups.{keys_of, rows_at};
ghost use Rattle.timefd_lang_dialect.specs.Rows.{entries};
ghost use Rattle.timefd_lang_dialect.specs.Tables.{groups_of};

use crate::dialect::Dialect;
use crate::row::Row;
use crate::tables::c::{c_keys, c_rows};
use crate::tables::chrono::{chrono_keys, chrono_rows};
use crate::tables::gnu::{gnu_keys, gnu_rows};
use crate::tables::go::{go_keys, go_rows};
use crate::tables::java::{java_keys, java_rows};
use crate::tables::jiff::{jiff_keys, jiff_rows};
use crate::tables::moment::{moment_keys, moment_rows};
use crate::tables::python::{python_keys, python_rows};
use crate::tables::ruby::{ruby_keys, ruby_rows};

impl Dialect {
    /// The rows that this byte selects, the longest first.
    pub fn rows_at(self, byte: u8) -> &'static [Row]
        ensures { entries result.now ≡ rows_at byte (groups_of self) }
    {
        match self {
            Dialect::Python => python_rows(byte),
            Dialect::C => c_rows(byte),
            Dialect::Gnu => gnu_rows(byte),
            Dialect::Chrono => chrono_rows(byte),
            Dialect::Jiff => jiff_rows(byte),
            Dialect::Ruby => ruby_rows(byte),
            Dialect::Java => java_rows(byte),
            Dialect::Go => go_rows(byte),
            Dialect::Moment => moment_rows(byte),
        }
    }

    /// The bytes that select rows.
    pub fn keys(self) -> &'static [u8]
        ensures { result.now ≡ keys_of (groups_of self) }
    {
        match self {
            Dialect::Python => python_keys(),
            Dialect::C => c_keys(),
            Dialect::Gnu => gnu_keys(),
            Dialect::Chrono => chrono_keys(),
            Dialect::Jiff => jiff_keys(),
            Dialect::Ruby => ruby_keys(),
            Dialect::Java => java_keys(),
            Dialect::Go => go_keys(),
            Dialect::Moment => moment_keys(),
        }
    }
}
