//! Dates, times of day, offsets and instants: what they are written as, and what texts are read as.

mod answers;
mod beside_jiff;
mod calendar;
mod field_text;
mod instants;
mod jiff;
mod moments;
mod reading;
mod settled;
mod values;
mod writing;

use crate::fault::RowFault;
use beside_jiff::JiffAsk;
use calendar::CalendarAsk;
use instants::InstantAsk;
use reading::ReadingAsk;
use std::alloc::Global;
use writing::WritingAsk;

/// What is asked.
#[derive(Clone, Copy)]
pub enum DateAsk {
    Writing(WritingAsk),
    Reading(ReadingAsk),
    Calendar(CalendarAsk),
    Instant(InstantAsk),
    BesideJiff(JiffAsk),
    /// `settled LANGUAGES DESCRIPTION`: whether what it writes is read back.
    Settled,
}

impl DateAsk {
    /// The ask that the word names.
    pub fn of_word(word: &str) -> Option<DateAsk> {
        if word == "settled" {
            return Some(DateAsk::Settled);
        }
        if let Some(ask) = WritingAsk::of_word(word) {
            return Some(DateAsk::Writing(ask));
        }
        if let Some(ask) = ReadingAsk::of_word(word) {
            return Some(DateAsk::Reading(ask));
        }
        if let Some(ask) = CalendarAsk::of_word(word) {
            return Some(DateAsk::Calendar(ask));
        }
        if let Some(ask) = InstantAsk::of_word(word) {
            return Some(DateAsk::Instant(ask));
        }
        if let Some(ask) = JiffAsk::of_word(word) {
            return Some(DateAsk::BesideJiff(ask));
        }
        None
    }
}

/// The answer to the ask.
pub fn answer(alloc: Global, ask: DateAsk, fields: &[&str]) -> Result<String, RowFault> {
    match ask {
        DateAsk::Writing(ask) => writing::answer(alloc, ask, fields),
        DateAsk::Reading(ask) => reading::answer(alloc, ask, fields),
        DateAsk::Calendar(ask) => calendar::answer(alloc, ask, fields),
        DateAsk::Instant(ask) => instants::answer(alloc, ask, fields),
        DateAsk::BesideJiff(ask) => beside_jiff::answer(alloc, ask, fields),
        DateAsk::Settled => settled::answer(alloc, fields),
    }
}
