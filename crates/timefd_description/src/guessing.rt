//! Finds the descriptions that texts of dates and times may be written by. They come from a table: those
//! that read each text and write it back, likeliest first.

mod candidate;
mod candidates;
mod comes_back;
mod guessing;
mod swapped;

pub use guessing::{Guess, MOST, guesses};
