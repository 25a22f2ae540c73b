//! Laws of the languages, for a reader who wants to know what the definitions say without reading
//! them. There is a law for each rule about brackets, escapes and directives, as on the page on the
//! languages. Each law is the contract of a function with an empty body.
#![tactic(auto)]

pub mod answers;
pub mod brackets;
pub mod directives;
pub mod escapes;
pub mod examples;
pub mod modifiers;
pub mod names;
pub mod nests;
pub mod words;

// What is written is read back, and which fault a text has that isn't read.
pub mod reading;
