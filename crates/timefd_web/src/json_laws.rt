//! Laws on what is written as JSON and as SARIF: it is JSON by the definition of the toolchain's `json`, and
//! the texts in it read back. Each law is the contract of a function with an empty body.

pub mod laws;
