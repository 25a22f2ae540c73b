//! Runs over memory, and what no contract says: statuses, and failures one by one.

mod arguments;
mod failures;
mod memory;
mod program;
mod rows;
mod streams;
