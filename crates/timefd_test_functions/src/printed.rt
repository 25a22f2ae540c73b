//! What a value prints, to compare it with what is expected.

use std::alloc::Global;
use std::fmt::Debug;
use std::process::Abort;

/// What a test says if an allocation fails.
pub const AMPLE: &str = "memory suffices";

/// Expects what the value prints.
pub fn expect_printed<T: Debug>(rt: &impl Abort, alloc: Global, value: &T, expected: &str) {
    let printed = format!(in alloc; "{value:?}").expect(rt, AMPLE);
    assert_eq!(rt; printed.as_str(), expected);
}
