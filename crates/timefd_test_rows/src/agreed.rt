//! Two calls that have to return the same answer.

use crate::fault::RowFault;
use std::alloc::Global;

/// The answer that both calls give, or both answers.
pub fn agreed(alloc: Global, first: String, second: &str) -> Result<String, RowFault> {
    if first.as_str() == second {
        Ok(first)
    } else {
        Ok(format!(in alloc; "{first}, but {second}")?)
    }
}
