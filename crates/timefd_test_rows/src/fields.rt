//! The fields of a row, by how many an ask takes.

use crate::fault::RowFault;

/// The one field. Its name is for the fault.
pub fn one<'a>(fields: &[&'a str], name: &'static str) -> Result<&'a str, RowFault> {
    match fields {
        [field] => Ok(*field),
        _ => Err(RowFault::Fields(name)),
    }
}

/// The two fields. Their names are for the fault.
pub fn two<'a>(fields: &[&'a str], names: &'static str) -> Result<(&'a str, &'a str), RowFault> {
    match fields {
        [first, second] => Ok((*first, *second)),
        _ => Err(RowFault::Fields(names)),
    }
}

/// The three fields. Their names are for the fault.
pub fn three<'a>(
    fields: &[&'a str],
    names: &'static str,
) -> Result<(&'a str, &'a str, &'a str), RowFault> {
    match fields {
        [first, second, third] => Ok((*first, *second, *third)),
        _ => Err(RowFault::Fields(names)),
    }
}
