//! A description that dates and times are often written by.

/// A description that dates and times are often written by.
#[derive(Clone, Copy)]
pub struct Candidate {
    /// The description, in version 3.
    pub description: &'static str,
    /// The description with day and month swapped, such as `[month]/[day]/[year]` for
    /// `[day]/[month]/[year]`: only the texts can show which of the two is meant. `None` if the order is
    /// in no doubt, as after a year.
    pub swapped: Option<&'static str>,
}

macro_rules! candidate {
    ($description:literal) => {
        Candidate {
            description: $description,
            swapped: None,
        }
    };
    ($description:literal, swapped $other:literal) => {
        Candidate {
            description: $description,
            swapped: Some($other),
        }
    };
}

pub(crate) use candidate;
