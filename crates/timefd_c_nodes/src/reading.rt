//! Texts read as nodes, for programs in C. The nodes are written while the text is read, and
//! nothing else is built, except where a text of version 3 nests descriptions. This is an addition
//! of this port; the crate `timefd_c` exports it to C.

mod composite;
pub mod laws;
mod leaf;
mod nested;
mod progress;
mod reading;
mod report;
mod strftime;
mod text;
mod version;
mod version_three;

pub use composite::COMPOSITES;
pub use reading::{read, read_composites, read_within};
pub use report::ReadReport;
pub use text::text_of;
