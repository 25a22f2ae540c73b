//! Dates read by the nodes of a description, as C has them, at once: without memory, and without the list
//! of fields. It is for nodes that are numbers of two and four digits, and literal texts. The crate
//! `timefd_c` tries it first, and reads by everything else.

mod fast;

pub use fast::moment_shown;
