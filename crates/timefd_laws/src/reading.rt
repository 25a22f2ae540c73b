//! Laws of reading: a text that is written for a moment is read back as that moment, and a text that can't be
//! read has exactly one fault.

pub mod again_laws;
pub mod examples;
pub mod fault_laws;
pub mod laws;
pub mod stamped_laws;
pub mod value_laws;
pub mod written_examples;
pub mod written_laws;

pub use timefd_lang_warnings::settled::Bound;
