//! Whether a description is settled: it reads back everything that it writes, part by part.

mod bound;
mod components;
mod items;
mod view;

pub use bound::Bound;
pub use items::are_settled;
pub use view::is_settled;
