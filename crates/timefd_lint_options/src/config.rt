//! Reads a file of settings, in TOML: keys, what is passed over, the levels of warnings, and calls.

mod borrowed;
mod calls;
mod config;
mod error;
mod exclude;
mod keys;
mod language;
mod levels;
mod over;

pub use borrowed::{same_keys, with_keys};
pub use config::{Config, config_of};
pub use error::ConfigError;
pub use keys::OwnedKey;
pub use over::with_levels;
