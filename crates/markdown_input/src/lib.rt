//! What the programs beside `markdown` share: flags, faults, files of settings, and how words and texts are
//! read and written.
#![tactic(auto)]

pub mod below;
pub mod config;
pub mod fault;
pub mod flags;
pub mod read;
pub mod write;

pub use below::markdown_files;
pub use config::{Config, ConfigFault, config_file};
pub use fault::Fault;
pub use flags::Flags;
pub use read::{STANDARD_INPUT, is_flag, text, words};
pub use write::replace;
