//! Reads the command line.
#![tactic(auto)]

mod command;
mod flags;
mod help;
mod read;
pub mod settings_error;

pub use flags::Settings;
pub use help::{HELP, VERSION};
pub use read::settings;
pub use settings_error::SettingsError;
