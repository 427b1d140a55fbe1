//! What the formatter is asked for: by the words of its command line, and by its file of settings.
//!
//!     markdown-fmt [--check] [--diff] [--padded-tables] [--hard-breaks=spaces|backslash]
//!         [--disable RULE].. [--enable RULE].. [--ignore NAME].. [--config FILE]
//!         [--gfm] [--frontmatter] [--math] [--mark] [--all] [--help] [--version] [--] [FILE..]
#![tactic(auto)]

pub mod command;
pub mod config;
mod help;
pub mod options;
pub mod refusal;

pub use command::Command;
pub use options::Options;
pub use refusal::Refusal;
