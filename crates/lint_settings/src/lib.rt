//! What the linter is asked for: by the words of its command line, and by its file of settings.
//!
//!     markdown-lint [--gfm] [--frontmatter] [--math] [--mark] [--all] [--disable RULE].. [--only RULE]..
//!         [--siblings] [--line-length NUMBER] [--columns bytes|characters] [--ignore NAME]..
//!         [--config FILE] [--fix] [--json] [--help] [--version] [--] [FILE..]
#![tactic(auto)]

pub mod config;
mod help;
pub mod options;
pub mod refusal;
pub mod request;

pub use config::options_of_config;
pub use options::Options;
pub use refusal::Refusal;
pub use request::Request;
