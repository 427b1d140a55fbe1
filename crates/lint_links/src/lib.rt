//! The rules of the linter on links and images, one file each.
#![tactic(auto)]

mod bare_url;
mod decoded;
mod empty_link;
pub mod fragments;
mod html_id;
pub mod missing_file;
mod missing_fragment;
mod no_alt_text;
mod reversed_link;
mod rules;
mod target;

pub use fragments::Fragments;
pub use missing_file::Folder;
pub use rules::LinkRules;
