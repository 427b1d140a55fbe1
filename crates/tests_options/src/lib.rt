//! Options by name, names of a caller, and texts as they are written in files.
#![tactic(auto)]

pub mod names;
pub mod options;
pub mod pictures;

pub use names::Names;
pub use options::OptionSet;
pub use pictures::add_decoded;
