//! Links with no brackets (GFM 6.9).
#![tactic(auto)]

pub mod address;
pub mod gfm_autolink_literal;
mod name;
pub mod names_in_vain;

pub use address::{FoundAddress, first_address};
pub use gfm_autolink_literal::literal_at;
pub use names_in_vain::NamesInVain;
