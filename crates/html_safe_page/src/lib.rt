//! Safe HTML pages: a test, and the law that a page has at most one reading.
#![tactic(auto)]

mod letters;
mod page;
mod table;
mod tags;

pub use page::{
    closure_law, is_safe_page, is_safe_page_by, one_reading_law, unsafe_place, unsafe_place_by,
};
pub use table::TagTable;
