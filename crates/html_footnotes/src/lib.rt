//! Footnotes as HTML: their calls, and the section at a page's end.
#![tactic(auto)]

mod calls;
pub mod fresh;
pub mod gfm_footnote_definition;
pub mod gfm_label_start_footnote;
pub mod ids;
pub mod output;

pub use fresh::push_fresh;
pub use gfm_footnote_definition::{Footnote, push_section};
pub use gfm_label_start_footnote::{Call, push_call};
pub use ids::{heading_prefix, text_or};
pub use output::Output;
