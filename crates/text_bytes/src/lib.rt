//! Bytes of texts.
#![tactic(auto)]

mod bytes;
mod front;
mod runs;

pub use bytes::{
    holds, is_blank, is_one_of, is_short_one_of, is_space, is_space_or_tab, may_escape,
    without_slash,
};
pub use front::{begins_with_letter, run, space_size, white_size, word_size};
pub use runs::{is_run, lacks, split_run};
