//! Small programs over the library: standard input as a page with each feature or, by a word, something else.
//!
//! `comments` prints each line as an article, `defaults` compares the two calls on each line, and `events`
//! prints a text whose events were changed.
#![tactic(auto)]

mod article;
mod by_default;
mod comments;
mod lowered;
mod page;

use by_default::print_compared;
use comments::print_comments;
use lowered::print_lowered;
use markdown::RunError;
use page::print_page;
use std::env;

fn main(rt: HostRuntime) -> Result<(), RunError> {
    for word in env::args(&rt).map_err(RunError::Read)?.skip(1) {
        match word.as_str() {
            "comments" => return print_comments(&rt),
            "defaults" => return print_compared(&rt),
            "events" => return print_lowered(&rt),
            _ => {}
        }
    }
    print_page(&rt)
}
