//! Edits that make links: of labels, of autolinks, of email addresses among data.
#![tactic(auto)]

pub mod autolink;
pub mod gfm_autolink_literal;
pub mod label_end;
