//! Inline constructs: their states, the machine that reads them, and tools for labels and
//! character references.
//!
//! [`Inlines`] reads texts and strings. A state is called with a tokenizer of `markdown_engine`, and
//! returns the state that reads on.
//!
//! The modules have the names of the files of the Rust crate `markdown`.
#![tactic(auto)]

mod label;
pub mod partial_space_or_tab;
pub mod partial_space_or_tab_eol;

pub use label::{Piece, label_text};
pub use state_gfm::{gfm_label_start_footnote, gfm_task_list_item_check};
pub use state_html::{autolink, html_text};
pub use state_inline::inlines::Inlines;
pub use state_labels::{
    label_start_image, label_start_link, partial_destination, partial_label, partial_title,
};
pub use state_leaves::{character_escape, hard_break_escape, raw_text};

/// Runs of `*`, `_`, `~` and `=` (CommonMark 6.2, GFM 6.5).
pub mod attention {
    pub use state_leaves::attention::{inside, start};
    pub use state_resolvers::resolving::resolve_attention as resolve;
}

/// Character references (CommonMark 2.5): states, and tools on values and texts.
pub mod character_reference {
    pub use inline_references::decode::decode;
    pub use inline_references::parse::parse;
    pub use inline_references::{decode_named, decode_numeric, value_max, value_test};
    pub use state_leaves::character_reference::{numeric, open, start, value};
}

/// Links without brackets (GFM 6.9).
pub mod gfm_autolink_literal {
    pub use state_gfm::gfm_autolink_literal::{
        domain_after, domain_at_punctuation, domain_inside, path_after, path_at_punctuation,
        path_inside, protocol_after, protocol_prefix_inside, protocol_slashes_inside,
        protocol_start, trail, trail_bracket_after, trail_char_ref_inside, trail_char_ref_start,
        www_after, www_prefix_after, www_prefix_inside, www_start,
    };
    pub use state_resolvers::resolving::link_text as resolve;
}

/// Ends of links, images and footnote calls (CommonMark 6.3, 6.4).
pub mod label_end {
    pub use state_label_ends::label_end::{
        after, nok, ok, reference_collapsed, reference_collapsed_open, reference_full,
        reference_full_after, reference_full_missing, reference_not_full, resource_before,
        resource_between, resource_destination_after, resource_destination_missing, resource_end,
        resource_open, resource_start, resource_title_after, start,
    };
    pub use state_resolvers::resolving::resolve_label as resolve;
}

/// Labels in the form in which they match (CommonMark 6.3).
pub mod normalize_identifier {
    pub use inline_labels::normalize_identifier;
}

/// Bytes of texts and strings that are no other construct.
pub mod partial_data {
    pub use state_leaves::partial_data::{at_break, inside, start};
    pub use state_resolvers::resolving::resolve_data as resolve;
}

/// White space at the ends of lines (CommonMark 4.8, 6.7).
pub mod partial_whitespace {
    pub use state_resolvers::resolving::resolve_whitespace;
}

/// Strings: of titles, destinations, labels, infos.
pub mod string {
    pub use state_inline::string::{before, before_data, start};
    pub use state_resolvers::resolving::resolve_string as resolve;
}

/// Texts: of paragraphs, headings, cells, labels and what is emphasized.
pub mod text {
    pub use state_inline::inlines::start_text as start;
    pub use state_inline::text::{
        before, before_data, before_hard_break_escape, before_html, before_label_start_link,
    };
    pub use state_resolvers::resolving::resolve_text as resolve;
}
