//! Block constructs: their states, the machines that read them, and their resolvers.
//!
//! [`Contents`] reads paragraphs with the definitions at their front, [`Flows`] the blocks outside
//! containers, and [`Blocks`] the lines of a document, whose flow a [`FlowReader`] reads. A state is
//! called with a tokenizer of `markdown_engine`, and returns the state that reads on. A resolver
//! edits the events that states have added. [`parse_by_machines`] reads a text by all of them.
//!
//! The modules have the names of the files of the Rust crate `markdown`.
#![tactic(auto)]

pub use state_containers::{block_quote, frontmatter, gfm_footnote_definition, partial_bom};
pub use state_content::contents::Contents;
pub use state_content::{definition, paragraph};
pub use state_document::blocks::Blocks;
pub use state_document::line_reader::LineReader;
pub use state_flow::flow;
pub use state_flow::flows::Flows;
pub use state_flow_html::html_flow;
pub use state_flow_leaves::{
    blank_line, code_indented, partial_non_lazy_continuation, raw_flow, thematic_break,
};
pub use state_parser::{parse_by_machines, parse_in_ranges};
pub use state_reader::reader::FlowReader;

/// Lines of a paragraph, with definitions at their front (CommonMark 4.7 and 4.8).
pub mod content {
    pub use state_block_resolvers::content::resolve_content as resolve;
    pub use state_content::content::{
        chunk_inside, chunk_start, definition_after, definition_before,
    };
}

/// The lines of a text: containers, and then flow.
pub mod document {
    pub use state_document::document::{
        before_frontmatter, container_existing_after, container_existing_before,
        container_new_after, container_new_before, container_new_before_not_block_quote,
        container_new_before_not_gfm_footnote_definition as container_new_before_not_footnote_definition,
        container_new_before_not_list, containers_after, flow_end, flow_inside, start,
    };
}

/// Tables (GFM 4.10).
pub mod gfm_table {
    pub use state_block_resolvers::resolving::resolve_gfm_table as resolve;
    pub use state_flow_table::gfm_table::{
        body_row_break, body_row_data, body_row_escape, body_row_start, head_delimiter_before,
        head_delimiter_cell_after, head_delimiter_cell_before, head_delimiter_filler,
        head_delimiter_left_alignment_after, head_delimiter_nok,
        head_delimiter_right_alignment_after, head_delimiter_start, head_delimiter_value_before,
        head_row_before, head_row_break, head_row_data, head_row_escape, head_row_start, start,
    };
}

/// ATX headings (CommonMark 4.2).
pub mod heading_atx {
    pub use state_block_resolvers::resolving::resolve_heading_atx as resolve;
    pub use state_flow_leaves::heading_atx::{
        at_break, before, data, sequence_further, sequence_open, start,
    };
}

/// Setext headings (CommonMark 4.3): their underlines, as states.
pub mod heading_setext {
    pub use state_block_resolvers::resolving::resolve_heading_setext as resolve;
    pub use state_flow_table::heading_setext::{after, before, inside, start};
}

/// List items (CommonMark 5.2) and lists (5.3).
pub mod list_item {
    pub use state_block_resolvers::resolving::resolve_list_item as resolve;
    pub use state_containers::list_item::{
        after, before, before_ordered, before_unordered, cont_blank, cont_filled, cont_start,
        marker, marker_after, marker_after_filled, prefix_other, start, value, whitespace,
        whitespace_after,
    };
}
