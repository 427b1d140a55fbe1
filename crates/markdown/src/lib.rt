//! Markdown to safe HTML.
//!
//! Start with [`to_html`]. [`fits`] tests its only condition.
//!
//!     let text = "# Hello, *world*!";
//!     if fits(text) {
//!         let page = to_html(rt.alloc(), text)?; // <h1>Hello, <em>world</em>!</h1>
//!     }
//!
//! All calls and their types are exported here. The modules have the names of the files of the
//! Rust crate `markdown`.
#![tactic(auto)]

mod command;
mod convert;
mod entry;
mod transfer;

pub use command::program;
pub use convert::{fits, to_html, to_html_with_options, to_html_with_tables};
pub use entry::start;
pub use html_safe_page::{TagTable, is_safe_page, is_safe_page_by};
pub use markdown_compile_options::{CompileOptions, Options};
pub use markdown_devices::{RunError, SIZE_MAX, Watched};
pub use markdown_options::{
    Constructs, LineEnding, LineEndingError, Message, ParseOptions, Place, Tables,
    constants as constant, line_ending, message, unist,
};
pub use markdown_settings::{Settings, SettingsError, settings};
pub use markdown_tables::{Builtin, Rows, RowsError};
pub use transfer::run;

/// Character references (CommonMark 2.5).
pub mod character_reference {
    pub use inline_references::decode::decode;
    pub use inline_references::parse::parse;
    pub use inline_references::{decode_named, decode_numeric, value_max, value_test};
}

/// Which constructs are on, how a text is read, and how its HTML is printed.
pub mod configuration {
    pub use markdown_compile_options::{CompileOptions, Options};
    pub use markdown_options::{Constructs, ParseOptions};
}

/// Text encoded as HTML.
pub mod encode {
    pub use html_escape::encode::encode;
}

/// Raw HTML with `&lt;` for the `<` of some tags (GFM 6.11).
pub mod gfm_tagfilter {
    pub use html_escape::gfm_tagfilter;
}

/// Alignments of the columns of tables (GFM 4.10).
pub mod mdast {
    pub use markdown_options::AlignKind;
}

/// Labels in the form in which they match (CommonMark 6.3).
pub mod normalize_identifier {
    pub use inline_labels::normalize_identifier;
}

/// URLs as values of attributes.
pub mod sanitize_uri {
    pub use html_escape::url::{sanitize, sanitize_with_protocols};
}
