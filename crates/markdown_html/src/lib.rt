//! Events to HTML: [`compile`] and [`compile_checked`], a text to HTML by way of its events
//! ([`to_html_by_events`]), and the tools for a page of one's own.
//!
//!     let (events, _) = parse(rt.alloc(), text, &ParseOptions::default(), &Builtin)?;
//!     let html = compile(rt.alloc(), &events, text.as_bytes(), &CompileOptions::default(), &Builtin)?;
//!
//! All calls and their types are exported here. The modules have the names of the files of the Rust
//! crate `markdown`.
#![tactic(auto)]

pub mod page;

pub use compile_html::{compile, compile_checked};
pub use event_check::{
    Checked, CompileError, check_events, gfm_table_align, list_item_loose, list_loose,
};
pub use event_faults::{EventFault, FaultKind};
pub use html_escape::encode::encode;
pub use html_escape::{gfm_tagfilter, sanitize, sanitize_with_protocols};
pub use markdown_compile_options::{CompileOptions, Options};
pub use markdown_options::{AlignKind, LineEnding, Message, Tables};
pub use markdown_tables::Builtin;
pub use page::to_html_by_events;
pub use parse_events::SIZE_MAX;

/// A list of events to HTML, and lists that are refused.
pub mod to_html {
    pub use compile_html::{compile, compile_checked};
    pub use event_check::{Checked, CompileError, check_events};
    pub use event_faults::{EventFault, FaultKind};
}

/// Tools for a page of one's own.
pub mod util {
    /// Text as HTML.
    pub mod encode {
        pub use html_escape::encode::encode;
    }

    /// Tags that are printed as text (GFM 6.11).
    pub mod gfm_tagfilter {
        pub use html_escape::gfm_tagfilter;
    }

    /// Whether a list or an item is loose, and the alignments of a table, in a checked list.
    pub mod infer {
        pub use event_check::{gfm_table_align, list_item_loose, list_loose};
    }

    /// URLs whose protocol is allowed.
    pub mod sanitize_uri {
        pub use html_escape::{sanitize, sanitize_with_protocols};
    }
}
