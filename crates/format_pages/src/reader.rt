//! How texts are read and compared by options.
ghost use Rattle.format_pages.specs.Known.{IsKept};

use crate::closed::closed;
use crate::constructs::{by_every, by_plain};
use crate::known::Known;
use format_search::{ReadText, Reader};
use markdown::{fits, to_html_with_options};
use markdown_compile_options::Options;
use markdown_tables::Builtin;
use parse_events::parse;
use std::alloc::{AllocError, Global};

/// Reads and compares texts by options, with the built-in tables.
#[derive(Drop)]
pub struct ByOptions<'o> {
    /// The allocator.
    pub alloc: Global,
    /// The options. With a construct of MDX no text can be read.
    pub options: &'o Options,
    /// What is known of the text that is edited.
    pub known: &'o Known,
}

/// Reads a text with every construct, whatever the options: so math, footnotes and metadata are seen as what
/// they are. The constructs that the options don't have are closed to edits. Returns none if the text can't be
/// read: it is too large, or a construct of MDX is on.
pub fn read_by(
    alloc: Global,
    text: &str,
    options: &Options,
) -> Result<Option<ReadText>, AllocError> {
    if text.len() > parse_events::SIZE_MAX || options.has_mdx() {
        return Ok(None);
    }
    let every = by_every(options);
    let Ok((events, state)) = parse(alloc, text, &every.parse, &Builtin) else {
        return Err(AllocError);
    };
    let footnotes = state.gfm_footnote_definitions;
    let closed = closed(alloc, text, &events, &footnotes, &options.parse.constructs)?;
    Ok(Some(ReadText { events, closed }))
}

impl<'o> Reader for ByOptions<'o> {
    ghost is_kept = { λ reader text. IsKept reader.known.now text reader.options.now };

    fn read(&self, text: &str) -> Result<Option<ReadText>, AllocError> {
        read_by(self.alloc, text, self.options)
    }

    fn is_same(&self, text: &str) -> Result<bool, AllocError> {
        if self.options.has_mdx() {
            return Ok(false);
        }
        match self.known.is_same(self.alloc, text, self.options) {
            Ok(same) => Ok(same),
            Err(_) => Err(AllocError),
        }
    }

    fn have_same_pages(&self, one: &str, other: &str) -> Result<bool, AllocError> {
        Ok(
            self.have_same_page(one, other, self.options)?
                && self.have_same_page(one, other, &by_every(self.options))?
                && self.have_same_page(one, other, &by_plain(self.options))?,
        )
    }
}

impl<'o> ByOptions<'o> {
    /// Whether two texts have the same page by options.
    fn have_same_page(&self, one: &str, other: &str, by: &Options) -> Result<bool, AllocError> {
        if !fits(one) || !fits(other) || by.has_mdx() {
            return Ok(false);
        }
        match (
            to_html_with_options(self.alloc, one, by),
            to_html_with_options(self.alloc, other, by),
        ) {
            (Ok(page), Ok(wanted)) => Ok(page == wanted),
            _ => Err(AllocError),
        }
    }
}
