//! Kinds of HTML blocks, and the names that tell them (CommonMark 4.6).
ghost use Rattle.std.specs.Prelude.{◌≡◌};
ghost use Rattle.markdown_engine.specs.Machine.{bytes_of, config};
ghost use Rattle.state_flow_html.specs.HtmlNames.{ends_before_blank, is_block_name, is_cdata, is_raw_name, is_short_name, name_so_far};

use markdown_engine::tokenizer::Tokenizer;
use markdown_options::constants::{
    HTML_BLOCK_NAMES, HTML_CDATA_PREFIX, HTML_RAW_NAMES, HTML_RAW_SIZE_MAX,
};
use std::alloc::Allocator;
use text_bytes::is_one_of;

/// `<pre`, `<script`, `<style` or `<textarea`, up to a closing tag of one of them.
pub(crate) const RAW: u8 = 1;
/// A comment.
pub(crate) const COMMENT: u8 = 2;
/// An instruction, `<?`.
pub(crate) const INSTRUCTION: u8 = 3;
/// A declaration, `<!` and a letter.
pub(crate) const DECLARATION: u8 = 4;
/// `<![CDATA[`.
pub(crate) const CDATA: u8 = 5;
/// A tag of one of the names of blocks, up to a blank line.
pub(crate) const BASIC: u8 = 6;
/// Any other tag that stands alone, up to a blank line.
pub(crate) const COMPLETE: u8 = 7;

/// Whether a byte stands at an index of `CDATA[`.
pub(crate) fn is_cdata(index: usize, byte: u8) -> bool
    ensures { result ≡ is_cdata index byte }
{
    HTML_CDATA_PREFIX.get(index).copied() == Some(byte)
}

/// Whether a block of this kind ends before a blank line.
pub(crate) fn ends_before_blank<M, T, A: Allocator>(tokenizer: &Tokenizer<'_, M, T, A>) -> bool
    ensures { result ≡ ends_before_blank (config tokenizer.now) }
{
    tokenizer.tokenize_state.marker >= BASIC
}

/// The bytes of the name so far, which began at `start`.
fn name_so_far<'a, M, T, A: Allocator>(tokenizer: &Tokenizer<'a, M, T, A>) -> &'a [u8]
    ensures { result.now ≡ name_so_far (bytes_of tokenizer.now) (config tokenizer.now) }
{
    let (start, end) = (tokenizer.tokenize_state.start, tokenizer.point.index);
    let bytes = tokenizer.parse_state.bytes;
    if end < start || bytes.len() < end {
        return &[];
    }
    &bytes[start..end]
}

/// Whether the name is one of kind 1, in whatever case.
#[tactic(auto, unfolding(definition_block::specs::HtmlNames::raw_names))]
pub(crate) fn is_raw_name<M, T, A: Allocator>(tokenizer: &Tokenizer<'_, M, T, A>) -> bool
    ensures { result ≡ is_raw_name (bytes_of tokenizer.now) (config tokenizer.now) }
{
    is_one_of(&HTML_RAW_NAMES, name_so_far(tokenizer))
}

/// Whether the name is one of kind 6, in whatever case.
#[tactic(auto, unfolding(definition_block::specs::HtmlNames::block_names))]
pub(crate) fn is_block_name<M, T, A: Allocator>(tokenizer: &Tokenizer<'_, M, T, A>) -> bool
    ensures { result ≡ is_block_name (bytes_of tokenizer.now) (config tokenizer.now) }
{
    is_one_of(&HTML_BLOCK_NAMES, name_so_far(tokenizer))
}

/// Whether one more byte may belong to a name of kind 1.
pub(crate) fn is_short_name<M, T, A: Allocator>(tokenizer: &Tokenizer<'_, M, T, A>) -> bool
    ensures { result ≡ is_short_name (config tokenizer.now) }
{
    tokenizer
        .point
        .index
        .saturating_sub(tokenizer.tokenize_state.start)
        < HTML_RAW_SIZE_MAX
}
