//! Options as C passes them.
ghost use Rattle.std.specs.Prelude.{◌≡◌, ◌↔◌, IfOk, IsTrue, option_map, string_bytes};
ghost use Rattle.std.specs.Str.{IsUtf8};
ghost use Rattle.markdown_compile_options.specs.Mdx.{HasNoMdx};
ghost use Rattle.markdown_c_options.specs.FlatOptions.{given_text, IsKnown, StandsFor};

use crate::constructs;
use crate::switches::{self, LAST_ENDING, options_of_numbers};
use markdown_compile_options::Options;
use std::alloc::{AllocError, Global};

/// Options, as C passes them. Its fields are those of the struct in the header.
///
/// A text that is the default one costs no memory.
#[repr(C)]
#[derive(Clone, Copy)]
pub struct FlatOptions<'a> {
    /// How many bytes this struct has: 168.
    pub size: usize,
    /// The constructs that are on, as a sum of their numbers.
    pub constructs: u64,
    /// The switches that are on, as a sum of their numbers.
    pub switches: u32,
    /// The line ending that is printed if the text has none: 0 for a line feed, 1 for a carriage
    /// return, 2 for both.
    pub default_line_ending: u32,
    /// The label of a link back to a footnote's call. The default is `Back to content`.
    pub gfm_footnote_back_label: &'a [u8],
    /// The prefix of the ids of footnotes and calls. The default is `user-content-`.
    pub gfm_footnote_clobber_prefix: &'a [u8],
    /// The heading of the section of footnotes. The default is `Footnotes`.
    pub gfm_footnote_label: &'a [u8],
    /// The attributes of that heading, printed as given. The default is `class="sr-only"`.
    pub gfm_footnote_label_attributes: &'a [u8],
    /// The tag name of that heading, printed as given. The default is `h2`.
    pub gfm_footnote_label_tag_name: &'a [u8],
    /// The prefix of the ids of headings, and of links to fragments of the page, if headings have
    /// ids. The default is empty.
    pub heading_id_prefix: &'a [u8],
    /// What is printed before destinations of links that are relative paths. The default is empty.
    pub link_base: &'a [u8],
    /// What is printed before the URLs of images that are relative paths. An empty text, which is
    /// the default, stands for `link_base`.
    pub image_base: &'a [u8],
    /// The `rel` of links, except those of footnotes. If it is empty, as by default, they have none.
    pub link_rel: &'a [u8],
}

/// The size of the struct of options, in bytes.
const OPTIONS_SIZE: usize = 168;

/// Whether bytes are UTF-8.
fn is_utf8(bytes: &[u8]) -> bool
    ensures { IsTrue result ↔ IsUtf8 bytes.now }
{
    str::from_utf8(bytes).is_ok()
}

/// Whether the numbers of options are known, and their texts are UTF-8.
pub fn is_known(flat: &FlatOptions<'_>) -> bool
    ensures { IsTrue result ↔ IsKnown flat.now }
{
    flat.size == OPTIONS_SIZE
        && flat.constructs <= constructs::ALL
        && flat.switches <= switches::ALL
        && flat.default_line_ending <= LAST_ENDING
        && is_utf8(flat.gfm_footnote_back_label)
        && is_utf8(flat.gfm_footnote_clobber_prefix)
        && is_utf8(flat.gfm_footnote_label)
        && is_utf8(flat.gfm_footnote_label_attributes)
        && is_utf8(flat.gfm_footnote_label_tag_name)
        && is_utf8(flat.heading_id_prefix)
        && is_utf8(flat.link_base)
        && is_utf8(flat.image_base)
        && is_utf8(flat.link_rel)
}

/// A text of the caller's, unless it is the default one.
fn given_text(heap: Global, default: &str, bytes: &[u8]) -> Result<Option<String>, AllocError>
    requires { IsUtf8 bytes.now }
    ensures { IfOk result (λ text. option_map string_bytes text ≡ given_text default.now bytes.now) }
{
    if bytes == default.as_bytes() {
        return Ok(None);
    }
    match str::from_utf8(bytes) {
        Ok(text) => Ok(Some(String::from_str(heap, text)?)),
        Err(_) => unreachable!(),
    }
}

/// The options that are meant.
#[tactic(auto, using(crate::proofs::FlatOptions::stands))]
pub fn asked_options(heap: Global, flat: &FlatOptions<'_>) -> Result<Options, AllocError>
    requires { IsKnown flat.now }
    ensures options { IfOk result (λ options. StandsFor flat.now options) }
    ensures without_mdx { IfOk result HasNoMdx }
{
    let mut options = options_of_numbers(flat.constructs, flat.switches, flat.default_line_ending);
    let compile = &mut options.compile;
    compile.gfm_footnote_back_label = given_text(
        heap,
        "Back to content",
        flat.gfm_footnote_back_label,
    )?;
    compile.gfm_footnote_clobber_prefix = given_text(
        heap,
        "user-content-",
        flat.gfm_footnote_clobber_prefix,
    )?;
    compile.gfm_footnote_label = given_text(heap, "Footnotes", flat.gfm_footnote_label)?;
    compile.gfm_footnote_label_attributes = given_text(
        heap,
        "class=\"sr-only\"",
        flat.gfm_footnote_label_attributes,
    )?;
    compile.gfm_footnote_label_tag_name = given_text(heap, "h2", flat.gfm_footnote_label_tag_name)?;
    compile.heading_id_prefix = given_text(heap, "", flat.heading_id_prefix)?;
    compile.link_base = given_text(heap, "", flat.link_base)?;
    compile.image_base = given_text(heap, "", flat.image_base)?;
    compile.link_rel = given_text(heap, "", flat.link_rel)?;
    Ok(options)
}
