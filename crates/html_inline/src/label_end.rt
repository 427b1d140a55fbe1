//! The tags of links and images (CommonMark 6.3 and 6.4).
ghost use Rattle.std.specs.Prelude.{◌≡◌, ℕ, List, OnOk, string_bytes};
ghost use Rattle.std.specs.List.{flat_map};
ghost use Rattle.definition_text.specs.Encode.{plain};
ghost use Rattle.definition_page.specs.InlinePieces.{link_tag, loading_attributes, rel_attributes, title_attributes};
ghost use Rattle.definition_page.specs.Tags.{attribute_bytes, start_tag};
ghost use Rattle.inline_links.specs.View.{link_texts_view};
ghost use Rattle.inline_rows.specs.View.{target_texts};
ghost use Rattle.html_inline.specs.Kept.{text_of};
ghost use Rattle.html_inline.specs.Printed.{image_end, image_start, title_bytes};
ghost use Rattle.html_inline.specs.Opens.{place_target};
ghost use Rattle.html_inline.specs.Prints.{meaning_by, Definitions, Prints};

use crate::printing::Printing;
use crate::string::{push_formed_string, push_string};
use crate::url::{lead_image, lead_link, push_image_url, push_link_url};
use html_escape::push_encoded;
use html_heading_text::form::Form;
use inline_links::LinkTexts;
use inline_rows::LinkTarget;
use markdown_compile_options::CompileOptions;
use markdown_options::Tables;
use std::alloc::{AllocError, Allocator};

/// What leads nowhere.
pub(crate) const NOWHERE: LinkTexts<'static> = LinkTexts {
    destination: "",
    title: None,
};

/// Where a link or an image leads. A place past the last definition leads nowhere.
pub(crate) fn linked_at<'a>(
    definitions: &'a [LinkTexts<'a>],
    target: LinkTarget<'a>,
) -> LinkTexts<'a>
    ensures { link_texts_view result ≡ target_texts (place_target definitions.now) target.entry }
{
    match target {
        LinkTarget::Resource(linked) => linked,
        LinkTarget::Definition(place) => {
            if place < definitions.len() {
                definitions[place]
            } else {
                NOWHERE
            }
        }
    }
}

/// Prints the start tag of a link (CommonMark 6.3). `text` is used for its URL and its title.
pub(crate) fn push_link_start<A: Allocator + Clone, T: Tables>(
    out: &mut String<A>,
    text: &mut String<A>,
    printing: &Printing<'_, A, T>,
    linked: LinkTexts<'_>,
) -> Result<(), AllocError>
    ensures { (definition : Definitions) (footnotes : List (List ℕ)) →
        let meaning = meaning_by (T.reference_of printing.now.tables.now) printing.now definition footnotes in
        Prints result out.old out.new (start_tag (link_tag meaning (link_texts_view linked.entry))) }
{
    read_url(text, printing, linked.destination)?;
    lead_link(text, printing.compile)?;
    out.push_str("<a href=\"")?;
    push_link_url(out, printing.compile, text.as_str())?;
    out.push_str("\"")?;
    push_title(out, text, printing, linked)?;
    push_rel(out, printing.compile)?;
    out.push_str(">")
}

/// Prints the tag of an image before its description (CommonMark 6.4).
pub(crate) fn push_image_start<A: Allocator + Clone, T: Tables>(
    out: &mut String<A>,
    text: &mut String<A>,
    printing: &Printing<'_, A, T>,
    linked: LinkTexts<'_>,
) -> Result<(), AllocError>
    ensures { (definition : Definitions) (footnotes : List (List ℕ)) →
        let meaning = meaning_by (T.reference_of printing.now.tables.now) printing.now definition footnotes in
        Prints result out.old out.new (image_start meaning (link_texts_view linked.entry)) }
{
    read_url(text, printing, linked.destination)?;
    lead_image(text, printing.compile)?;
    out.push_str("<img src=\"")?;
    push_image_url(out, printing.compile, text.as_str())?;
    out.push_str("\" alt=\"")
}

/// Prints the tag of an image after its description (CommonMark 6.4).
pub(crate) fn push_image_end<A: Allocator + Clone, T: Tables>(
    out: &mut String<A>,
    text: &mut String<A>,
    printing: &Printing<'_, A, T>,
    linked: LinkTexts<'_>,
) -> Result<(), AllocError>
    ensures { (definition : Definitions) (footnotes : List (List ℕ)) →
        let meaning = meaning_by (T.reference_of printing.now.tables.now) printing.now definition footnotes in
        Prints result out.old out.new (image_end meaning (link_texts_view linked.entry)) }
{
    out.push_str("\"")?;
    push_title(out, text, printing, linked)?;
    push_loading(out, printing.compile.lazy_images)?;
    out.push_str(" />")
}

/// Reads the URL of a destination: its text, in which NUL is U+FFFD (CommonMark 6.3).
fn read_url<A: Allocator + Clone, T: Tables>(
    text: &mut String<A>,
    printing: &Printing<'_, A, T>,
    destination: &str,
) -> Result<(), AllocError>
    ensures { OnOk result (string_bytes text.new ≡ plain (text_of printing.now.on.now (T.reference_of printing.now.tables.now) destination.now)) }
{
    text.clear();
    push_formed_string(text, printing.on, printing.tables, Form::Plain, destination)
}

/// Prints the attribute of a title that isn't empty.
fn push_title<A: Allocator + Clone, T: Tables>(
    out: &mut String<A>,
    text: &mut String<A>,
    printing: &Printing<'_, A, T>,
    linked: LinkTexts<'_>,
) -> Result<(), AllocError>
    ensures { (definition : Definitions) (footnotes : List (List ℕ)) →
        Prints result out.old out.new (title_bytes (meaning_by (T.reference_of printing.now.tables.now) printing.now definition footnotes)
        (link_texts_view linked.entry)) }
{
    match linked.title {
        None => Ok(()),
        Some(title) => {
            text.clear();
            push_string(text, printing.on, printing.tables, title)?;
            push_titled(out, text.as_str())
        }
    }
}

/// Prints the attribute of a title's text that isn't empty.
fn push_titled<A: Allocator>(out: &mut String<A>, title: &str) -> Result<(), AllocError>
    ensures { Prints result out.old out.new (flat_map attribute_bytes (title_attributes title.now)) }
{
    if title.is_empty() {
        return Ok(());
    }
    out.push_str(" title=\"")?;
    push_encoded(out, title)?;
    out.push_str("\"")
}

/// Prints the `rel` of links, if the options have one.
pub(crate) fn push_rel<A: Allocator>(
    out: &mut String<A>,
    compile: &CompileOptions,
) -> Result<(), AllocError>
    ensures { Prints result out.old out.new (flat_map attribute_bytes (rel_attributes compile.now.link_rel)) }
{
    match &compile.link_rel {
        None => Ok(()),
        Some(rel) => {
            out.push_str(" rel=\"")?;
            push_encoded(out, rel.as_str())?;
            out.push_str("\"")
        }
    }
}

/// Prints the `loading` of images, if it is lazy.
fn push_loading<A: Allocator>(out: &mut String<A>, lazy: bool) -> Result<(), AllocError>
    ensures { Prints result out.old out.new (flat_map attribute_bytes (loading_attributes lazy)) }
{
    if lazy {
        out.push_str(" loading=\"lazy\"")
    } else {
        Ok(())
    }
}
