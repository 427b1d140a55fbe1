//! How HTML is printed, and the options of a call.
ghost use Rattle.std.specs.Prelude.{◌≡◌};
ghost use Rattle.markdown_options.specs.Mdx.{has_mdx};
ghost use Rattle.markdown_compile_options.specs.RawHtml.{keeps_listed_html};
ghost use Rattle.markdown_compile_options.specs.Defaults.{default_compile_options, gfm_compile_options, default_options, gfm_options};

use markdown_options::{LineEnding, ParseOptions};

/// How HTML is printed.
///
/// It isn't `Clone`, since cloning its texts takes memory.
#[derive(Debug, Drop)]
pub struct CompileOptions {
    /// Whether an image may have any protocol. It changes nothing for links.
    pub allow_any_img_src: bool,
    /// Whether HTML of the text is printed as it is, and not encoded.
    pub allow_dangerous_html: bool,
    /// Whether links and images may have any protocol, such as `javascript`.
    pub allow_dangerous_protocol: bool,
    /// Whether HTML of the text is kept by a list of elements and attributes (`html_listed`), and the
    /// rest of it encoded. It changes nothing where HTML is printed as it is.
    pub allow_listed_html: bool,
    /// The line ending that is printed if the text has none.
    pub default_line_ending: LineEnding,
    /// The label of a link back to a footnote's call, for screen readers. The default is
    /// `Back to content`.
    pub gfm_footnote_back_label: Option<String>,
    /// The prefix of the ids of footnotes and calls. The default is `user-content-`.
    pub gfm_footnote_clobber_prefix: Option<String>,
    /// The heading of the section of footnotes. The default is `Footnotes`.
    pub gfm_footnote_label: Option<String>,
    /// The attributes of that heading, printed as given: a dangerous text stays dangerous. The
    /// default is `class="sr-only"`.
    pub gfm_footnote_label_attributes: Option<String>,
    /// The tag name of that heading, printed as given. The default is `h2`.
    pub gfm_footnote_label_tag_name: Option<String>,
    /// Whether the `<` of nine tags is printed as `&lt;` in HTML that is printed as it is (GFM
    /// 6.11).
    pub gfm_tagfilter: bool,
    /// Whether check boxes of items aren't `disabled` (GFM 5.3).
    pub gfm_task_list_item_checkable: bool,
    /// Whether headings have ids, as GitHub makes them.
    pub heading_ids: bool,
    /// The prefix of these ids, and of links to fragments of the page, if headings have ids. The
    /// default is empty.
    pub heading_id_prefix: Option<String>,
    /// What is printed before the URLs of images that are relative paths. The default is
    /// `link_base`.
    pub image_base: Option<String>,
    /// Whether images have `loading="lazy"`.
    pub lazy_images: bool,
    /// What is printed before destinations of links that are relative paths. The default is empty.
    pub link_base: Option<String>,
    /// The `rel` of links, except those of footnotes. By default they have none.
    pub link_rel: Option<String>,
}

impl CompileOptions {
    /// Returns the default options with the tag filter, as GitHub has it.
    pub fn gfm() -> CompileOptions
        ensures { result ≡ gfm_compile_options }
    {
        CompileOptions {
            gfm_tagfilter: true,
            ..CompileOptions::default()
        }
    }

    /// Returns whether HTML of the text is kept by the list: where that is allowed, and HTML isn't
    /// printed as it is.
    pub fn keeps_listed_html(&self) -> bool
        ensures { result ≡ keeps_listed_html self.now }
    {
        self.allow_listed_html && !self.allow_dangerous_html
    }
}

/// Safe output, line feeds, and the default texts.
impl Default for CompileOptions {
    ghost is_default = { λ options. options ≡ default_compile_options };

    fn default() -> CompileOptions {
        CompileOptions {
            allow_any_img_src: false,
            allow_dangerous_html: false,
            allow_dangerous_protocol: false,
            allow_listed_html: false,
            default_line_ending: LineEnding::default(),
            gfm_footnote_back_label: None,
            gfm_footnote_clobber_prefix: None,
            gfm_footnote_label: None,
            gfm_footnote_label_attributes: None,
            gfm_footnote_label_tag_name: None,
            gfm_tagfilter: false,
            gfm_task_list_item_checkable: false,
            heading_ids: false,
            heading_id_prefix: None,
            image_base: None,
            lazy_images: false,
            link_base: None,
            link_rel: None,
        }
    }
}

/// How a text is read, and how its HTML is printed.
#[derive(Debug, Drop)]
pub struct Options {
    /// How the text is read.
    pub parse: ParseOptions,
    /// How its HTML is printed.
    pub compile: CompileOptions,
}

impl Options {
    /// Returns the options of GitHub Flavored Markdown.
    pub fn gfm() -> Options
        ensures { result ≡ gfm_options }
    {
        Options {
            parse: ParseOptions::gfm(),
            compile: CompileOptions::gfm(),
        }
    }

    /// Returns whether a construct of MDX is on. The calls require that none is.
    pub fn has_mdx(&self) -> bool
        ensures { result ≡ has_mdx self.now.parse.constructs }
    {
        self.parse.constructs.has_mdx()
    }
}

/// CommonMark, with safe output.
impl Default for Options {
    ghost is_default = { λ options. options ≡ default_options };

    fn default() -> Options {
        Options {
            parse: ParseOptions::default(),
            compile: CompileOptions::default(),
        }
    }
}
