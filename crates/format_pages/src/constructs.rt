//! The sets of constructs that documents are compared by.
ghost use Rattle.std.specs.Prelude.{◌≡◌};
ghost use Rattle.format_pages.specs.Constructs as spec;

use markdown_compile_options::{CompileOptions, Options};
use markdown_options::{Constructs, ParseOptions};

/// Every construct but those of MDX.
pub(crate) fn every_construct() -> Constructs
    ensures { result ≡ spec.every_construct }
{
    Constructs {
        frontmatter: true,
        mark: true,
        math_flow: true,
        math_text: true,
        ..Constructs::gfm()
    }
}

/// The constructs of CommonMark, with tables and footnotes if these are given.
fn plain_constructs(given: &Constructs) -> Constructs
    ensures { result ≡ spec.plain_constructs given.now }
{
    Constructs {
        gfm_footnote_definition: given.gfm_footnote_definition,
        gfm_label_start_footnote: given.gfm_label_start_footnote,
        gfm_table: given.gfm_table,
        ..Constructs::default()
    }
}

/// The options with every construct on.
pub(crate) fn by_every(options: &Options) -> Options
    ensures { result ≡ spec.by_every options.now }
{
    by_constructs(every_construct(), options)
}

/// The options with the constructs of CommonMark, and tables and footnotes if they have these.
pub(crate) fn by_plain(options: &Options) -> Options
    ensures { result ≡ spec.by_plain options.now }
{
    by_constructs(plain_constructs(&options.parse.constructs), options)
}

/// The options with these constructs, and with the default texts.
fn by_constructs(constructs: Constructs, options: &Options) -> Options
    ensures { result ≡ spec.by_constructs constructs options.now }
{
    Options {
        parse: ParseOptions {
            constructs,
            ..options.parse
        },
        compile: CompileOptions {
            allow_any_img_src: options.compile.allow_any_img_src,
            allow_dangerous_html: options.compile.allow_dangerous_html,
            allow_dangerous_protocol: options.compile.allow_dangerous_protocol,
            allow_listed_html: options.compile.allow_listed_html,
            default_line_ending: options.compile.default_line_ending,
            gfm_footnote_back_label: None,
            gfm_footnote_clobber_prefix: None,
            gfm_footnote_label: None,
            gfm_footnote_label_attributes: None,
            gfm_footnote_label_tag_name: None,
            gfm_tagfilter: options.compile.gfm_tagfilter,
            gfm_task_list_item_checkable: options.compile.gfm_task_list_item_checkable,
            heading_ids: options.compile.heading_ids,
            heading_id_prefix: None,
            image_base: None,
            lazy_images: options.compile.lazy_images,
            link_base: None,
            link_rel: None,
        },
    }
}
