//! The options of the flags.
ghost use Rattle.std.specs.Prelude.{◌≡◌};
ghost use Rattle.markdown_compile_options.specs.Mdx.{HasNoMdx};
ghost use Rattle.markdown_settings.specs.Flags.{constructs_of, flag_options, parse_of, printed_as};

use markdown_compile_options::{CompileOptions, Options};
use markdown_options::{Constructs, ParseOptions};

/// What a command line asks for.
#[derive(Debug, Drop)]
pub struct Settings {
    /// How the text is read, and how its HTML is printed.
    pub options: Options,
    /// The path of the file to read, or `None` for standard input.
    pub file: Option<String>,
    /// The path of the references file, if there is one.
    pub references: Option<String>,
}

/// Which flags are set.
#[derive(Clone, Copy)]
pub(crate) struct Flags {
    pub(crate) gfm: bool,
    pub(crate) mark: bool,
    pub(crate) math: bool,
    pub(crate) frontmatter: bool,
    pub(crate) heading_ids: bool,
    pub(crate) lazy_images: bool,
    pub(crate) listed_html: bool,
    pub(crate) dangerous: bool,
    pub(crate) plain: bool,
}

impl Flags {
    /// The options of these flags, with the default texts.
    pub(crate) fn options(self) -> Options
        ensures options { result ≡ flag_options self }
        ensures without_mdx { HasNoMdx result }
    {
        Options {
            parse: self.parse(),
            compile: CompileOptions {
                allow_dangerous_html: self.dangerous,
                allow_dangerous_protocol: self.dangerous,
                allow_listed_html: self.listed_html,
                heading_ids: self.heading_ids,
                lazy_images: self.lazy_images,
                ..printed_as(self.gfm)
            },
        }
    }

    /// The options of reading.
    fn parse(self) -> ParseOptions
        ensures { result ≡ parse_of self }
    {
        ParseOptions {
            constructs: self.constructs(),
            ..ParseOptions::default()
        }
    }

    /// No constructs, or those of GitHub or of CommonMark and the extensions that are set.
    fn constructs(self) -> Constructs
        ensures { result ≡ constructs_of self }
    {
        if self.plain {
            return Constructs::none();
        }
        let constructs = if self.gfm {
            Constructs::gfm()
        } else {
            Constructs::default()
        };
        Constructs {
            frontmatter: self.frontmatter,
            mark: self.mark,
            math_flow: self.math,
            math_text: self.math,
            ..constructs
        }
    }
}

/// The options of printing: GitHub's, or the default ones.
fn printed_as(gfm: bool) -> CompileOptions
    ensures { result ≡ printed_as gfm }
{
    if gfm {
        CompileOptions::gfm()
    } else {
        CompileOptions::default()
    }
}
