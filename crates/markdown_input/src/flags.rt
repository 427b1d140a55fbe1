//! Flags for the constructs that a text is read with.
//!
//!     [--gfm] [--frontmatter] [--math] [--mark] [--all]
ghost use Rattle.std.specs.Prelude.{◌≡◌, false};
ghost use Rattle.markdown_options.specs.Mdx.{has_mdx};

use markdown_options::{Constructs, ParseOptions};

/// Which constructs are on beside those of CommonMark.
#[derive(Clone, Copy, Debug, Default)]
pub struct Flags {
    /// GitHub Flavored Markdown.
    pub gfm: bool,
    /// Metadata at the start of a text, between lines of `---` or `+++`.
    pub frontmatter: bool,
    /// `$a$`, and blocks between lines of `$$`.
    pub math: bool,
    /// `==a==`.
    pub mark: bool,
}

impl Flags {
    /// All of them.
    const ALL: Flags = Flags {
        gfm: true,
        frontmatter: true,
        math: true,
        mark: true,
    };

    /// The flags with what a word turns on, or none if the word is no flag.
    pub fn with(self, word: &str) -> Option<Flags> {
        match word {
            "--gfm" => Some(Flags { gfm: true, ..self }),
            "--frontmatter" => Some(Flags {
                frontmatter: true,
                ..self
            }),
            "--math" => Some(Flags { math: true, ..self }),
            "--mark" => Some(Flags { mark: true, ..self }),
            "--all" => Some(Flags::ALL),
            _ => None,
        }
    }

    /// The flags with what a key of a file of settings turns on or off, or none if the key is no flag.
    pub fn with_key(self, key: &str, is_on: bool) -> Option<Flags> {
        match key {
            "gfm" => Some(Flags { gfm: is_on, ..self }),
            "frontmatter" => Some(Flags {
                frontmatter: is_on,
                ..self
            }),
            "math" => Some(Flags {
                math: is_on,
                ..self
            }),
            "mark" => Some(Flags {
                mark: is_on,
                ..self
            }),
            _ => None,
        }
    }

    /// The options that a text is read with.
    pub fn options(self) -> ParseOptions
        ensures without_mdx { has_mdx result.constructs ≡ false }
    {
        let constructs = if self.gfm {
            Constructs::gfm()
        } else {
            Constructs::default()
        };
        ParseOptions {
            constructs: Constructs {
                frontmatter: self.frontmatter,
                math_flow: self.math,
                math_text: self.math,
                mark: self.mark,
                ..constructs
            },
            ..ParseOptions::default()
        }
    }
}
