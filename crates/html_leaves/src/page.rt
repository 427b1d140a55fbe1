//! The page, printed piece by piece.
ghost use Rattle.std.specs.Prelude.{◌≡◌, IfOk, OnOk, string_bytes};
ghost use Rattle.markdown_options.specs.LineEndings.{ending_bytes};
ghost use Rattle.definition_text.specs.Encode.{encode};
ghost use Rattle.definition_text.specs.Lines.{ending_text};
ghost use Rattle.html_bytes.specs.Layout.{nothing_laid, with_footnotes};

use html_escape::push_encoded;
use html_footnotes::{Output, push_fresh};
use markdown_compile_options::CompileOptions;
use markdown_options::LineEnding;
use std::alloc::{AllocError, Allocator};
use text_pieces::push_ending;

/// A page that is being printed.
#[derive(Drop)]
pub struct Page<A: Allocator + Clone> {
    /// The texts that are open, and the footnotes. Inline structure is printed to it.
    pub out: Output<A>,
    /// The ending that is printed where the text has none.
    pub default_ending: LineEnding,
}

impl<A: Allocator + Clone> Page<A> {
    ghost use Rattle.html_leaves.specs.Prints.{Prints, page_view, with_fresh, with_tag, KeepsEnding};

    /// A page on which nothing is printed, with room for so many bytes.
    pub fn new(alloc: A, room: usize, default_ending: LineEnding) -> Result<Page<A>, AllocError>
        ensures blank { IfOk result (λ page. page_view page ≡ nothing_laid) }
        ensures default { IfOk result (λ page. page.default_ending ≡ default_ending) }
    {
        Ok(Page {
            out: Output::new(alloc, room)?,
            default_ending,
        })
    }

    /// Ends the page: prints the footnotes that are called after its text.
    pub fn finish(self, options: &CompileOptions) -> Result<String<A>, AllocError>
        ensures { IfOk result (λ html. string_bytes html ≡ with_footnotes options.now (ending_bytes self.default_ending) (page_view self)) }
    {
        let Page {
            out,
            default_ending,
        } = self;
        out.finish(options, default_ending)
    }

    /// Prints an ending, if there is one.
    pub fn push_ending(&mut self, ending: Option<LineEnding>) -> Result<(), AllocError>
        ensures default { KeepsEnding self.old self.new }
        ensures printed { OnOk result (Prints self.old self.new (ending_text ending)) }
    {
        push_ending(&mut self.out.html, ending)
    }

    /// Asks for a fresh line.
    pub fn fresh(&mut self) -> Result<(), AllocError>
        ensures default { KeepsEnding self.old self.new }
        ensures printed { OnOk result (page_view self.new ≡ with_fresh (ending_bytes self.old.default_ending) (page_view self.old)) }
    {
        push_fresh(&mut self.out.html, self.default_ending)
    }

    /// Prints a tag on a fresh line.
    #[inline(always)]
    pub fn fresh_tag(&mut self, tag: &str) -> Result<(), AllocError>
        ensures default { KeepsEnding self.old self.new }
        ensures printed { OnOk result (page_view self.new ≡ with_tag (ending_bytes self.old.default_ending) tag.now (page_view self.old)) }
    {
        self.fresh()?;
        self.say(tag)
    }

    /// Prints the default ending.
    pub fn eol(&mut self) -> Result<(), AllocError>
        ensures default { KeepsEnding self.old self.new }
        ensures printed { OnOk result (Prints self.old self.new (ending_bytes self.old.default_ending)) }
    {
        self.say(self.default_ending.as_str())
    }

    /// Prints a text as it is.
    pub fn say(&mut self, text: &str) -> Result<(), AllocError>
        ensures default { KeepsEnding self.old self.new }
        ensures printed { OnOk result (Prints self.old self.new text.now) }
    {
        self.out.html.push_str(text)
    }

    /// Prints a text as HTML: `"`, `&`, `<` and `>` as references.
    pub fn encode(&mut self, text: &str) -> Result<(), AllocError>
        ensures default { KeepsEnding self.old self.new }
        ensures printed { OnOk result (Prints self.old self.new (encode text.now)) }
    {
        push_encoded(&mut self.out.html, text)
    }
}
