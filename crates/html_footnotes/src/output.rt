//! Where a page is printed to: its footnotes are numbered by their first calls, and stand at its end.
ghost use Rattle.std.specs.Prelude.{◌≡◌, ℕ, List, IfOk, string_bytes};
ghost use Rattle.markdown_compile_options.specs.declared.configuration.CompileOptions.{CompileOptions};
ghost use Rattle.markdown_options.specs.LineEndings.{ending_bytes};
ghost use Rattle.html_bytes.specs.Layout.{with_footnotes, nothing_laid};
ghost use Rattle.definition_page.specs.Tags.{bare_tag};
ghost use Rattle.html_bytes.specs.Pieces.{CallOf, CountOf, Named, NoteEnd, NoteStart};
ghost use Rattle.html_footnotes.specs.Output.{Lays, output_view};

use crate::calls::Calls;
use crate::gfm_footnote_definition::push_section;
use crate::gfm_label_start_footnote::push_call;
use crate::ids::{heading_prefix, push_named_tag};
use markdown_compile_options::CompileOptions;
use markdown_options::LineEnding;
use std::alloc::{AllocError, Allocator};
use text_slugs::Slugs;

/// Where a page is printed to: its text, the footnotes that have ended, those that are called, and the slugs
/// of its headings.
#[derive(Drop)]
pub struct Output<A: Allocator + Clone> {
    /// The innermost text that is open: the page, or the content of a footnote.
    pub html: String<A>,
    // The texts around it, the innermost last.
    outer: Vec<String<A>, A>,
    // The contents of the footnotes that have ended.
    notes: Vec<String<A>, A>,
    calls: Calls<A>,
    // The slugs of the headings that get an id, in order.
    slugs: Slugs<A>,
    alloc: A,
}

impl<A: Allocator + Clone> Output<A> {
    /// A page on which nothing is printed, with room for so many bytes.
    pub fn new(alloc: A, room: usize) -> Result<Output<A>, AllocError>
        ensures { IfOk result (λ out. output_view out ≡ nothing_laid) }
    {
        Ok(Output {
            html: String::with_capacity(alloc.clone()?, room)?,
            outer: Vec::new(alloc.clone()?),
            notes: Vec::new(alloc.clone()?),
            calls: Calls::new(alloc.clone()?)?,
            slugs: Slugs::new(alloc.clone()?)?,
            alloc,
        })
    }

    /// Prints a call of the footnote at a place, with its label as labels are matched.
    pub fn call(
        &mut self,
        compile: &CompileOptions,
        place: usize,
        label: &str,
    ) -> Result<(), AllocError>
        ensures { (default : List ℕ) → Lays compile.now default result self.old self.new (CallOf place label.now) }
    {
        self.calls.count(place, label)?;
        push_call(&mut self.html, compile, self.calls.latest(place))
    }

    /// Counts a call of the footnote at a place that isn't printed.
    pub fn count(&mut self, place: usize, label: &str) -> Result<(), AllocError>
        ensures { (options : CompileOptions) (default : List ℕ) → Lays options default result self.old self.new (CountOf place label.now) }
    {
        self.calls.count(place, label)
    }

    /// Prints the start tag of a heading, `h1` to `h6`, with the id that is made of what the heading says. No
    /// heading before has the same. There is none if the slug is empty, or if a footnote may have it.
    pub fn start_heading(
        &mut self,
        compile: &CompileOptions,
        name: &str,
        text: &str,
    ) -> Result<(), AllocError>
        ensures { (default : List ℕ) → Lays compile.now default result self.old self.new (Named (bare_tag name.now) text.now) }
    {
        let mut id = String::from_str(self.alloc.clone()?, heading_prefix(compile))?;
        self.slugs.add(&mut id, text)?;
        push_named_tag(&mut self.html, compile, name, id.as_str())
    }

    /// Starts the content of a footnote: what is printed from now on belongs to it.
    pub fn start_footnote(&mut self) -> Result<(), AllocError>
        ensures { (options : CompileOptions) (default : List ℕ) → Lays options default result self.old self.new NoteStart }
    {
        let around = std::mem::replace(&mut self.html, String::new(self.alloc.clone()?));
        self.outer.push(around)?;
        Ok(())
    }

    /// Ends the content of a footnote: the text around it goes on.
    pub fn end_footnote(&mut self) -> Result<(), AllocError>
        ensures { (options : CompileOptions) (default : List ℕ) → Lays options default result self.old self.new NoteEnd }
    {
        let around = match self.outer.pop() {
            None => String::new(self.alloc.clone()?),
            Some(around) => around,
        };
        let content = std::mem::replace(&mut self.html, around);
        self.notes.push(content)?;
        Ok(())
    }

    /// Ends the page: prints the footnotes that are called after its text. `ending` is the ending
    /// that is printed where the text has none.
    pub fn finish(
        self,
        compile: &CompileOptions,
        ending: LineEnding,
    ) -> Result<String<A>, AllocError>
        ensures { IfOk result (λ html. string_bytes html ≡ with_footnotes compile.now (ending_bytes ending) (output_view self)) }
    {
        let Output {
            mut html,
            notes,
            calls,
            ..
        } = self;
        let footnotes = calls.footnotes(&notes)?;
        push_section(&mut html, compile, ending, &footnotes)?;
        Ok(html)
    }
}
