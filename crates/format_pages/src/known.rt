//! What is known of a text that others are compared with.
ghost use Rattle.std.specs.Prelude.{◌≡◌, ◌≤◌, ℕ, List, true, IfOk, IfErr, IfSome, length, string_bytes};
ghost use Rattle.markdown_compile_options.specs.Mdx.{HasNoMdx};
ghost use Rattle.markdown_options.specs.Messages.{IsOutOfMemory};
ghost use Rattle.markdown_definition.specs.Html.{html};
ghost use Rattle.markdown_tables.specs.Builtin.{builtin_tables};
ghost use Rattle.format_pages.specs.Constructs as spec;
ghost use Rattle.format_pages.specs.Calls as spec_calls;
ghost use Rattle.format_pages.specs.Hidden.{definitions, definitions_in, footnotes, footnotes_in, infos, infos_in};
ghost use Rattle.format_pages.specs.SameDocument.{IsSameWhole};
ghost use Rattle.format_pages.specs.Known.{HasCalled, HasPages, IsKnown};

use crate::calls::calls;
use crate::constructs::{by_every, by_plain};
use crate::front::{copy_of_front, has_front, with_calls};
use crate::hidden::Hidden;
use markdown::{SIZE_MAX, fits, to_html_with_options};
use markdown_compile_options::Options;
use markdown_options::Message;
use std::alloc::{AllocError, Global};

/// What is known of a text that others are compared with: its pages, and what these may not show.
#[derive(Drop)]
pub struct Known {
    /// The byte order mark and the frontmatter.
    pub(crate) front: Vec<u8>,
    /// The page by the options.
    pub(crate) page: String,
    /// The page with every construct.
    pub(crate) every: String,
    /// The page with the constructs of CommonMark, and tables and footnotes if the options have these.
    pub(crate) plain: String,
    /// What these pages may not show.
    pub(crate) hidden: Hidden,
    /// A call of each footnote that is defined.
    pub(crate) calls: String,
    /// The page with every construct, after these calls. None if there are no calls, or if the text would be
    /// too large with them.
    pub(crate) called: Option<String>,
}

/// The page of a text by options.
fn page_by(alloc: Global, text: &str, options: &Options) -> Result<String, Message>
    requires size { length text.now ≤ SIZE_MAX }
    requires without_mdx { HasNoMdx options.now }
    ensures page { IfOk result (λ page. string_bytes page ≡ html builtin_tables text.now options.now) }
    ensures memory { IfErr result IsOutOfMemory }
{
    to_html_with_options(alloc, text, options)
}

/// The page of a text with every construct.
fn every_page(alloc: Global, text: &str, options: &Options) -> Result<String, Message>
    requires size { length text.now ≤ SIZE_MAX }
    ensures page { IfOk result (λ page. string_bytes page ≡ html builtin_tables text.now (spec.by_every options.now)) }
    ensures memory { IfErr result IsOutOfMemory }
{
    let every = by_every(options);
    page_by(alloc, text, &every)
}

/// The page of a text with the constructs of CommonMark, and tables and footnotes if the options have these.
fn plain_page(alloc: Global, text: &str, options: &Options) -> Result<String, Message>
    requires size { length text.now ≤ SIZE_MAX }
    ensures page { IfOk result (λ page. string_bytes page ≡ html builtin_tables text.now (spec.by_plain options.now)) }
    ensures memory { IfErr result IsOutOfMemory }
{
    let plain = by_plain(options);
    page_by(alloc, text, &plain)
}

/// The page of a text after these calls, with every construct. None if there are no calls, or if it would be
/// too large with them.
fn called_page(
    alloc: Global,
    calls: &str,
    text: &str,
    options: &Options,
) -> Result<Option<String>, Message>
    ensures page { IfOk result (λ page. IfSome page (λ it.
        string_bytes it ≡ html builtin_tables (spec_calls.with_calls calls.now text.now) (spec.by_every options.now))) }
    ensures memory { IfErr result IsOutOfMemory }
{
    if calls.is_empty() {
        return Ok(None);
    }
    match with_calls(alloc, calls, text)? {
        Some(called) if fits(&called) => {
            let page = every_page(alloc, &called, options)?;
            Ok(Some(page))
        }
        _ => Ok(None),
    }
}

impl Known {
    /// What is known of a text. The only error is `out of memory`.
    pub fn of(alloc: Global, text: &str, options: &Options) -> Result<Known, Message>
        requires size { length text.now ≤ SIZE_MAX }
        requires without_mdx { HasNoMdx options.now }
        ensures known { IfOk result (λ known. IsKnown known text.now options.now) }
        ensures memory { IfErr result IsOutOfMemory }
    {
        let front = copy_of_front(alloc, text)?;
        let hidden = Hidden::of(alloc, text)?;
        let calls = calls(alloc, &hidden.footnotes)?;
        let called = called_page(alloc, &calls, text, options)?;
        let page = page_by(alloc, text, options)?;
        let every = every_page(alloc, text, options)?;
        let plain = plain_page(alloc, text, options)?;
        Ok(Known {
            front,
            page,
            every,
            plain,
            hidden,
            calls,
            called,
        })
    }

    /// Whether a text is the same document, with the options that this is known by. The only error is
    /// `out of memory`.
    pub fn is_same(&self, alloc: Global, text: &str, options: &Options) -> Result<bool, Message>
        requires without_mdx { HasNoMdx options.now }
        ensures document { (other : List ℕ) → IsKnown self.now other options.now → IfOk result (λ same. same ≡ true →
            IsSameWhole text.now other options.now) }
        ensures size { IfOk result (λ same. same ≡ true → length text.now ≤ SIZE_MAX) }
        ensures memory { IfErr result IsOutOfMemory }
    {
        if !fits(text) {
            return Ok(false);
        }
        if !has_front(text, &self.front) {
            return Ok(false);
        }
        if !self.has_pages(alloc, text, options)? {
            return Ok(false);
        }
        if !self.has_hidden(alloc, text)? {
            return Ok(false);
        }
        let same = self.has_called(alloc, text, options)?;
        Ok(same)
    }

    /// Whether a text has the same pages.
    fn has_pages(&self, alloc: Global, text: &str, options: &Options) -> Result<bool, Message>
        requires size { length text.now ≤ SIZE_MAX }
        requires without_mdx { HasNoMdx options.now }
        ensures pages { IfOk result (λ same. same ≡ true → HasPages self.now text.now options.now) }
        ensures memory { IfErr result IsOutOfMemory }
    {
        let page = page_by(alloc, text, options)?;
        if page != self.page {
            return Ok(false);
        }
        let every = every_page(alloc, text, options)?;
        if every != self.every {
            return Ok(false);
        }
        let plain = plain_page(alloc, text, options)?;
        let same = plain == self.plain;
        Ok(same)
    }

    /// Whether as much is hidden of a text.
    fn has_hidden(&self, alloc: Global, text: &str) -> Result<bool, AllocError>
        requires size { length text.now ≤ SIZE_MAX }
        ensures infos { IfOk result (λ same. same ≡ true → infos_in self.now.hidden ≡ infos text.now) }
        ensures footnotes { IfOk result (λ same. same ≡ true → footnotes_in self.now.hidden ≡ footnotes text.now) }
        ensures definitions { IfOk result (λ same. same ≡ true → definitions_in self.now.hidden ≡ definitions text.now) }
    {
        let hidden = Hidden::of(alloc, text)?;
        let same = self.hidden.is_same(&hidden);
        Ok(same)
    }

    /// Whether a text with the same calls has the same page.
    fn has_called(&self, alloc: Global, text: &str, options: &Options) -> Result<bool, Message>
        ensures called { IfOk result (λ same. same ≡ true →
            HasCalled self.now.called (string_bytes self.now.calls) text.now options.now) }
        ensures memory { IfErr result IsOutOfMemory }
    {
        let Some(wanted) = &self.called else {
            return Ok(self.calls.is_empty());
        };
        match called_page(alloc, &self.calls, text, options)? {
            Some(called) => {
                let same = called == *wanted;
                Ok(same)
            }
            None => Ok(false),
        }
    }
}
