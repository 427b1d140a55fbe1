//! Searches to the end of a content that found nothing, so that none is made twice.
ghost use Rattle.std.specs.Prelude.{◌≡◌, ◌≤◌, None, codes, length, true};
ghost use Rattle.std.specs.Option.{ForSome};
ghost use Rattle.definition_inline.specs.HtmlText.{after_text};
ghost use Rattle.inline_links.specs.Codes.{IsRest};
ghost use Rattle.inline_constructs.specs.HtmlText.{html_after, ClosesText};
ghost use Rattle.inline_constructs.specs.RawRuns.{marker_byte, AreLastRuns};
ghost use Rattle.inline_constructs.specs.Searched.{Lacks};
ghost use Rattle.inline_constructs.specs.declared.raw_runs.RawMarker.TheVariants.{Backtick, Dollar};

use crate::html_text::{begins_cdata, html_text_at, text_end};
use crate::raw_runs::{LastRun, RawMarker, first_run, last_end, last_runs};
use inline_leaves::Leaf;
use inline_links::part::from;
use markdown_options::Constructs;
use std::alloc::{AllocError, Allocator};
use text_bytes::begins_with_letter;

/// How much of a content's end is known to lack what closes raw HTML (CommonMark 6.6), and where
/// the last runs of backticks and of dollars are (CommonMark 6.1).
#[derive(Drop)]
pub struct Searches<'a, A: Allocator> {
    content: &'a str,
    alloc: A,
    // They are looked for where nothing closes a run for the first time.
    backticks: Option<Vec<LastRun, A>>,
    dollars: Option<Vec<LastRun, A>>,
    // How many bytes at the content's end are known to hold no `-->`, no `?>`, no `>` and no `]]>`.
    comment: usize,
    instruction: usize,
    declaration: usize,
    cdata: usize,
    ghost no_comment: { Lacks (codes "-->") content.now comment },
    ghost no_instruction: { Lacks (codes "?>") content.now instruction },
    ghost no_declaration: { Lacks (codes ">") content.now declaration },
    ghost no_cdata: { Lacks (codes "]]>") content.now cdata },
    ghost are_last_backticks: { ForSome backticks (λ runs. AreLastRuns (marker_byte Backtick) content.now runs.items) },
    ghost are_last_dollars: { ForSome dollars (λ runs. AreLastRuns (marker_byte Dollar) content.now runs.items) },
}

impl<'a, A: Allocator + Clone> Searches<'a, A> {
    ghost use Rattle.std.specs.Prelude.{◌<◌, IfOk, IfSome, drop, false};
    ghost use Rattle.std.specs.Option.{option_map};
    ghost use Rattle.definition_inline.specs.CodeText.{run_of};
    ghost use Rattle.definition_text.specs.Runs.{run};
    ghost use Rattle.definition_inline.specs.HtmlText.{html_text_at};
    ghost use Rattle.definition_text.specs.Content.{content_codes};
    ghost use Rattle.inline_leaves.specs.Leaves.{found_leaf, LeavesRest};
    ghost use Rattle.inline_constructs.specs.Leaves.{IsRun};

    /// Before any search in a content.
    pub fn new(alloc: A, content: &'a str) -> Searches<'a, A>
        ensures { result.content ≡ content.entry }
    {
        Searches {
            content,
            alloc,
            backticks: None,
            dollars: None,
            comment: 0,
            instruction: 0,
            declaration: 0,
            cdata: 0,
        }
    }

    /// Where the first run of exactly so many of a byte begins in a rest of the content that doesn't
    /// begin with one (CommonMark 6.1).
    pub(crate) fn closing_run(
        &mut self,
        marker: RawMarker,
        rest: &[u8],
        size: usize,
    ) -> Result<Option<usize>, AllocError>
        requires rest { IsRest self.old.content.now rest.now }
        requires some { 0 < size }
        requires outside { run (marker_byte marker) rest.now ≡ 0 }
        ensures content { self.new.content ≡ self.old.content }
        ensures read { IfOk result (λ found. option_map (λ end. drop end rest.now) found ≡ run_of (marker_byte marker) size false rest.now) }
        ensures run { IfOk result (λ found. IfSome found (λ end. IsRun (marker_byte marker) rest.now end size)) }
    {
        if self.lacks_run(marker, rest, size) {
            return Ok(None);
        }
        let found = first_run(marker.byte(), rest, size);
        if found.is_none() && self.runs(marker).is_none() {
            let content = self.content.as_bytes();
            let runs = last_runs(self.alloc.clone()?, marker.byte(), content)?;
            match marker {
                RawMarker::Backtick => self.backticks = Some(runs),
                RawMarker::Dollar => self.dollars = Some(runs),
            }
        }
        Ok(found)
    }

    /// Whether a rest of the content is known to have no run of exactly so many of a byte.
    fn lacks_run(&self, marker: RawMarker, rest: &[u8], size: usize) -> bool
        requires rest { IsRest self.now.content.now rest.now }
        requires some { 0 < size }
        requires outside { run (marker_byte marker) rest.now ≡ 0 }
        ensures { result ≡ true → run_of (marker_byte marker) size false rest.now ≡ None }
    {
        match self.runs(marker) {
            Some(runs) => last_end(runs, size) <= self.content.len() - rest.len(),
            None => false,
        }
    }

    /// The last runs of a byte, where they were looked for.
    fn runs(&self, marker: RawMarker) -> Option<&Vec<LastRun, A>>
        ensures { ForSome result (λ runs. AreLastRuns (marker_byte marker) self.now.content.now runs.now.items) }
    {
        match marker {
            RawMarker::Backtick => self.backticks.as_ref(),
            RawMarker::Dollar => self.dollars.as_ref(),
        }
    }

    /// Raw HTML at the start of a rest of the content (CommonMark 6.6).
    pub fn html_text_at(&mut self, on: &Constructs, rest: &'a str) -> Option<Leaf<'a>>
        requires { IsRest self.old.content.now rest.now }
        ensures content { self.new.content ≡ self.old.content }
        ensures read { found_leaf rest.now result ≡ html_text_at on.now (content_codes rest.now) }
        ensures place { LeavesRest rest.now result }
    {
        // What is found here is found again by the call below: each byte is searched twice at most.
        if self.lacks_end(rest.as_bytes()) {
            return None;
        }
        html_text_at(on, rest)
    }

    /// Whether nothing closes the raw HTML that these bytes would begin, by its first bytes.
    fn lacks_end(&mut self, bytes: &[u8]) -> bool
        requires { IsRest self.old.content.now bytes.now }
        ensures content { self.new.content ≡ self.old.content }
        ensures none { result ≡ true → html_after bytes.now ≡ None }
    {
        let content = self.content.as_bytes();
        if bytes.starts_with(b"<!--") {
            let rest = from(bytes, 4);
            if rest.starts_with(b">") || rest.starts_with(b"->") {
                return false;
            }
            self.comment = search(b"-->", content, rest, self.comment);
            return rest.len() <= self.comment;
        }
        if bytes.starts_with(b"<?") {
            let rest = from(bytes, 2);
            self.instruction = search(b"?>", content, rest, self.instruction);
            return rest.len() <= self.instruction;
        }
        if begins_cdata(bytes) {
            let rest = from(bytes, 9);
            self.cdata = search(b"]]>", content, rest, self.cdata);
            return rest.len() <= self.cdata;
        }
        if bytes.starts_with(b"<!") && begins_with_letter(from(bytes, 2)) {
            let rest = from(bytes, 2);
            self.declaration = search(b">", content, rest, self.declaration);
            return rest.len() <= self.declaration;
        }
        false
    }
}

/// How many bytes of a content's end are known to lack a text, after a search in a rest of it.
fn search(text: &[u8], content: &[u8], rest: &[u8], known: usize) -> usize
    requires text { ClosesText text.now }
    requires known { Lacks text.now content.now known }
    requires rest { IsRest content.now rest.now }
    ensures known { Lacks text.now content.now result }
    ensures rest { length rest.now ≤ result → after_text text.now rest.now ≡ None }
{
    if rest.len() <= known {
        return known;
    }
    match text_end(text, rest, 0) {
        Some(_) => known,
        None => rest.len(),
    }
}
