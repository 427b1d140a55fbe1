//! The scan of a content from left to right (CommonMark 6 and appendix, phase 2).
//!
//!     content ::= white* (text | leaf | literal | run | start | ']')*
ghost use Rattle.std.specs.Prelude.{◌≡◌, ◌<◌, ◌≤◌, ◌==◌, ◌&&◌, ℕ, Bool, List, [], ◌∷◌, Option, None, Some, false, true};
ghost use Rattle.std.specs.Prelude.{length, map, not, IfOk, IfSome, OnOk, take, drop, slice_index};
ghost use Rattle.std.specs.List.{list_any, prefix_len};
ghost use Rattle.std.specs.Option.{is_some};
ghost use Rattle.std.specs.Str.{IsCharBoundary};
ghost use Rattle.definition_text.specs.Ascii.{at_sign, right_bracket};
ghost use Rattle.definition_text.specs.Columns.{is_blank, is_white};
ghost use Rattle.definition_text.specs.Encode.{encode};
ghost use Rattle.definition_text.specs.Content.{content_codes};
ghost use Rattle.definition_inline.specs.Inline.{Target, LinkTexts};
ghost use Rattle.definition_inline.specs.Targets.{leads_to};
ghost use Rattle.inline_rows.specs.InlineRows.{inline_rows, Part};
ghost use Rattle.definition_inline.specs.Scan as scan;
ghost use Rattle.definition_inline.specs.Scan.{inlines_from, spans_from, without_indent, formed_at, label_start_at, read_tokens};
ghost use Rattle.definition_inline.specs.Scan.{start_bytes};
ghost use Rattle.definition_inline.specs.Spans.{Delimiters};
ghost use Rattle.definition_inline.specs.Targets.{Targets, labels_of, linked_at, linked_by};
ghost use Rattle.inline_runs.specs.View.{run_view};
ghost use Rattle.inline_content.specs.View.{content_view, view_at};
ghost use Rattle.inline_leaves.specs.Leaves.{leaf_items, parts_of, size_before, text_items, IsAfter};
ghost use Rattle.inline_content.specs.declared.content.Content.{Content as SeenContent};
ghost use Rattle.inline_rows.specs.View.{line_leaf, row_view, rows_view};
ghost use Rattle.inline_label_ends.specs.Ends.{IsAfterFormed, IsFormed};
ghost use Rattle.inline_parser.specs.Scanned.{context_by, HasTargets, IsPlace, IsPlacedBy, IsRunFront, IsSingle};
ghost use Rattle.inline_reading.specs.Shows.{ended_here};
ghost use Rattle.inline_reading.specs.LabelStarts.{StartsLabel};
ghost use Rattle.inline_parser.specs.Scanned.{GoesOnBy, HasNoLeaf, HasNoLeafHere, HasNoRun, Shortens, StaysPlaced};
ghost use Rattle.inline_addresses.specs.Addresses.{has_at_sign, row_text};
ghost use Rattle.inline_parser.specs.Found.{found_rows};
ghost use Rattle.inline_parser.specs.Found.{is_alone};
ghost use Rattle.inline_text.specs.Verbatim.{AreVerbatim, TellsVerbatim};
ghost use Rattle.inline_text.specs.Fronts.{IsTextOf};
ghost use Rattle.inline_text.specs.Plain.{front_leaf};
ghost use Rattle.inline_reading.specs.Shows.{with_open_label, start_view, IsSound, Shows, ShowsThen, StartsBefore};

use crate::found::FoundRows;
use crate::gfm_autolink_literal::rows_with_literals;
use inline_addresses::may_link;
use inline_constructs::leaf_at::leaf_at;
use inline_constructs::searches::Searches;
use inline_content::Content;
use inline_label_ends::{LabelForm, call_or_link, link_or_image};
use inline_labels::LabelTable;
use inline_leaves::Leaf;
use inline_leaves::cut::{cut_after, rest_from, text_before};
use inline_leaves::space::white_size;
use inline_links::part::from;
use inline_literals::{NamesInVain, literal_at};
use inline_reading::label::LabelStart;
use inline_reading::label_start::{is_label_end, label_start_at};
use inline_reading::{Reading, Room, RowRoom};
use inline_rows::{InlineRow, VerbatimText};
use inline_runs::Run;
use inline_text::{Front, front_of};
use markdown_options::{Constructs, ParseOptions, Tables};
use std::alloc::{AllocError, Allocator};
use std::slice::from_ref;
use text_bytes::is_blank;

/// What a content is read by.
#[derive(Drop)]
pub(crate) struct Source<'a, 'd, T, A: Allocator + Clone> {
    pub(crate) options: &'a ParseOptions,
    pub(crate) tables: &'a T,
    pub(crate) labels: &'d LabelTable<A>,
    pub(crate) footnotes: &'d LabelTable<A>,
    pub(crate) content: Content<'a>,
}

/// A content that is being read.
#[derive(Drop)]
pub(crate) struct Scanner<'a, A: Allocator> {
    pub(crate) searches: Searches<'a, A>,
    /// Where names of literals begin in vain.
    pub(crate) names: NamesInVain,
    /// What is left of it.
    pub(crate) rest: &'a str,
    pub(crate) reading: Reading<'a, A>,
}

/// The inline structure of a content from a place on, as rows (CommonMark 6), where these are the
/// labels of the document's link reference definitions and of its footnote definitions. Whatever
/// the rooms hold makes no difference.
#[inline(always)]
pub fn inline_rows<'a, 'd, 'r, T: Tables, A: Allocator + Clone>(
    room: &'r mut Room<A>,
    row_room: &'r mut RowRoom<'a, A>,
    options: &'a ParseOptions,
    tables: &'a T,
    labels: &'d LabelTable<A>,
    footnotes: &'d LabelTable<A>,
    content: Content<'a>,
    start: &'a str,
) -> Result<FoundRows<'r, A>, AllocError>
    requires { IsPlace content.text.now start.now }
    ensures { (ds : Targets) → HasTargets labels.now footnotes.now ds →
        IfOk result (λ found. rows_view (linked_at ds.definitions) (found_rows found)
        ≡ inline_rows (leads_to (linked_by ds.definitions))
        (inlines_from (context_by options.now (T.reference_of tables.now) ds) (view_at (T.punctuation_of tables.now) content.entry start.now))) }
{
    let front = front_of(&options.constructs, start);
    if let Some(row) = text_alone(options, start, front) {
        return Ok(FoundRows::Alone(row));
    }
    span_rows(
        room, row_room, options, tables, labels, footnotes, content, start, front,
    )?;
    if options.constructs.gfm_autolink_literal {
        rows_with_literals(room, &row_room.rows)
    } else {
        Ok(FoundRows::InRoom(&row_room.rows))
    }
}

/// The same while addresses are text, and links may hold literals, given the text at its front. The
/// rows stand in the room for them.
fn span_rows<'a, 'd, T: Tables, A: Allocator + Clone>(
    room: &mut Room<A>,
    row_room: &mut RowRoom<'a, A>,
    options: &'a ParseOptions,
    tables: &'a T,
    labels: &'d LabelTable<A>,
    footnotes: &'d LabelTable<A>,
    content: Content<'a>,
    start: &'a str,
    front: Front,
) -> Result<(), AllocError>
    requires place { IsPlace content.text.now start.now }
    requires front { IsTextOf options.now.constructs start.now front }
    ensures { (ds : Targets) → HasTargets labels.now footnotes.now ds →
        OnOk result (rows_view (linked_at ds.definitions) row_room.new.rows.items
        ≡ inline_rows (leads_to (linked_by ds.definitions))
        (spans_from (context_by options.now (T.reference_of tables.now) ds) (view_at (T.punctuation_of tables.now) content.entry start.now))) }
{
    let source = Source {
        options,
        tables,
        labels,
        footnotes,
        content,
    };
    let mut scanner = Scanner {
        searches: Searches::new(room.alloc.clone()?, content.text()),
        names: NamesInVain::new(),
        rest: start,
        reading: Reading::new(room, row_room)?,
    };
    scanner.read_front(&source, front)?;
    while !scanner.rest.is_empty() {
        scanner.step(&source)?;
    }
    let Scanner { reading, .. } = scanner;
    reading.finish(room, row_room)
}

/// A content after the spaces and tabs at its start.
pub fn content_start<'a>(content: Content<'a>) -> &'a str
    ensures place { IsPlace content.entry.text.now result.now }
    ensures view { (is_punctuation : ℕ → Bool) →
        view_at is_punctuation content.entry result.now ≡ without_indent (content_view is_punctuation content.entry) }
{
    after_white(content.text())
}

/// The row of what is left of a content with this text at its front, if it is text alone but for soft
/// line breaks and the spaces and tabs at its end: nothing else starts in it, and no address may be in
/// it (GFM 6.9).
fn text_alone<'a>(options: &ParseOptions, start: &'a str, front: Front) -> Option<InlineRow<'a>>
    requires { IsTextOf options.now.constructs start.now front }
    ensures alone { is_some result
        ≡ (is_alone front start.now && not (options.now.constructs.gfm_autolink_literal && has_at_sign (Some (take front.size start.now)))) }
    ensures rows { (names : List ℕ → Option (List ℕ)) (is_punctuation : ℕ → Bool) (ds : Targets) (leads : Target → LinkTexts) (at : ℕ → LinkTexts)
        (content : SeenContent) → IsPlace content.text.now start.now → IfSome result (λ row. row_view at row
        ≡ inline_rows leads (inlines_from (context_by options.now names ds) (view_at is_punctuation content start.now))) }
{
    let row = span_alone(options, start, front)?;
    if options.constructs.gfm_autolink_literal && may_link(from_ref(&row)) {
        return None;
    }
    Some(row)
}

/// The same while addresses are text.
fn span_alone<'a>(options: &ParseOptions, start: &'a str, front: Front) -> Option<InlineRow<'a>>
    requires { IsTextOf options.now.constructs start.now front }
    ensures alone { is_some result ≡ is_alone front start.now }
    ensures text { IfSome result (λ row. row_text row ≡ Some (take front.size start.now)) }
    ensures rows { (names : List ℕ → Option (List ℕ)) (is_punctuation : ℕ → Bool) (ds : Targets) (leads : Target → LinkTexts) (at : ℕ → LinkTexts)
        (content : SeenContent) → IsPlace content.text.now start.now → IfSome result (λ row. row_view at row
        ≡ inline_rows leads (spans_from (context_by options.now names ds) (view_at is_punctuation content start.now))) }
{
    if front.size == 0 {
        return None;
    }
    let text = text_before(start, front.size);
    if is_blank_from(start, front.size) {
        Some(text_row(options.constructs.gfm_autolink_literal, front, text))
    } else {
        None
    }
}

/// Whether only spaces and tabs stand in a text from a place on.
fn is_blank_from(text: &str, at: usize) -> bool
    requires { at ≤ length text.now }
    ensures blank { result ≡ is_blank (drop at text.now) }
    ensures bytes { (k : ℕ) → slice_index text.now k < 256 }
{
    is_blank(from(text.as_bytes(), at))
}

/// The row of a text that is all at its front. Verbatim text has no `@` where literals are on.
fn text_row<'a>(has_literals: bool, front: Front, text: &'a str) -> InlineRow<'a>
    requires same { front.is_verbatim ≡ true → encode text.now ≡ text.now }
    requires bare { front.is_verbatim ≡ true → has_literals ≡ true → list_any (λ b. b == at_sign) text.now ≡ false }
    ensures text { row_text result ≡ Some text.now }
    ensures rows { (at : ℕ → LinkTexts) → row_view at result ≡ map Part (map (front_leaf front.is_verbatim) text.now) }
{
    if front.is_verbatim {
        InlineRow::Verbatim(VerbatimText {
            text,
            has_no_at_sign: has_literals,
        })
    } else {
        InlineRow::Text(text)
    }
}

/// A text after its spaces and tabs.
fn after_white(text: &str) -> &str
    ensures place { IsPlace text.now result.now }
    ensures size { size_before text.now result.now ≡ prefix_len is_white (content_codes text.now) }
{
    let size = white_size(text.as_bytes());
    if size == 0 {
        return text;
    }
    cut_after(text, size)
}

/// The first byte of a text, which is ASCII.
fn first_byte(text: &str) -> &str
    requires some { 0 < length text.now }
    requires ascii { slice_index text.now 0 < 128 }
    ensures { result.now ≡ take 1 text.now }
{
    text_before(text, 1)
}

impl<'a, A: Allocator + Clone> Scanner<'a, A> {
    /// Reads what comes next.
    fn step<T: Tables>(&mut self, source: &Source<'a, '_, T, A>) -> Result<(), AllocError>
        requires placed { IsPlacedBy T.Tables source.now self.old }
        requires some { 0 < length self.old.rest.now }
        ensures placed { OnOk result (IsPlacedBy T.Tables source.now self.new) }
        ensures shorter { Shortens self.old result self.new }
        ensures read { GoesOnBy T.Tables source.now self.old result self.new }
    {
        let front = front_of(&source.options.constructs, self.rest);
        if front.size > 0 {
            return self.read_front(source, front);
        }
        match leaf_at(source.options, source.tables, &mut self.searches, self.rest)? {
            Some(leaf) => self.leaf(leaf),
            None => self.literal_or_run(source),
        }
    }

    /// Reads the text at the front, if there is any.
    fn read_front<T: Tables>(
        &mut self,
        source: &Source<'a, '_, T, A>,
        front: Front,
    ) -> Result<(), AllocError>
        requires placed { IsPlacedBy T.Tables source.now self.old }
        requires front { IsTextOf source.now.options.now.constructs self.old.rest.now front }
        ensures placed { OnOk result (IsPlacedBy T.Tables source.now self.new) }
        ensures shorter { 0 < front.size → Shortens self.old result self.new }
        ensures read { GoesOnBy T.Tables source.now self.old result self.new }
    {
        if front.size == 0 {
            return Ok(());
        }
        self.front(source.options.constructs.gfm_autolink_literal, front)
    }

    /// A literal, a run, a label start, a `]`, or a byte of text.
    fn literal_or_run<T: Tables>(&mut self, source: &Source<'a, '_, T, A>) -> Result<(), AllocError>
        requires placed { IsPlacedBy T.Tables source.now self.old }
        requires some { 0 < length self.old.rest.now }
        requires no_leaf { HasNoLeaf (T.reference_of source.now.tables.now) source.now self.old.rest.now }
        requires first { IsSingle self.old.rest.now }
        ensures placed { OnOk result (IsPlacedBy T.Tables source.now self.new) }
        ensures shorter { Shortens self.old result self.new }
        ensures read { GoesOnBy T.Tables source.now self.old result self.new }
    {
        match literal_at(
            &source.options.constructs,
            source.tables,
            source.content,
            &mut self.names,
            self.rest,
        ) {
            Some(leaf) => self.leaf(leaf),
            None => self.run_or_label(source),
        }
    }

    /// The text at the front.
    fn front(&mut self, has_literals: bool, front: Front) -> Result<(), AllocError>
        requires sound { IsSound self.old.reading }
        requires boundary { IsCharBoundary self.old.rest.now front.size }
        requires next { IsAfter self.old.rest.now (drop front.size self.old.rest.now) }
        requires verbatim { TellsVerbatim has_literals self.old.rest.now front }
        ensures placed { StaysPlaced self.old result self.new }
        ensures rest { OnOk result (self.new.rest.now ≡ drop front.size self.old.rest.now) }
        ensures read { ShowsThen self.old.reading result self.new.reading
            (read_tokens (leaf_items (map (front_leaf front.is_verbatim) (take front.size self.old.rest.now)))) }
    {
        if front.is_verbatim {
            self.verbatim(has_literals, front.size)
        } else {
            self.text(front.size)
        }
    }

    /// Bytes of text and soft line breaks that are printed as they are, so many. None is `@` where
    /// literals are on.
    fn verbatim(&mut self, has_literals: bool, size: usize) -> Result<(), AllocError>
        requires sound { IsSound self.old.reading }
        requires boundary { IsCharBoundary self.old.rest.now size }
        requires next { IsAfter self.old.rest.now (drop size self.old.rest.now) }
        requires verbatim { AreVerbatim has_literals self.old.rest.now size }
        ensures placed { StaysPlaced self.old result self.new }
        ensures rest { OnOk result (self.new.rest.now ≡ drop size self.old.rest.now) }
        ensures read { ShowsThen self.old.reading result self.new.reading (read_tokens (leaf_items (map line_leaf (take size self.old.rest.now)))) }
    {
        let text = text_before(self.rest, size);
        self.reading.verbatim(VerbatimText {
            text,
            has_no_at_sign: has_literals,
        })?;
        self.rest = rest_from(self.rest, size);
        Ok(())
    }

    /// Bytes of text, so many.
    fn text(&mut self, size: usize) -> Result<(), AllocError>
        requires sound { IsSound self.old.reading }
        requires boundary { IsCharBoundary self.old.rest.now size }
        requires next { IsAfter self.old.rest.now (drop size self.old.rest.now) }
        ensures placed { StaysPlaced self.old result self.new }
        ensures rest { OnOk result (self.new.rest.now ≡ drop size self.old.rest.now) }
        ensures read { ShowsThen self.old.reading result self.new.reading (read_tokens (text_items (take size self.old.rest.now))) }
    {
        self.reading.text(text_before(self.rest, size))?;
        self.rest = rest_from(self.rest, size);
        Ok(())
    }

    /// A construct that holds no other.
    fn leaf(&mut self, leaf: Leaf<'a>) -> Result<(), AllocError>
        requires sound { IsSound self.old.reading }
        requires next { IsAfter self.old.rest.now leaf.after.now }
        ensures placed { StaysPlaced self.old result self.new }
        ensures rest { OnOk result (self.new.rest.now ≡ leaf.entry.after.now) }
        ensures read { ShowsThen self.old.reading result self.new.reading (read_tokens (leaf_items (parts_of leaf.entry.part))) }
    {
        self.reading.leaf(leaf.part)?;
        self.rest = leaf.after;
        Ok(())
    }

    /// A run, a label start, a `]`, or a byte of text.
    fn run_or_label<T: Tables>(&mut self, source: &Source<'a, '_, T, A>) -> Result<(), AllocError>
        requires placed { IsPlacedBy T.Tables source.now self.old }
        requires some { 0 < length self.old.rest.now }
        requires no_leaf { HasNoLeafHere (T.reference_of source.now.tables.now) (T.punctuation_of source.now.tables.now) source.now self.old.rest.now }
        requires first { IsSingle self.old.rest.now }
        ensures placed { OnOk result (IsPlacedBy T.Tables source.now self.new) }
        ensures shorter { Shortens self.old result self.new }
        ensures read { GoesOnBy T.Tables source.now self.old result self.new }
    {
        match source
            .content
            .run_at(source.options, source.tables, self.rest)
        {
            Some(run) => self.run(run),
            None => self.label_or_byte(source),
        }
    }

    /// A run (CommonMark 6.2).
    #[inline(always)]
    fn run(&mut self, run: Run) -> Result<(), AllocError>
        requires sound { IsSound self.old.reading }
        requires first { IsSingle self.old.rest.now }
        requires front { IsRunFront self.old.rest.now run }
        ensures placed { StaysPlaced self.old result self.new }
        ensures rest { OnOk result (self.new.rest.now ≡ drop run.size self.old.rest.now) }
        ensures read { ShowsThen self.old.reading result self.new.reading (read_tokens (Delimiters (run_view run) ∷ [])) }
    {
        self.reading.run(run, first_byte(self.rest))?;
        self.rest = cut_after(self.rest, run.size);
        Ok(())
    }

    /// A label start, a `]`, or a byte of text.
    fn label_or_byte<T: Tables>(&mut self, source: &Source<'a, '_, T, A>) -> Result<(), AllocError>
        requires placed { IsPlacedBy T.Tables source.now self.old }
        requires some { 0 < length self.old.rest.now }
        requires no_leaf { HasNoLeafHere (T.reference_of source.now.tables.now) (T.punctuation_of source.now.tables.now) source.now self.old.rest.now }
        requires first { IsSingle self.old.rest.now }
        requires no_run { HasNoRun (T.punctuation_of source.now.tables.now) source.now self.old.rest.now }
        ensures placed { OnOk result (IsPlacedBy T.Tables source.now self.new) }
        ensures shorter { Shortens self.old result self.new }
        ensures read { GoesOnBy T.Tables source.now self.old result self.new }
    {
        if let Some(start) = label_start_at(&source.options.constructs, self.rest) {
            return self.start(start);
        }
        if is_label_end(&source.options.constructs, self.rest) {
            self.end(source)
        } else {
            self.text(1)
        }
    }

    /// A label start (CommonMark 6.3 and 6.4).
    #[inline(always)]
    fn start(&mut self, start: LabelStart) -> Result<(), AllocError>
        requires sound { IsSound self.old.reading }
        requires front { StartsLabel self.old.rest.now start }
        ensures placed { StaysPlaced self.old result self.new }
        ensures rest { OnOk result (self.new.rest.now ≡ drop (length (start_bytes (start_view start))) self.old.rest.now) }
        ensures read { ShowsThen self.old.reading result self.new.reading
            (with_open_label start (drop (length (start_bytes (start_view start))) self.old.rest.now)) }
    {
        let size = start.size();
        let after = cut_after(self.rest, size);
        self.reading
            .start(start, text_before(self.rest, size), after)?;
        self.rest = after;
        Ok(())
    }

    /// A `]`: what it forms, or else text (CommonMark 6.3 and 6.4).
    fn end<T: Tables>(&mut self, source: &Source<'a, '_, T, A>) -> Result<(), AllocError>
        requires placed { IsPlacedBy T.Tables source.now self.old }
        requires some { 0 < length self.old.rest.now }
        requires no_leaf { HasNoLeafHere (T.reference_of source.now.tables.now) (T.punctuation_of source.now.tables.now) source.now self.old.rest.now }
        requires first { IsSingle self.old.rest.now }
        requires no_run { HasNoRun (T.punctuation_of source.now.tables.now) source.now self.old.rest.now }
        requires no_start { label_start_at source.now.options.now.constructs (content_codes self.old.rest.now) ≡ None }
        requires bracket { (source.now.options.now.constructs.label_end && (slice_index self.old.rest.now 0 == right_bracket)) ≡ true }
        ensures placed { OnOk result (IsPlacedBy T.Tables source.now self.new) }
        ensures shorter { Shortens self.old result self.new }
        ensures read { GoesOnBy T.Tables source.now self.old result self.new }
    {
        let after = cut_after(self.rest, 1);
        match self.innermost_label_end(source, after)? {
            Some(LabelForm::Leads(end)) => {
                self.reading.form(end.target)?;
                self.rest = end.after;
                Ok(())
            }
            Some(LabelForm::Calls(label)) => {
                self.reading.call(label)?;
                self.rest = after;
                Ok(())
            }
            None => {
                self.reading.unform();
                self.text(1)
            }
        }
    }

    /// What a `]` before this content forms with the innermost label start that is open, unless a
    /// link would hold a link (CommonMark 6.3).
    fn innermost_label_end<T: Tables>(
        &self,
        source: &Source<'a, '_, T, A>,
        after: &'a str,
    ) -> Result<Option<LabelForm<'a>>, AllocError>
        requires placed { StartsBefore self.now.rest.now self.now.reading }
        requires bracket { self.now.rest.now ≡ right_bracket ∷ after.now }
        ensures read { (leads : Target → LinkTexts) (at : ℕ → LinkTexts) (r : scan.Reading) (names : List ℕ → Option (List ℕ)) (ds : Targets) →
            HasTargets source.now.labels.now source.now.footnotes.now ds → Shows leads at self.now.reading r →
            IfOk result (λ found. IsFormed (labels_of ds.definitions) after.now found
            (ended_here (context_by source.now.options.now names ds) (content_codes self.now.rest.now) r.open_labels r.now)) }
        ensures place { IfOk result (λ found. IfSome found (λ formed. IsAfterFormed after.now formed)) }
    {
        match self.reading.labels.last() {
            Some(label) => {
                if !label.start.may_form(self.reading.holds_link) {
                    return Ok(None);
                }
                let from = label.from;
                let text = text_before(from, from.len() - self.rest.len());
                formed_at(source, label.start, text, after)
            }
            None => Ok(None),
        }
    }
}

/// What the text between a label start and a `]` forms, where this follows (CommonMark 6.3 and
/// 6.4).
fn formed_at<'a, T, A: Allocator + Clone>(
    source: &Source<'a, '_, T, A>,
    start: LabelStart,
    text: &'a str,
    after: &'a str,
) -> Result<Option<LabelForm<'a>>, AllocError>
    ensures read { (names : List ℕ → Option (List ℕ)) (ds : Targets) → HasTargets source.now.labels.now source.now.footnotes.now ds →
        IfOk result (λ found. IsFormed (labels_of ds.definitions) after.now found
        (formed_at (context_by source.now.options.now names ds) (start_view start) (content_codes text.now) (content_codes after.now))) }
    ensures place { IfOk result (λ found. IfSome found (λ formed. IsAfterFormed after.now formed)) }
{
    let on = &source.options.constructs;
    match start {
        LabelStart::Link => call_or_link(on, source.labels, source.footnotes, text, after),
        LabelStart::Image => link_or_image(source.labels, text, after),
    }
}
