//! The rows of the events in a text.
ghost use Rattle.std.specs.Prelude.{◌≡◌, ◌≤◌, ◌<◌, ◌+◌, ◌^◌, ◌++◌, ◌∷◌, ◌==◌, ◌||◌, ℕ, Bool, List, [], IfOk, IfSome, OnOk, drop, length, not};
ghost use Rattle.engine_events.specs.Names.{is_listed};
ghost use Rattle.definition_inline.specs.CharacterReference.{Names};
ghost use Rattle.definition_inline.specs.CodeText.{without_padding};
ghost use Rattle.definition_inline.specs.Inline.{Target, LinkTexts};
ghost use Rattle.event_grammar.specs.Trees.{Nodes, AreNodes, events_of};
ghost use Rattle.event_meaning.specs.Texts.{inlines_of, text_names};
ghost use Rattle.compile_rows.specs.Ahead.{AreStringsOf};
ghost use Rattle.event_grammar.specs.Spans.{span_of};
ghost use Rattle.compile_rows.specs.Places.{place, is_around, is_counted, entered_in, exited_in};
ghost use Rattle.compile_strings.specs.RawTexts.{sequence_of};
ghost use Rattle.compile_rows.specs.Rows.{raw_leaf, alone_rows, part_rows, enter_rows, rows_by};
ghost use Rattle.compile_strings.specs.Spelled.{AreSpelled, raws_by, targets_by};
ghost use Rattle.compile_rows.specs.Texts.{HaveEndings};
ghost use Rattle.compile_rows.specs.declared.rows.Mode.{Mode as AMode};
ghost use Rattle.compile_rows.specs.declared.rows.Mode.TheVariants as modes;
ghost use Rattle.compile_written.specs.Texts.{AreTexts};
ghost use Rattle.inline_rows.specs.InlineRows.{inline_rows};
ghost use Rattle.inline_rows.specs.View.{row_view, rows_view, spelled_view};

use crate::leaf::{has, push_leaf};
use compile_strings::label_end::is_media;
use compile_strings::raw_text::{begins, is_exit, sequence_of, whole_piece};
use compile_strings::texts::text_of;
use compile_strings::{SpelledStrings, TextEvents};
use compile_written::child::{inside, text_first};
use engine_events::event::{Event, Kind, Name};
use event_grammar::spans::span_of;
use inline_rows::{InlineRow, SpelledLeaf};
use markdown_options::Tables;
use std::alloc::{AllocError, Allocator};

/// Returns the rows of the events in a text, whose strings were read from the same events. The only
/// error is out of memory.
pub fn text_rows<'a, T: Tables, A: Allocator + Clone>(
    alloc: A,
    texts: &TextEvents<'a, T, A>,
    strings: &'a SpelledStrings<A>,
    events: &[Event],
) -> Result<Vec<InlineRow<'a>, A>, AllocError>
    ensures rows { (leads : Target → LinkTexts) (at : ℕ → LinkTexts) →
        let names = T.reference_of texts.now.tables.now in
        let bytes = texts.now.bytes.now in
        AreSpelled names bytes leads at strings.now events.now →
        IfOk result (λ rows. rows_view at rows.items ≡ rows_by names bytes leads texts.now.linked (place modes.Text 0 0) events.now) }
    ensures structure { (leads : Target → LinkTexts) (at : ℕ → LinkTexts) (ns : Nodes) →
        let names = T.reference_of texts.now.tables.now in
        let bytes = texts.now.bytes.now in
        events.now ≡ events_of ns → AreNodes ns → AreTexts bytes ns → HaveEndings bytes ns →
        AreSpelled names bytes leads at strings.now events.now →
        IfOk result (λ rows. rows_view at rows.items ≡ inline_rows leads (inlines_of names bytes texts.now.linked ns)) }
{
    let mut walk = Walk {
        rows: Vec::with_capacity(alloc, events.len() / 4 + 1)?,
        place: Place::new(),
        targets: 0,
        raw_texts: 0,
    };
    let mut rest = events;
    while let Some((event, after)) = rest.split_first() {
        match event.kind {
            Kind::Enter => walk.enter(texts, strings, event.name, rest)?,
            Kind::Exit => walk.exit(event.name)?,
        }
        let (skipped, left) = pass_over(walk.place.skipped, after);
        walk.place.skipped = skipped;
        rest = left;
    }
    Ok(walk.rows)
}

/// Returns the row of the events in a text that is one piece of data, with spaces or tabs around it
/// or not, and none of another text.
pub fn alone_row<'a>(bytes: &'a [u8], events: &[Event]) -> Option<InlineRow<'a>>
    ensures rows { (names : Names) (leads : Target → LinkTexts) (at : ℕ → LinkTexts) (in_link : Bool) →
        IfSome result (λ row. rows_view at (row ∷ []) ≡ rows_by names bytes.now leads in_link (place modes.Text 0 0) events.now) }
    ensures structure { (names : Names) (leads : Target → LinkTexts) (at : ℕ → LinkTexts) (in_link : Bool) (ns : Nodes) →
        events.now ≡ events_of ns → AreNodes ns → AreTexts bytes.now ns → HaveEndings bytes.now ns →
        IfSome result (λ row. rows_view at (row ∷ []) ≡ inline_rows leads (inlines_of names bytes.now in_link ns)) }
{
    let data = after_space(events);
    match data {
        [enter, exit, after @ ..] => {
            if begins(enter, Name::Data) && is_exit(exit.kind) && after_space(after).is_empty() {
                Some(InlineRow::Text(text_of(text_first(bytes, data))))
            } else {
                None
            }
        }
        _ => None,
    }
}

/// The events after spaces or tabs, if they begin with these.
fn after_space(events: &[Event]) -> &[Event]
    ensures { (names : Names) (bytes : List ℕ) (leads : Target → LinkTexts) (in_link : Bool) →
        rows_by names bytes leads in_link (place modes.Text 0 0) result.now ≡ rows_by names bytes leads in_link (place modes.Text 0 0) events.now }
{
    match events {
        [enter, exit, after @ ..] => {
            if begins(enter, Name::SpaceOrTab) && is_exit(exit.kind) {
                after
            } else {
                events
            }
        }
        _ => events,
    }
}

/// Passes over events in one that is skipped, where so many are open, up to its exit or to one whose
/// strings were read ahead. Returns how many are open there, and the events to go on with.
fn pass_over(skipped: usize, events: &[Event]) -> (usize, &[Event])
    requires { skipped + length events.now < 2 ^ 64 }
    ensures rows { (names : Names) (bytes : List ℕ) (leads : Target → LinkTexts) (in_link : Bool) (mode : AMode) (links : ℕ) →
        rows_by names bytes leads in_link (place mode result.0 links) result.1.now ≡ rows_by names bytes leads in_link (place mode skipped links) events.now }
    ensures targets { (names : Names) (bytes : List ℕ) (leads : Target → LinkTexts) →
        targets_by names bytes leads result.1.now ≡ targets_by names bytes leads events.now }
    ensures raws { (bytes : List ℕ) → raws_by bytes result.1.now ≡ raws_by bytes events.now }
    ensures fits { result.0 + length result.1.now ≤ skipped + length events.now }
    ensures shorter { length result.1.now ≤ length events.now }
{
    let mut depth = skipped;
    let mut rest = events;
    while let Some((event, after)) = rest.split_first() {
        if depth == 0 {
            return (depth, rest);
        }
        match event.kind {
            Kind::Enter => {
                if is_counted(event.name) {
                    return (depth, rest);
                }
                depth += 1;
            }
            Kind::Exit => depth -= 1,
        }
        rest = after;
    }
    (depth, rest)
}

/// What the innermost event is whose children aren't skipped.
#[derive(Clone, Copy, PartialEq, Eq)]
pub enum Mode {
    /// A text, whose children have rows.
    Text,
    /// A span, a link, an image or a label, before its text.
    Before,
    /// A span, a link, an image or a label, after its text.
    Behind,
}

/// Where a walk over events is.
#[derive(Clone, Copy)]
pub struct Place {
    mode: Mode,
    /// How many events are open that are skipped, with all in them.
    skipped: usize,
    /// How many links are open.
    links: usize,
}

impl Place {
    ghost use Rattle.std.specs.Prelude.{◌≡◌, ◌<◌, ◌+◌, ◌^◌, ◌≤◌};
    ghost use Rattle.compile_rows.specs.Places.{place, is_in_text, entered, entered_in, exited, exited_in};
    ghost use Rattle.compile_rows.specs.declared.rows.Mode.TheVariants as modes;

    /// The start of a text.
    fn new() -> Place
        ensures { result ≡ place modes.Text 0 0 }
    {
        Place {
            mode: Mode::Text,
            skipped: 0,
            links: 0,
        }
    }

    /// Whether an event that is entered here is a part of a text.
    fn is_in_text(self) -> bool
        ensures { result ≡ is_in_text self }
    {
        self.skipped == 0 && matches!(self.mode, Mode::Text)
    }

    /// The place after an event of this name is entered.
    fn entered(self, name: Name) -> Place
        requires skipped { self.skipped + 1 < 2 ^ 64 }
        requires links { self.links + 1 < 2 ^ 64 }
        ensures place { result ≡ entered self name }
        ensures skipped { result.skipped ≤ self.skipped + 1 }
        ensures links { result.links ≤ self.links + 1 }
    {
        if self.skipped != 0 {
            return Place {
                mode: self.mode,
                skipped: self.skipped + 1,
                links: self.links,
            };
        }
        match self.mode {
            Mode::Text => in_text(name, self.links),
            Mode::Before => before_text(name, self.links),
            Mode::Behind => Place {
                mode: Mode::Behind,
                skipped: 1,
                links: self.links,
            },
        }
    }

    /// The place after an event of this name is exited.
    fn exited(self, name: Name) -> Place
        ensures place { result ≡ exited self name }
        ensures skipped { result.skipped ≤ self.skipped }
        ensures links { result.links ≤ self.links }
    {
        if self.skipped != 0 {
            return Place {
                mode: self.mode,
                skipped: self.skipped - 1,
                links: self.links,
            };
        }
        match self.mode {
            Mode::Text => Place {
                mode: Mode::Behind,
                skipped: 0,
                links: self.links,
            },
            Mode::Before => behind_text(name, self.links),
            Mode::Behind => behind_text(name, self.links),
        }
    }
}

/// The place after an event is entered in a text, in so many links.
fn in_text(name: Name, links: usize) -> Place
    requires { links + 1 < 2 ^ 64 }
    ensures place { result ≡ entered_in modes.Text name links }
    ensures skipped { result.skipped ≤ 1 }
    ensures links { result.links ≤ links + 1 }
{
    if is_around(name) {
        Place {
            mode: Mode::Before,
            skipped: 0,
            links: if name == Name::Link { links + 1 } else { links },
        }
    } else {
        Place {
            mode: Mode::Text,
            skipped: 1,
            links,
        }
    }
}

/// The place after an event is entered in front of the text of a span, a link or an image.
fn before_text(name: Name, links: usize) -> Place
    ensures place { result ≡ entered_in modes.Before name links }
    ensures skipped { result.skipped ≤ 1 }
    ensures links { result.links ≡ links }
{
    if is_text(name) {
        return Place {
            mode: Mode::Text,
            skipped: 0,
            links,
        };
    }
    Place {
        mode: Mode::Before,
        skipped: if name == Name::Label { 0 } else { 1 },
        links,
    }
}

/// The place after the exit of a label, a span, a link or an image.
fn behind_text(name: Name, links: usize) -> Place
    ensures place { result ≡ exited_in modes.Behind name links }
    ensures skipped { result.skipped ≡ 0 }
    ensures links { result.links ≤ links }
{
    if name == Name::Label {
        return Place {
            mode: Mode::Behind,
            skipped: 0,
            links,
        };
    }
    Place {
        mode: Mode::Text,
        skipped: 0,
        links: if name == Name::Link {
            links.saturating_sub(1)
        } else {
            links
        },
    }
}

/// Whether strings of an event of this name were read ahead: it is a link, an image, a call, or raw
/// text.
fn is_counted(name: Name) -> bool
    ensures { result ≡ is_counted name }
{
    is_media(name) || name == Name::CodeText || name == Name::MathText
}

/// Whether the text of an event of this name has rows, between a row for its start and one for its
/// end.
fn is_around(name: Name) -> bool
    ensures { result ≡ is_around name }
{
    span_of(name).is_some() || (name == Name::Link || name == Name::Image)
}

/// A walk over the events of a text.
#[derive(Drop)]
pub struct Walk<'a, A: Allocator> {
    rows: Vec<InlineRow<'a>, A>,
    place: Place,
    /// How many links, images and calls were entered.
    targets: usize,
    /// How many raw texts that are joined were entered.
    raw_texts: usize,
}

impl<'a, A: Allocator + Clone> Walk<'a, A> {
    ghost use Rattle.std.specs.Prelude.{◌≡◌, ◌≤◌, ◌<◌, ◌+◌, ◌^◌, ◌++◌, ℕ, false, if◌then◌else◌, List, OnOk, drop};
    ghost use Rattle.std.specs.Option.{option_map};
    ghost use Rattle.engine_events.specs.Names.{is_listed};
    ghost use Rattle.definition_inline.specs.Inline.{Target, LinkTexts};
    ghost use Rattle.event_grammar.specs.References.{media_names};
    ghost use Rattle.compile_rows.specs.Ahead.{AreLeft};
    ghost use Rattle.compile_rows.specs.Places.{entered, exited};
    ghost use Rattle.compile_strings.specs.RawTexts.{sequence_of, raw_after};
    ghost use Rattle.compile_rows.specs.Rows.{enter_rows, exit_rows};
    ghost use Rattle.compile_strings.specs.Spelled.{Spelled, first_raw, first_target, raws_view};
    ghost use Rattle.inline_rows.specs.View.{rows_view};

    /// The event is entered that the events begin with. Most are skipped, or are data.
    fn enter<T: Tables>(
        &mut self,
        texts: &TextEvents<'a, T, A>,
        strings: &'a SpelledStrings<A>,
        name: Name,
        events: &[Event],
    ) -> Result<(), AllocError>
        requires skipped { self.old.place.skipped + 1 < 2 ^ 64 }
        requires links { self.old.place.links + 1 < 2 ^ 64 }
        requires targets { self.old.targets + 1 < 2 ^ 64 }
        requires raw_texts { self.old.raw_texts + 1 < 2 ^ 64 }
        ensures place { self.new.place ≡ entered self.old.place name }
        ensures skipped { self.new.place.skipped ≤ self.old.place.skipped + 1 }
        ensures links { self.new.place.links ≤ self.old.place.links + 1 }
        ensures targets { self.new.targets ≤ self.old.targets + 1 }
        ensures raw_texts { self.new.raw_texts ≤ self.old.raw_texts + 1 }
        ensures left { (leads : Target → LinkTexts) (at : ℕ → LinkTexts) (targets : List Spelled) (raws : List (List ℕ)) →
            let names = T.reference_of texts.now.tables.now in
            let bytes = texts.now.bytes.now in
            let after = drop 1 events.now in
            AreLeft at strings.now self.old (first_target names bytes leads name after targets) (first_raw bytes (sequence_of name) after raws) →
            AreLeft at strings.now self.new targets raws }
        ensures rows { (leads : Target → LinkTexts) (at : ℕ → LinkTexts) (targets : List Spelled) (raws : List (List ℕ)) →
            let names = T.reference_of texts.now.tables.now in
            let bytes = texts.now.bytes.now in
            let after = drop 1 events.now in
            AreLeft at strings.now self.old (first_target names bytes leads name after targets) (first_raw bytes (sequence_of name) after raws) →
            OnOk result (rows_view at self.new.rows.items
            ≡ rows_view at self.old.rows.items ++ enter_rows names bytes leads texts.now.linked self.old.place name events.now) }
    {
        if self.place.skipped != 0 && !is_counted(name) {
            self.place.skipped += 1;
            return Ok(());
        }
        if name == Name::Data && self.place.is_in_text() {
            self.place.skipped = 1;
            return push_row(
                &mut self.rows,
                InlineRow::Text(text_of(text_first(texts.bytes, events))),
            );
        }
        self.enter_any(texts, strings, name, events)
    }

    /// The same, whatever the event is.
    fn enter_any<T: Tables>(
        &mut self,
        texts: &TextEvents<'a, T, A>,
        strings: &'a SpelledStrings<A>,
        name: Name,
        events: &[Event],
    ) -> Result<(), AllocError>
        requires skipped { self.old.place.skipped + 1 < 2 ^ 64 }
        requires links { self.old.place.links + 1 < 2 ^ 64 }
        requires targets { self.old.targets + 1 < 2 ^ 64 }
        requires raw_texts { self.old.raw_texts + 1 < 2 ^ 64 }
        ensures place { self.new.place ≡ entered self.old.place name }
        ensures skipped { self.new.place.skipped ≤ self.old.place.skipped + 1 }
        ensures links { self.new.place.links ≤ self.old.place.links + 1 }
        ensures targets { self.new.targets ≤ self.old.targets + 1 }
        ensures raw_texts { self.new.raw_texts ≤ self.old.raw_texts + 1 }
        ensures left { (leads : Target → LinkTexts) (at : ℕ → LinkTexts) (targets : List Spelled) (raws : List (List ℕ)) →
            let names = T.reference_of texts.now.tables.now in
            let bytes = texts.now.bytes.now in
            let after = drop 1 events.now in
            AreLeft at strings.now self.old (first_target names bytes leads name after targets) (first_raw bytes (sequence_of name) after raws) →
            AreLeft at strings.now self.new targets raws }
        ensures rows { (leads : Target → LinkTexts) (at : ℕ → LinkTexts) (targets : List Spelled) (raws : List (List ℕ)) →
            let names = T.reference_of texts.now.tables.now in
            let bytes = texts.now.bytes.now in
            let after = drop 1 events.now in
            AreLeft at strings.now self.old (first_target names bytes leads name after targets) (first_raw bytes (sequence_of name) after raws) →
            OnOk result (rows_view at self.new.rows.items
            ≡ rows_view at self.old.rows.items ++ enter_rows names bytes leads texts.now.linked self.old.place name events.now) }
    {
        let place = self.place;
        self.place = place.entered(name);
        let target = self.next_target(name);
        let raw_text = self.raw_text(texts.bytes, strings, name, inside(events));
        push_entered(
            &mut self.rows,
            texts,
            &PartStrings {
                strings,
                target,
                raw_text,
            },
            place,
            name,
            events,
        )
    }

    /// The number of the next link, image or call, which is the event of this name if it is one.
    fn next_target(&mut self, name: Name) -> usize
        requires { self.old.targets + 1 < 2 ^ 64 }
        ensures number { result ≡ self.old.targets }
        ensures next { self.new ≡ record self.old { targets = (if is_listed media_names name then self.old.targets + 1 else self.old.targets) } }
    {
        let number = self.targets;
        if is_media(name) {
            self.targets = number + 1;
        }
        number
    }

    /// The text of the raw text of a name, or none of another event. The events are those after the
    /// enter.
    fn raw_text(
        &mut self,
        bytes: &'a [u8],
        strings: &'a SpelledStrings<A>,
        name: Name,
        events: &[Event],
    ) -> Option<&'a str>
        requires { self.old.raw_texts + 1 < 2 ^ 64 }
        ensures same { self.new ≡ record self.old { raw_texts = self.new.raw_texts } }
        ensures counted { self.new.raw_texts ≤ self.old.raw_texts + 1 }
        ensures left { (raws : List (List ℕ)) →
            drop self.old.raw_texts (raws_view strings.now) ≡ first_raw bytes.now (sequence_of name) events.now raws →
            drop self.new.raw_texts (raws_view strings.now) ≡ raws }
        ensures text { (raws : List (List ℕ)) →
            drop self.old.raw_texts (raws_view strings.now) ≡ first_raw bytes.now (sequence_of name) events.now raws →
            option_map (λ text. text.now) result ≡ option_map (λ sequence. raw_after bytes.now sequence false 0 events.now) (sequence_of name) }
    {
        let sequence = sequence_of(name)?;
        match whole_piece(bytes, sequence, events) {
            Some(piece) => Some(text_of(piece)),
            None => {
                let number = self.raw_texts;
                self.raw_texts = number + 1;
                Some(strings.raw_text(number))
            }
        }
    }

    /// An event is exited.
    fn exit(&mut self, name: Name) -> Result<(), AllocError>
        ensures place { self.new.place ≡ exited self.old.place name }
        ensures skipped { self.new.place.skipped ≤ self.old.place.skipped }
        ensures links { self.new.place.links ≤ self.old.place.links }
        ensures targets { self.new.targets ≡ self.old.targets }
        ensures raw_texts { self.new.raw_texts ≡ self.old.raw_texts }
        ensures rows { (at : ℕ → LinkTexts) →
            OnOk result (rows_view at self.new.rows.items ≡ rows_view at self.old.rows.items ++ exit_rows self.old.place name) }
    {
        let place = self.place;
        self.place = place.exited(name);
        if place.skipped != 0 || place.mode == Mode::Text || name == Name::Label {
            return Ok(());
        }
        push_row(&mut self.rows, InlineRow::Exit)
    }
}

/// The strings of a part of a text that were read before.
#[derive(Clone, Copy)]
pub struct PartStrings<'a, A: Allocator> {
    strings: &'a SpelledStrings<A>,
    /// The number of the link, the image or the call.
    target: usize,
    /// The text of raw text.
    raw_text: Option<&'a str>,
}

/// Adds the rows of the event that the events begin with, which is entered at a place.
fn push_entered<'a, T: Tables, A: Allocator + Clone>(
    rows: &mut Vec<InlineRow<'a>, A>,
    texts: &TextEvents<'a, T, A>,
    part: &PartStrings<'a, A>,
    place: Place,
    name: Name,
    events: &[Event],
) -> Result<(), AllocError>
    ensures { (leads : Target → LinkTexts) (at : ℕ → LinkTexts) →
        let names = T.reference_of texts.now.tables.now in
        let bytes = texts.now.bytes.now in
        AreStringsOf names bytes leads at part.now name (drop 1 events.now) →
        OnOk result (rows_view at rows.new.items
        ≡ rows_view at rows.old.items ++ enter_rows names bytes leads texts.now.linked place name events.now) }
{
    if place.skipped != 0 {
        return Ok(());
    }
    match place.mode {
        Mode::Text => push_part(rows, texts, part, place.links, name, events),
        Mode::Before => Ok(()),
        Mode::Behind => Ok(()),
    }
}

/// Adds the rows of the part of a text that the events begin with, in so many links: for a span, a
/// link or an image only the first row.
fn push_part<'a, T: Tables, A: Allocator + Clone>(
    rows: &mut Vec<InlineRow<'a>, A>,
    texts: &TextEvents<'a, T, A>,
    part: &PartStrings<'a, A>,
    links: usize,
    name: Name,
    events: &[Event],
) -> Result<(), AllocError>
    ensures { (leads : Target → LinkTexts) (at : ℕ → LinkTexts) →
        let names = T.reference_of texts.now.tables.now in
        let bytes = texts.now.bytes.now in
        AreStringsOf names bytes leads at part.now name (drop 1 events.now) →
        OnOk result (rows_view at rows.new.items
        ≡ rows_view at rows.old.items ++ part_rows names bytes leads texts.now.linked (span_of name) name links events.now) }
{
    match span_of(name) {
        Some(span) => push_row(rows, InlineRow::EnterSpan(span)),
        None => push_unspanned(rows, texts, part, links, name, events),
    }
}

/// Adds the rows of a part of a text that isn't a span.
fn push_unspanned<'a, T: Tables, A: Allocator + Clone>(
    rows: &mut Vec<InlineRow<'a>, A>,
    texts: &TextEvents<'a, T, A>,
    part: &PartStrings<'a, A>,
    links: usize,
    name: Name,
    events: &[Event],
) -> Result<(), AllocError>
    ensures { (leads : Target → LinkTexts) (at : ℕ → LinkTexts) →
        let names = T.reference_of texts.now.tables.now in
        let bytes = texts.now.bytes.now in
        AreStringsOf names bytes leads at part.now name (drop 1 events.now) →
        OnOk result (rows_view at rows.new.items
        ≡ rows_view at rows.old.items ++ part_rows names bytes leads texts.now.linked None name links events.now) }
{
    if name == Name::Link {
        let target = part.strings.link_target(part.target);
        push_row(rows, InlineRow::EnterLink(target))
    } else if name == Name::Image {
        let target = part.strings.link_target(part.target);
        push_row(rows, InlineRow::EnterImage(target))
    } else {
        push_alone(rows, texts, part, links, name, events)
    }
}

/// Adds the rows of the event that the events begin with, which holds no text with rows of its own,
/// in so many links.
fn push_alone<'a, T: Tables, A: Allocator + Clone>(
    rows: &mut Vec<InlineRow<'a>, A>,
    texts: &TextEvents<'a, T, A>,
    part: &PartStrings<'a, A>,
    links: usize,
    name: Name,
    events: &[Event],
) -> Result<(), AllocError>
    ensures { (leads : Target → LinkTexts) (at : ℕ → LinkTexts) →
        let names = T.reference_of texts.now.tables.now in
        let bytes = texts.now.bytes.now in
        AreStringsOf names bytes leads at part.now name (drop 1 events.now) →
        OnOk result (rows_view at rows.new.items
        ≡ rows_view at rows.old.items ++ alone_rows names bytes leads texts.now.linked (sequence_of name) name links events.now) }
{
    match part.raw_text {
        Some(text) => push_row(rows, InlineRow::Spelled(raw_leaf(name, text))),
        None => push_other(rows, texts, part, links, name, events),
    }
}

/// Adds the rows of an event that holds no text with rows of its own, and isn't raw text.
fn push_other<'a, T: Tables, A: Allocator + Clone>(
    rows: &mut Vec<InlineRow<'a>, A>,
    texts: &TextEvents<'a, T, A>,
    part: &PartStrings<'a, A>,
    links: usize,
    name: Name,
    events: &[Event],
) -> Result<(), AllocError>
    ensures { (leads : Target → LinkTexts) (at : ℕ → LinkTexts) →
        let names = T.reference_of texts.now.tables.now in
        let bytes = texts.now.bytes.now in
        AreStringsOf names bytes leads at part.now name (drop 1 events.now) →
        OnOk result (rows_view at rows.new.items
        ≡ rows_view at rows.old.items ++ alone_rows names bytes leads texts.now.linked None name links events.now) }
{
    if name == Name::GfmFootnoteCall {
        let label = part.strings.call_label(part.target);
        push_row(rows, InlineRow::Call(label))
    } else if name == Name::GfmTaskListItemCheck {
        let done = has(inside(events), Name::GfmTaskListItemValueChecked);
        push_row(rows, InlineRow::Spelled(SpelledLeaf::Check(done)))
    } else {
        let linked = is_linked(texts.linked, links);
        push_leaf(rows, texts, linked, name, events)
    }
}

/// Whether an event is in a link, if so many are open in a text that may be in one.
fn is_linked(linked: bool, links: usize) -> bool
    ensures { result ≡ (linked || not (links == 0)) }
{
    linked || links != 0
}

/// Raw text of this name: math, or code.
fn raw_leaf(name: Name, text: &str) -> SpelledLeaf<'_>
    ensures { spelled_view result ≡ raw_leaf name (without_padding text.now) }
{
    if name == Name::CodeText {
        SpelledLeaf::Code(text)
    } else {
        SpelledLeaf::Math(text)
    }
}

/// Adds a row.
fn push_row<'a, A: Allocator>(
    rows: &mut Vec<InlineRow<'a>, A>,
    row: InlineRow<'a>,
) -> Result<(), AllocError>
    ensures { (at : ℕ → LinkTexts) → OnOk result (rows_view at rows.new.items ≡ rows_view at rows.old.items ++ row_view at row.entry) }
{
    rows.push(row)?;
    Ok(())
}

const TEXT_NAMES: [Name; 8] = [
    Name::EmphasisText,
    Name::StrongText,
    Name::GfmStrikethroughText,
    Name::MarkText,
    Name::LabelText,
    Name::HeadingAtxText,
    Name::HeadingSetextText,
    Name::GfmTableCellText,
];

/// Whether an event of this name holds the text of another.
fn is_text(name: Name) -> bool
    ensures { result ≡ is_listed text_names name }
{
    TEXT_NAMES.contains(&name)
}
