//! Events to HTML.
ghost use Rattle.std.specs.Prelude.{◌≡◌, ◌≤◌, ◌<◌, ◌-◌, List, [], ◌∷◌, ℕ, false, true, not, IfOk, OnOk, length, reverse, map};
ghost use Rattle.engine_events.specs.declared.event.Kind.TheVariants as kinds;
ghost use Rattle.definition_inline.specs.Definition.{Definition};
ghost use Rattle.definition_page.specs.BlockPieces.{fresh_unless};
ghost use Rattle.definition_page.specs.InlinePieces.{Meaning};
ghost use Rattle.html_bytes.specs.Layout.{LayoutState, nothing_laid};
ghost use Rattle.html_bytes.specs.Pieces.{in_bytes};
ghost use Rattle.html_leaves.specs.Prints.{KeepsEnding, layout_after, page_view};
ghost use Rattle.compile_blocks.specs.Meant.{IsMeant};
ghost use Rattle.event_grammar.specs.Trees.{Nodes, events_of, AreNodes};
ghost use Rattle.compile_blocks.specs.Leaf.{is_leaf};
ghost use Rattle.compile_levels.specs.Kinds.{kind_of};
ghost use Rattle.compile_levels.specs.Levels.{is_document, new_level};
ghost use Rattle.compile_levels.specs.declared.level.Holder.TheVariants as holders;
ghost use Rattle.engine_events.specs.declared.event.Name.TheVariants.{BlankLineEnding};
ghost use Rattle.event_meaning.specs.Children.{ends_in};
ghost use Rattle.compile_rows.specs.Columns.{AreCounted};
ghost use Rattle.compile_html.specs.Going.{GoesOn};
ghost use Rattle.compile_html.specs.Opened.{opened};
ghost use Rattle.compile_html.specs.Views.{opened_of};

use compile_blocks::Source;
use compile_blocks::printer::{LeafPlace, LeafPrinter};
use compile_levels::kind::{BlockKind, kind_of};
use compile_levels::level::{Holder, Level};
use compile_levels::node::{ends_in, node_after};
use engine_events::event::{Event, Kind, Name};
use markdown_options::{LineEnding, Tables};
use std::alloc::{AllocError, Allocator};

/// A page that is being printed, and what is open on it.
#[derive(Drop)]
pub struct Printer<A: Allocator + Clone> {
    pub(crate) leaves: LeafPrinter<A>,
    pub(crate) level: Level,
    /// The levels around it.
    pub(crate) outer: Vec<Level, A>,
    /// Whether the lists to come are loose, the next one last.
    pub(crate) loose: Vec<bool, A>,
}

impl<A: Allocator + Clone> Printer<A> {
    /// A page on which nothing is printed, with room for so many bytes.
    pub(crate) fn new(
        alloc: A,
        room: usize,
        default_ending: LineEnding,
        loose: Vec<bool, A>,
    ) -> Result<Printer<A>, AllocError>
        ensures blank { IfOk result (λ printer. page_view printer.leaves.page ≡ nothing_laid) }
        ensures default { IfOk result (λ printer. printer.leaves.page.default_ending ≡ default_ending) }
        ensures counted { (bytes : List ℕ) → IfOk result (λ printer. AreCounted bytes printer.leaves.columns) }
        ensures opened { IfOk result (λ printer. opened_of printer ≡ opened (new_level holders.Document false) []) }
        ensures loose { IfOk result (λ printer. printer.loose ≡ loose) }
    {
        Ok(Printer {
            leaves: LeafPrinter::new(alloc.clone()?, room, default_ending)?,
            level: Level::new(Holder::Document, false),
            outer: Vec::new(alloc),
            loose,
        })
    }

    /// Prints the events of the list.
    pub(crate) fn events<T: Tables>(&mut self, source: &Source<'_, T, A>) -> Result<(), AllocError>
        requires { AreCounted source.now.checked.bytes.now self.old.leaves.columns }
        ensures default { KeepsEnding self.old.leaves.page self.new.leaves.page }
        ensures printed { (m : Meaning) (ds : List Definition) (ns : Nodes) (whole : LayoutState) →
            let names = T.reference_of source.now.tables.now in
            let events = source.now.checked.events.now in
            IsMeant names source.now ds m → AreNodes ns → events ≡ events_of ns →
            GoesOn names source.now.checked.bytes.now m events whole self.old events → OnOk result (page_view self.new.leaves.page
            ≡ layout_after m.compile self.old.leaves.page.default_ending whole (in_bytes (fresh_unless (not (ends_in BlankLineEnding false ns))))) }
    {
        let events = source.checked.events();
        self.all(source, events)?;
        if ends_in(events, Name::BlankLineEnding) {
            self.leaves.page.fresh()?;
        }
        Ok(())
    }

    /// Prints these events, which are all of the list, one after another.
    fn all<T: Tables>(
        &mut self,
        source: &Source<'_, T, A>,
        events: &[Event],
    ) -> Result<(), AllocError>
        requires { AreCounted source.now.checked.bytes.now self.old.leaves.columns }
        ensures default { KeepsEnding self.old.leaves.page self.new.leaves.page }
        ensures printed { (m : Meaning) (ds : List Definition) (whole : LayoutState) →
            let names = T.reference_of source.now.tables.now in
            IsMeant names source.now ds m → events.now ≡ source.now.checked.events.now →
            GoesOn names source.now.checked.bytes.now m events.now whole self.old events.now → OnOk result (page_view self.new.leaves.page ≡ whole) }
    {
        let mut rest = events;
        while let [event, after @ ..] = rest {
            let index = events.len() - rest.len();
            rest = self.event(source, index, event, after)?;
        }
        Ok(())
    }

    /// Prints what the event at an index, before these, begins or ends. Returns the events to go on
    /// with.
    fn event<'e, T: Tables>(
        &mut self,
        source: &Source<'_, T, A>,
        index: usize,
        event: &Event,
        after: &'e [Event],
    ) -> Result<&'e [Event], AllocError>
        requires { AreCounted source.now.checked.bytes.now self.old.leaves.columns }
        ensures default { KeepsEnding self.old.leaves.page self.new.leaves.page }
        ensures counted { AreCounted source.now.checked.bytes.now self.new.leaves.columns }
        ensures shorter { IfOk result (λ rest. length rest.now ≤ length after.now) }
        ensures printed { (m : Meaning) (ds : List Definition) (whole : LayoutState) →
            let names = T.reference_of source.now.tables.now in
            let bytes = source.now.checked.bytes.now in
            let events = source.now.checked.events.now in
            IsMeant names source.now ds m → index ≡ length events - length (event.now ∷ after.now) →
            GoesOn names bytes m events whole self.old (event.now ∷ after.now) → IfOk result (λ rest. GoesOn names bytes m events whole self.new rest.now) }
    {
        match event.kind {
            Kind::Enter => self.enter(source, index, event, after),
            Kind::Exit => {
                self.leave()?;
                Ok(after)
            }
        }
    }

    /// An event is entered. Events before the content of a container print nothing.
    fn enter<'e, T: Tables>(
        &mut self,
        source: &Source<'_, T, A>,
        index: usize,
        event: &Event,
        after: &'e [Event],
    ) -> Result<&'e [Event], AllocError>
        requires { AreCounted source.now.checked.bytes.now self.old.leaves.columns }
        ensures default { KeepsEnding self.old.leaves.page self.new.leaves.page }
        ensures counted { AreCounted source.now.checked.bytes.now self.new.leaves.columns }
        ensures shorter { IfOk result (λ rest. length rest.now ≤ length after.now) }
        ensures printed { (m : Meaning) (ds : List Definition) (whole : LayoutState) →
            let names = T.reference_of source.now.tables.now in
            let bytes = source.now.checked.bytes.now in
            let events = source.now.checked.events.now in
            IsMeant names source.now ds m → index ≡ length events - length (event.now ∷ after.now) → event.now.kind ≡ kinds.Enter →
            GoesOn names bytes m events whole self.old (event.now ∷ after.now) → IfOk result (λ rest. GoesOn names bytes m events whole self.new rest.now) }
    {
        if self.level.begin(event.name) {
            self.enter_content(source, index, event, after)
        } else {
            let (_, rest) = node_after(event, after);
            Ok(rest)
        }
    }

    /// An event of the content is entered. Containers and lists are printed event by event, others
    /// as a whole.
    fn enter_content<'e, T: Tables>(
        &mut self,
        source: &Source<'_, T, A>,
        index: usize,
        event: &Event,
        after: &'e [Event],
    ) -> Result<&'e [Event], AllocError>
        requires { AreCounted source.now.checked.bytes.now self.old.leaves.columns }
        ensures default { KeepsEnding self.old.leaves.page self.new.leaves.page }
        ensures counted { AreCounted source.now.checked.bytes.now self.new.leaves.columns }
        ensures shorter { IfOk result (λ rest. length rest.now ≤ length after.now) }
        ensures printed { (m : Meaning) (ds : List Definition) (whole : LayoutState) →
            let names = T.reference_of source.now.tables.now in
            let bytes = source.now.checked.bytes.now in
            let events = source.now.checked.events.now in
            IsMeant names source.now ds m → index ≡ length events - length (event.now ∷ after.now) → event.now.kind ≡ kinds.Enter →
            self.old.level.begun ≡ true →
            GoesOn names bytes m events whole self.old (event.now ∷ after.now) → IfOk result (λ rest. GoesOn names bytes m events whole self.new rest.now) }
    {
        let kind = kind_of(event.name);
        match kind {
            BlockKind::Quote => self.enter_quote()?,
            BlockKind::UnorderedList => self.enter_list(kind, None)?,
            BlockKind::OrderedList => self.enter_ordered_list(source, after)?,
            BlockKind::Item => self.enter_item()?,
            BlockKind::Footnote => self.enter_footnote()?,
            _ => return self.leaf(source, index, event, after),
        }
        Ok(after)
    }

    /// Prints a leaf block as a whole.
    fn leaf<'e, T: Tables>(
        &mut self,
        source: &Source<'_, T, A>,
        index: usize,
        event: &Event,
        after: &'e [Event],
    ) -> Result<&'e [Event], AllocError>
        requires { AreCounted source.now.checked.bytes.now self.old.leaves.columns }
        ensures default { KeepsEnding self.old.leaves.page self.new.leaves.page }
        ensures counted { AreCounted source.now.checked.bytes.now self.new.leaves.columns }
        ensures shorter { IfOk result (λ rest. length rest.now ≤ length after.now) }
        ensures printed { (m : Meaning) (ds : List Definition) (whole : LayoutState) →
            let names = T.reference_of source.now.tables.now in
            let bytes = source.now.checked.bytes.now in
            let events = source.now.checked.events.now in
            IsMeant names source.now ds m → index ≡ length events - length (event.now ∷ after.now) → event.now.kind ≡ kinds.Enter →
            self.old.level.begun ≡ true → is_leaf (kind_of event.now.name) ≡ true →
            GoesOn names bytes m events whole self.old (event.now ∷ after.now) → IfOk result (λ rest. GoesOn names bytes m events whole self.new rest.now) }
    {
        let kind = kind_of(event.name);
        let (node, rest) = node_after(event, after);
        let place = self.leaf_place();
        self.leaves.leaf(source, kind, place, index, &node)?;
        self.level.pass(kind);
        Ok(rest)
    }

    /// Where a leaf block stands that comes next.
    fn leaf_place(&self) -> LeafPlace
        ensures { result ≡ record { top = is_document self.now.level.holder; tight = self.now.level.tight; silent = self.now.level.silent } }
    {
        LeafPlace {
            top: self.level.holder.is_document(),
            tight: self.level.tight,
            silent: self.level.silent,
        }
    }
}
