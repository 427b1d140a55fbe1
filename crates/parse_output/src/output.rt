//! Events, written one after another.
ghost use Rattle.std.specs.Prelude.{◌≡◌, ◌<◌, ◌^◌, ◌∷◌, [], IfOk, IsTrue, List, OnOk, false, length, true, ℕ};
ghost use Rattle.std.specs.Str.{is_utf8};
ghost use Rattle.parse_output.specs.Placed.{ArePlaced};
ghost use Rattle.engine_events.specs.declared.event.Name.TheVariants.{Data, Paragraph};
ghost use Rattle.event_grammar.specs.Trees.{Nil, growth, tree};
ghost use Rattle.event_grammar.specs.Void.{is_void};
ghost use Rattle.event_tokens.specs.Bytes.{HaveTheirBytes};
ghost use Rattle.parse_output.specs.declared.draft.Draft.TheVariants as draft;
ghost use Rattle.parse_output.specs.Drafts.{AreChildren, draft_marks};
ghost use Rattle.parse_output.specs.Ends.{first_end};
ghost use Rattle.parse_output.specs.Voids.{IsToken};
ghost use Rattle.parse_output.specs.Forest.{IsData, bytewise, data_nodes, drafts_end, void_nodes};
ghost use Rattle.parse_output.specs.Open.{Entered, Exited, closed, unmatched};
ghost use Rattle.parse_output.specs.Children.{HaveChildren, may_enter};
ghost use Rattle.parse_output.specs.Whole.{DataIsWhole, DraftsAreWhole, is_data, may_be_next};

use crate::draft::Draft;
use crate::end::{End, at};
use crate::points::push_events;
use engine_events::Event;
use engine_events::event::Name;
use std::alloc::{AllocError, Allocator};

/// How many bytes of text a draft mostly has at least.
const DRAFT_BYTES: usize = 4;

/// The events so far, and the place that they have come to.
///
/// Until `finish`, events are drafts, without a line and a column. Each event that is entered may stand
/// in the one around it.
#[derive(Drop)]
pub struct Output<A: Allocator> {
    drafts: Vec<Draft, A>,
    /// Room for the events; there are none before `finish`.
    events: Vec<Event, A>,
    end: End,
    ghost children: { AreChildren drafts.items },
    ghost whole: { DraftsAreWhole drafts.items },
    ghost empty: { events.items ≡ [] },
    ghost ends: { drafts_end first_end drafts.items ≡ end },
}

impl<A: Allocator + Clone> Output<A> {
    ghost use Rattle.parse_output.specs.Written.{IsInOrder, end_in, forest_in, open_in};

    /// No events, at the start of a text of a size, with room for the drafts that such a text mostly has.
    #[tactic(auto, using(crate::proofs::Drafted::no_children))]
    pub fn new(alloc: A, size: usize) -> Result<Output<A>, AllocError>
        ensures open { IfOk result (λ output. open_in output ≡ []) }
        ensures end { IfOk result (λ output. end_in output ≡ first_end) }
        ensures order { IfOk result (λ output. (text : List ℕ) → is_utf8 text ≡ true → IsInOrder text output) }
        ensures forest { IfOk result (λ output. (text : List ℕ) → forest_in text output ≡ growth Nil []) }
    {
        Ok(Output {
            drafts: Vec::with_capacity(alloc.clone()?, size / DRAFT_BYTES)?,
            events: Vec::new(alloc),
            end: at(0),
        })
    }
}

impl<A: Allocator> Output<A> {
    ghost use Rattle.parse_output.specs.Written.{Enters, Exits, IsInOrder, Writes, end_in, forest_in, open_in};

    /// Where it is.
    pub fn end(&self) -> End
        ensures { result ≡ end_in self.now }
    {
        self.end
    }

    /// Something begins here that may hold others.
    #[tactic(auto, using(crate::proofs::Drafted::entered_one, crate::proofs::Drafted::entered_child, crate::proofs::Whole::entered_whole, crate::proofs::Forests::entered_end))]
    pub fn enter(&mut self, name: Name) -> Result<(), AllocError>
        requires child { may_enter (open_in self.old) name ≡ true }
        requires row { is_void name ≡ false }
        ensures open { OnOk result (open_in self.new ≡ Entered name ∷ open_in self.old) }
        ensures end { OnOk result (end_in self.new ≡ end_in self.old) }
        ensures written { OnOk result ((text : List ℕ) → IsInOrder text self.old → Enters text name self.old self.new) }
    {
        self.drafts.push(Draft::Enter(name))?;
        Ok(())
    }

    /// Something ends here.
    #[tactic(auto, using(crate::proofs::Drafted::exited_one, crate::proofs::Drafted::exited_child, crate::proofs::Whole::exited_whole, crate::proofs::Forests::exited_end))]
    pub fn exit(&mut self, name: Name) -> Result<(), AllocError>
        ensures open { OnOk result (open_in self.new ≡ closed name (open_in self.old)) }
        ensures end { OnOk result (end_in self.new ≡ end_in self.old) }
        ensures written { OnOk result ((text : List ℕ) → IsInOrder text self.old → Exits text name self.old self.new) }
    {
        self.drafts.push(Draft::Exit(name))?;
        Ok(())
    }

    /// What holds no other, up to a place. Nothing of no size.
    #[tactic(auto, using(crate::proofs::Whole::other_next, crate::proofs::Forests::data_forest))]
    pub fn token(&mut self, name: Name, end: End) -> Result<(), AllocError>
        requires child { may_enter (open_in self.old) name ≡ true }
        ensures open { OnOk result (open_in self.new ≡ open_in self.old) }
        ensures end { OnOk result (end_in self.new ≡ end) }
        ensures written { OnOk result ((text : List ℕ) → IsInOrder text self.old → IsToken text name (end_in self.old) end
            → Writes text self.old self.new (void_nodes text name (end_in self.old) end)) }
    {
        if name == Name::Data {
            return self.data(end);
        }
        self.push(name, end)
    }

    /// Data up to a place, as one with data that ends here.
    #[tactic(auto, using(crate::proofs::Whole::longer_data))]
    pub fn data(&mut self, end: End) -> Result<(), AllocError>
        requires child { may_enter (open_in self.old) Data ≡ true }
        ensures open { OnOk result (open_in self.new ≡ open_in self.old) }
        ensures end { OnOk result (end_in self.new ≡ end) }
        ensures written { OnOk result ((text : List ℕ) → IsInOrder text self.old → IsToken text Data (end_in self.old) end
            → Writes text self.old self.new (data_nodes text (end_in self.old) end)) }
    {
        let count = self.drafts.len();
        if count == 0 {
            return self.push(Name::Data, end);
        }
        if !is_data(self.drafts[count - 1]) {
            return self.push(Name::Data, end);
        }
        self.drafts[count - 1] = draft_to(Name::Data, end);
        self.end.index = end.index;
        self.end.owed = end.owed;
        Ok(())
    }

    /// What holds no other, up to a place, where it isn't data after data. Nothing of no size.
    #[tactic(auto, using(crate::proofs::Drafted::void_one, crate::proofs::Drafted::void_child, crate::proofs::Forests::void_end, crate::proofs::Whole::void_whole))]
    fn push(&mut self, name: Name, end: End) -> Result<(), AllocError>
        requires child { may_enter (open_in self.old) name ≡ true }
        requires next { may_be_next self.old.drafts.items name ≡ true }
        ensures open { OnOk result (open_in self.new ≡ open_in self.old) }
        ensures end { OnOk result (end_in self.new ≡ end) }
        ensures written { OnOk result ((text : List ℕ) → IsInOrder text self.old → IsToken text name (end_in self.old) end
            → Writes text self.old self.new (void_nodes text name (end_in self.old) end)) }
    {
        if end == self.end {
            return Ok(());
        }
        self.drafts.push(draft_to(name, end))?;
        self.end.index = end.index;
        self.end.owed = end.owed;
        Ok(())
    }

    /// The events with their points in the text. What they leave of it at its end becomes a paragraph.
    #[tactic(auto, using(crate::proofs::Forests::tree_bytewise, crate::proofs::VoidBytes::events_fit, crate::proofs::Whole::events_whole))]
    pub fn finish(self, text: &[u8]) -> Result<Vec<Event, A>, AllocError>
        requires fits { length text.now < 2 ^ 61 }
        requires child { may_enter (open_in self) Paragraph ≡ true }
        ensures placed { IfOk result (λ events. ArePlaced text.now events.items) }
        ensures children { IfOk result (λ events. HaveChildren events.items) }
        ensures open { IfOk result (λ events. unmatched events.items ≡ open_in self) }
        ensures written { IsInOrder text.now self → (end_in self).index ≡ length text.now
            → IfOk result (λ events. bytewise (tree events.items) ≡ (forest_in text.now self).kids) }
        ensures tokens { IsInOrder text.now self → (end_in self).index ≡ length text.now → IfOk result (λ events. HaveTheirBytes text.now events.items) }
        ensures whole { IsInOrder text.now self → (end_in self).index ≡ length text.now → open_in self ≡ []
            → IfOk result (λ events. DataIsWhole events.items) }
    {
        let Output { drafts, events, .. } = self;
        let events = push_events(text, &drafts, events)?;
        Ok(events)
    }
}

/// What holds no other, up to a place.
fn draft_to(name: Name, end: End) -> Draft
    ensures marks { draft_marks result ≡ Entered name ∷ Exited name ∷ [] }
    ensures same { result ≡ draft.Void name end.owed end.index }
{
    Draft::Void {
        name,
        owed: end.owed,
        index: end.index,
    }
}

/// Whether it is data.
fn is_data(draft: Draft) -> bool
    ensures marks { IsTrue result → draft_marks draft ≡ Entered Data ∷ Exited Data ∷ [] }
    ensures data { IsTrue result → IsData draft }
    ensures is { result ≡ is_data draft }
{
    match draft {
        Draft::Void { name, .. } => name == Name::Data,
        _ => false,
    }
}
