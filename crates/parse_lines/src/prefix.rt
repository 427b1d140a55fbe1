//! The prefixes of containers (CommonMark 5.1 and 5.2).
ghost use Rattle.std.specs.Prelude.{◌≡◌, IfOk, MatchOption, OnOk, length, true, ◌≤◌};
ghost use Rattle.engine_events.specs.declared.event.Name.TheVariants.{BlockQuote, GfmFootnoteDefinition, GfmFootnoteDefinitionLabel};
ghost use Rattle.engine_events.specs.declared.event.Name.TheVariants.{GfmFootnoteDefinitionPrefix, ListItem, ListItemPrefix, SpaceOrTab};
ghost use Rattle.parse_output.specs.Children.{holds_lines, may_enter};
ghost use Rattle.definition_text.specs.Columns.{bare as bare_rest, bytes_of, whole};
ghost use Rattle.markdown_options.specs.declared.container.Item.{Item as ItemParts};
ghost use Rattle.block_starts.specs.View.{container_view, container_views, rest_of};
ghost use Rattle.parse_laid.specs.EmptyRests.{is_quote};
ghost use Rattle.parse_lines.specs.Kinds.{is_footnote, is_item};
ghost use Rattle.parse_lines.specs.Ends.{WritesFootnoteLabel, WritesMarker, WritesPrefix, WritesPrefixes, WritesStartOf};
ghost use Rattle.parse_lines.specs.Open.{still_open, with_entered};
ghost use Rattle.parse_lines.specs.Pieces.{WritesPrefixPieces, WritesPrefixesPieces};
ghost use Rattle.std.specs.List.{prefix_len};
ghost use Rattle.definition_block.specs.ListItem.{is_digit};
ghost use Rattle.definition_block.specs.Container.{Footnote as FootnoteView, Item as ItemView, Quote};
ghost use Rattle.parse_lines.specs.Standing.{AreQuotesWithin, TEXT_MAX, standing};
ghost use Rattle.parse_lines.specs.Steps.{IsOutside, IsSameLine, Leaves, ReadsPrefixes, StartsOf, with_container, with_rest};

use crate::cut::first;
use crate::walk::Walk;
use block_starts::Cursor;
use block_starts::container::{continues, starts};
use engine_events::event::Name;
use markdown_options::Container;
use std::alloc::{AllocError, Allocator};

/// No line is longer.
const LINE_MAX: usize = usize::MAX / 8;

/// A line before anything of it is read.
pub(crate) fn line_rest(content: &str) -> Cursor<'_>
    ensures { length content.now ≤ TEXT_MAX → rest_of result ≡ whole content.now }
{
    if content.len() <= LINE_MAX {
        Cursor::new(content)
    } else {
        Cursor::new("")
    }
}

impl<'a, A: Allocator> Walk<'a, A> {
    /// The prefixes of the containers that go on. At an empty rest, no quote may follow but those that
    /// are known.
    pub(crate) fn prefixes(&mut self) -> Result<(), AllocError>
        requires lines { holds_lines (still_open self.old) ≡ true }
        ensures open { OnOk result (still_open self.new ≡ still_open self.old) }
        ensures reads { OnOk result (ReadsPrefixes (standing self.old) (standing self.new)) }
        ensures stays { OnOk result (standing self.new ≡ with_rest (standing self.old) (rest_of self.new.rest)) }
        ensures written { OnOk result (WritesPrefixes self.old self.new) }
        ensures exact { OnOk result (WritesPrefixesPieces self.old self.new) }
    {
        for depth in 0..self.open.len() {
            if depth >= self.quotes_end && self.rest.is_blank() && self.rest.indent() == 0 {
                return Ok(());
            }
            let Some(container) = self.open.get(depth).copied() else {
                return Ok(());
            };
            let Some(line) = continues(self.on, container, false, self.rest) else {
                return Ok(());
            };
            self.prefix(container, line.rest)?;
        }
        Ok(())
    }

    /// The prefix of a container, up to a rest of the line.
    #[tactic(auto, using(parse_output::proofs::Classes::lines_may))]
    fn prefix(&mut self, container: Container<'a>, after: Cursor<'a>) -> Result<(), AllocError>
        requires lines { holds_lines (still_open self.old) ≡ true }
        ensures open { OnOk result (still_open self.new ≡ still_open self.old) }
        ensures stays { OnOk result (standing self.new ≡ with_rest (standing self.old) (rest_of after.entry)) }
        ensures written { OnOk result (WritesPrefix (container_view container.entry) (rest_of after.entry) self.old self.new) }
        ensures exact { OnOk result (WritesPrefixPieces (container_view container.entry) (rest_of after.entry) self.old self.new) }
    {
        match container {
            Container::Quote => self.quote_prefix(after)?,
            _ => self.space_to(&after)?,
        }
        self.rest = after;
        Ok(())
    }

    /// The prefix of a quote, up to a rest of the line.
    #[tactic(auto, using(parse_output::proofs::Classes::lines_may, parse_output::proofs::Classes::enters_in), unfolding(parse_output::specs::Children::may_hold))]
    fn quote_prefix(&mut self, after: Cursor<'a>) -> Result<(), AllocError>
        requires lines { holds_lines (still_open self.old) ≡ true }
        ensures open { OnOk result (still_open self.new ≡ still_open self.old) }
        ensures stays { OnOk result (standing self.new ≡ standing self.old) }
        ensures written { OnOk result (WritesPrefix Quote (rest_of after.entry) self.old self.new) }
        ensures exact { OnOk result (WritesPrefixPieces Quote (rest_of after.entry) self.old self.new) }
        ensures marked { OnOk result (WritesMarker Quote (rest_of after.entry) self.old self.new) }
    {
        let _bare = self.white()?;
        self.enter(Name::BlockQuotePrefix)?;
        self.token(Name::BlockQuoteMarker, 1)?;
        self.space_to(&after)?;
        self.exit(Name::BlockQuotePrefix)
    }

    /// The block quote that starts here, if one does. Returns whether it does.
    #[tactic(auto, using(parse_output::proofs::Classes::lines_in), unfolding(parse_output::specs::Children::may_hold, parse_output::specs::Children::has_lines))]
    pub fn start_quote(&mut self) -> Result<bool, AllocError>
        requires child { may_enter (still_open self.old) BlockQuote ≡ true }
        requires space { may_enter (still_open self.old) SpaceOrTab ≡ true }
        ensures open { IfOk result (λ starts. still_open self.new ≡ with_entered starts BlockQuote (still_open self.old)) }
        ensures starts { IfOk result (λ starts. StartsOf is_quote (standing self.old) starts (standing self.new)) }
        ensures written { OnOk result (WritesStartOf is_quote BlockQuote self.old self.new) }
    {
        let Some((Container::Quote, line)) = starts(self.on, false, self.rest) else {
            return Ok(false);
        };
        let _bare = self.white()?;
        self.enter(Name::BlockQuote)?;
        self.quotes_end = self.open.len().saturating_add(1);
        self.quote_prefix(line.rest)?;
        self.start(Container::Quote, line.rest)?;
        Ok(true)
    }

    /// The item that starts here, if one does. Returns whether it does.
    #[tactic(auto, using(parse_output::proofs::Classes::enters_in), unfolding(parse_output::specs::Children::may_hold))]
    pub fn start_item(&mut self) -> Result<bool, AllocError>
        requires child { may_enter (still_open self.old) ListItem ≡ true }
        requires space { may_enter (still_open self.old) SpaceOrTab ≡ true }
        ensures open { IfOk result (λ starts. still_open self.new ≡ with_entered starts ListItem (still_open self.old)) }
        ensures starts { IfOk result (λ starts. StartsOf is_item (standing self.old) starts (standing self.new)) }
        ensures written { OnOk result (WritesStartOf is_item ListItem self.old self.new) }
    {
        let Some((Container::Item(item), line)) = starts(self.on, false, self.rest) else {
            return Ok(false);
        };
        let bare = self.white()?;
        self.enter(Name::ListItem)?;
        self.item_prefix(bare, line.rest)?;
        self.start(Container::Item(item), line.rest)?;
        Ok(true)
    }

    /// The footnote definition that starts here, if one does. Returns whether it does.
    #[tactic(auto, using(parse_output::proofs::Classes::enters_in), unfolding(parse_output::specs::Children::may_hold))]
    pub fn start_footnote(&mut self) -> Result<bool, AllocError>
        requires child { may_enter (still_open self.old) GfmFootnoteDefinition ≡ true }
        requires space { may_enter (still_open self.old) SpaceOrTab ≡ true }
        ensures open { IfOk result (λ starts. still_open self.new ≡ with_entered starts GfmFootnoteDefinition (still_open self.old)) }
        ensures starts { IfOk result (λ starts. StartsOf is_footnote (standing self.old) starts (standing self.new)) }
        ensures written { OnOk result (WritesStartOf is_footnote GfmFootnoteDefinition self.old self.new) }
    {
        let Some((Container::Footnote(label), line)) = starts(self.on, false, self.rest) else {
            return Ok(false);
        };
        let _bare = self.white()?;
        self.enter(Name::GfmFootnoteDefinition)?;
        self.footnote_prefix(label, line.rest)?;
        self.start(Container::Footnote(label), line.rest)?;
        Ok(true)
    }

    /// A container is open, whose prefix is written up to a rest of the line.
    fn start(&mut self, container: Container<'a>, after: Cursor<'a>) -> Result<(), AllocError>
        ensures open { still_open self.new ≡ still_open self.old }
        ensures stays { OnOk result (standing self.new ≡ with_container (standing self.old) (container_view container.entry) (rest_of after.entry)) }
        ensures out { OnOk result (self.new.out ≡ self.old.out) }
    {
        self.open.push(container)?;
        self.rest = after;
        Ok(())
    }

    /// The prefix of an item, up to a rest of the line.
    #[tactic(auto, using(parse_output::proofs::Classes::enters_in), unfolding(parse_output::specs::Children::may_hold))]
    fn item_prefix(&mut self, bare: &str, after: Cursor<'a>) -> Result<(), AllocError>
        requires child { may_enter (still_open self.old) ListItemPrefix ≡ true }
        ensures open { OnOk result (still_open self.new ≡ still_open self.old) }
        ensures stays { OnOk result (standing self.new ≡ standing self.old) }
        ensures marked { OnOk result ((item : ItemParts) → bare.now ≡ bytes_of (bare_rest (rest_of self.old.rest))
            → WritesMarker (ItemView item) (rest_of after.entry) self.old self.new) }
    {
        self.enter(Name::ListItemPrefix)?;
        self.token(Name::ListItemValue, digits(bare.as_bytes()))?;
        self.token(Name::ListItemMarker, 1)?;
        self.space_to(&after)?;
        self.exit(Name::ListItemPrefix)
    }

    /// The prefix of a footnote definition, up to a rest of the line.
    #[tactic(auto, using(parse_output::proofs::Classes::enters_in), unfolding(parse_output::specs::Children::may_hold))]
    fn footnote_prefix(&mut self, label: &str, after: Cursor<'a>) -> Result<(), AllocError>
        requires child { may_enter (still_open self.old) GfmFootnoteDefinitionPrefix ≡ true }
        ensures open { OnOk result (still_open self.new ≡ still_open self.old) }
        ensures stays { OnOk result (standing self.new ≡ standing self.old) }
        ensures marked { OnOk result (WritesMarker (FootnoteView label.now) (rest_of after.entry) self.old self.new) }
    {
        self.enter(Name::GfmFootnoteDefinitionPrefix)?;
        self.footnote_label(label.len())?;
        self.token(Name::DefinitionMarker, 1)?;
        self.space_to(&after)?;
        self.exit(Name::GfmFootnoteDefinitionPrefix)
    }

    /// A label of a size, with its brackets.
    #[tactic(auto, using(parse_output::proofs::Classes::enters_in), unfolding(parse_output::specs::Children::may_hold))]
    fn footnote_label(&mut self, size: usize) -> Result<(), AllocError>
        requires child { may_enter (still_open self.old) GfmFootnoteDefinitionLabel ≡ true }
        ensures open { OnOk result (still_open self.new ≡ still_open self.old) }
        ensures stays { OnOk result (standing self.new ≡ standing self.old) }
        ensures labelled { OnOk result (WritesFootnoteLabel size self.old self.new) }
    {
        self.enter(Name::GfmFootnoteDefinitionLabel)?;
        self.token(Name::GfmFootnoteDefinitionLabelMarker, 1)?;
        self.token(Name::GfmFootnoteDefinitionMarker, 1)?;
        self.enter(Name::GfmFootnoteDefinitionLabelString)?;
        self.token(Name::Data, size)?;
        self.exit(Name::GfmFootnoteDefinitionLabelString)?;
        self.token(Name::GfmFootnoteDefinitionLabelMarker, 1)?;
        self.exit(Name::GfmFootnoteDefinitionLabel)
    }

    /// The innermost container doesn't go on. Returns which.
    pub fn leave(&mut self) -> Option<Container<'a>>
        ensures open { still_open self.new ≡ still_open self.old }
        ensures written { self.new.out ≡ self.old.out }
        ensures line { IsSameLine (standing self.old) (standing self.new) }
        ensures leaves { MatchOption result (IsOutside (standing self.old) (standing self.new))
            (λ c. Leaves (container_view c) (standing self.old) (standing self.new)) }
    {
        let container = self.open.pop()?;
        self.quotes_end = quotes_end(&self.open, self.quotes_end);
        Some(container)
    }
}

/// After the last quote among the first containers, so many.
fn quotes_end(containers: &[Container<'_>], count: usize) -> usize
    ensures { AreQuotesWithin count (container_views containers.now) → AreQuotesWithin result (container_views containers.now) }
{
    for depth in (0..count.min(containers.len())).rev() {
        if matches!(containers[depth], Container::Quote) {
            return depth + 1;
        }
    }
    0
}

/// How many digits bytes begin with.
fn digits(bytes: &[u8]) -> usize
    ensures { result ≡ prefix_len is_digit bytes.now }
{
    for (i, byte) in bytes.iter().enumerate() {
        if !byte.is_ascii_digit() {
            return i;
        }
    }
    bytes.len()
}
