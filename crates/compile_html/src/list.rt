//! Lists (CommonMark 5.3).
ghost use Rattle.std.specs.Prelude.{◌≡◌, ◌-◌, ◌^◌, OnOk, Some, not, min, drop, reverse};
ghost use Rattle.markdown_compile_options.specs.declared.configuration.CompileOptions.{CompileOptions};
ghost use Rattle.html_leaves.specs.Prints.{KeepsEnding};
ghost use Rattle.definition_block.specs.ListItem.{number_of};
ghost use Rattle.definition_inline.specs.CharacterReference.{Names};
ghost use Rattle.event_grammar.specs.Trees.{Nodes};
ghost use Rattle.compile_levels.specs.declared.kind.BlockKind.TheVariants as kinds;
ghost use Rattle.compile_levels.specs.declared.level.Holder.TheVariants as holders;
ghost use Rattle.event_meaning.specs.Blocks.{list_number};
ghost use Rattle.event_meaning.specs.Left.{ListOf, opening, closing};
ghost use Rattle.compile_written.specs.Within.{AreWithin};
ghost use Rattle.compile_html.specs.Numbers.{HaveNumbers};
ghost use Rattle.compile_html.specs.Opened.{within};
ghost use Rattle.compile_html.specs.Views.{opened_of, Prints, next_loose};

use crate::printer::Printer;
use compile_blocks::Source;
use compile_levels::kind::BlockKind;
use compile_levels::level::Holder;
use compile_written::child::{child, inside_child, text_first};
use engine_events::event::{Event, Name};
use std::alloc::{AllocError, Allocator};

impl<A: Allocator + Clone> Printer<A> {
    /// An ordered list starts, before these events.
    pub(crate) fn enter_ordered_list<T>(
        &mut self,
        source: &Source<'_, T, A>,
        events: &[Event],
    ) -> Result<(), AllocError>
        ensures default { KeepsEnding self.old.leaves.page self.new.leaves.page }
        ensures columns { self.new.leaves.columns ≡ self.old.leaves.columns }
        ensures loose { reverse self.new.loose.items ≡ drop 1 (reverse self.old.loose.items) }
        ensures opened { (names : Names) (kids : Nodes) → let bytes = source.now.checked.bytes.now in AreWithin kids events.now → HaveNumbers bytes kids →
            let number = Some (list_number names bytes kids) in
            OnOk result (opened_of self.new ≡ within kinds.OrderedList (holders.List number) (not (next_loose self.old)) (opened_of self.old)) }
        ensures printed { (options : CompileOptions) (names : Names) (kids : Nodes) → let bytes = source.now.checked.bytes.now in
            AreWithin kids events.now → HaveNumbers bytes kids →
            OnOk result (Prints options self.old self.new (opening (ListOf (Some (list_number names bytes kids))))) }
    {
        let item = inside_child(events, Name::ListItem);
        let prefix = inside_child(item, Name::ListItemPrefix);
        let digits = text_first(source.checked.bytes(), child(prefix, Name::ListItemValue));
        self.enter_list(BlockKind::OrderedList, Some(number_of(digits)))
    }

    /// A list starts, with the number of its first item if it is ordered.
    pub(crate) fn enter_list(
        &mut self,
        kind: BlockKind,
        number: Option<u32>,
    ) -> Result<(), AllocError>
        ensures default { KeepsEnding self.old.leaves.page self.new.leaves.page }
        ensures columns { self.new.leaves.columns ≡ self.old.leaves.columns }
        ensures loose { reverse self.new.loose.items ≡ drop 1 (reverse self.old.loose.items) }
        ensures opened { OnOk result (opened_of self.new ≡ within kind (holders.List number) (not (next_loose self.old)) (opened_of self.old)) }
        ensures printed { (options : CompileOptions) → OnOk result (Prints options self.old self.new (opening (ListOf number))) }
    {
        let loose = self.loose.pop().unwrap_or_default();
        self.leaves.page.fresh()?;
        self.leaves.page.list_tag(number)?;
        self.go_in(kind, Holder::List { number }, !loose)
    }

    /// A list ends.
    pub(crate) fn leave_list(&mut self, number: Option<u32>) -> Result<(), AllocError>
        ensures default { KeepsEnding self.old.leaves.page self.new.leaves.page }
        ensures columns { self.new.leaves.columns ≡ self.old.leaves.columns }
        ensures loose { self.new.loose ≡ self.old.loose }
        ensures opened { opened_of self.new ≡ opened_of self.old }
        ensures printed { (options : CompileOptions) → OnOk result (Prints options self.old self.new (closing (ListOf number) self.old.level.plain)) }
    {
        self.leaves.page.eol()?;
        self.leaves.page.list_end(number)
    }
}

/// The number that digits stand for, or the greatest one that fits.
#[tactic(auto, using(compile_written::proofs::Numbers::stopped_step))]
fn number_of(digits: &[u8]) -> u32
    ensures { result ≡ min (number_of digits.now) (2 ^ 32 - 1) }
{
    let mut number: u32 = 0;
    for digit in digits {
        number = number
            .saturating_mul(10)
            .saturating_add(u32::from(digit.saturating_sub(b'0')));
    }
    number
}
