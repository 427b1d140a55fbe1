//! Rows as patterns.
ghost use Rattle.std.specs.Prelude.{◌≡◌, ◌↔◌, true, List};
ghost use Rattle.engine_events.specs.declared.event.Name.{Name as AName};
ghost use Rattle.event_grammar.specs.Grammar.{row};
ghost use Rattle.event_grammar.specs.Spells.{Spells, takes_all};

use crate::grammar::row;
use crate::slot::{Form, Slot};
use engine_events::event::Name;

/// The row of a name, as a pattern: children that aren't between are taken one by one, up to where
/// the row may end, exactly if the row spells their names.
pub fn spelled_row(name: Name, form: Form) -> &'static [Slot]
    ensures row { result.now ≡ row name form }
    ensures law { (children : List AName) → (takes_all (row name form) children ≡ true) ↔ Spells (row name form) children }
{
    row(name, form)
}
