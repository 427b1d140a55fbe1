//! Which slots of a row of the grammar nodes take.
#![tactic(auto)]

ghost use Rattle.parse_slots.specs.Laws.{FilledListsMatch, RowsAreFilled};
ghost use Rattle.parse_slots.specs.Examples.{FilledExamples};

/// A quote fills its row; one whose prefix has no marker doesn't, and neither does a break with no
/// sequence.
pub fn filled_examples()
    ensures { FilledExamples }
{}

/// Nodes fit a row exactly if they fill it, and all else that the grammar asks holds of them.
pub fn rows_law()
    ensures { RowsAreFilled }
{}

/// A list of events matches the grammar if it is that of nodes that fill the row of the document, and
/// all else that the grammar asks holds of them.
pub fn lists_law()
    ensures { FilledListsMatch }
{}
