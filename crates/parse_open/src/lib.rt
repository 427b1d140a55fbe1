// FROM parse_open
//! What is open in a document after some of its rows, the blocks that all rows make, and what the nodes spell that are written so far.
#![tactic(auto)]

pub mod bytewise;

ghost use Rattle.parse_open.specs.BlockLaws.{BareBlocksReadTheSame, RowsLeadToBlocks};
ghost use Rattle.parse_open.specs.Lines.{LinesAreCounted, SpreadBlocksCompose};
ghost use Rattle.parse_open.specs.NodeLaws.{DocumentsAreFilled, DocumentsAreSound, LevelsAlwaysGoOn, PagesAreSpelled};
ghost use Rattle.parse_open.specs.Texts.{TextsAreSpelled};

/// The rows of blocks lead to the blocks, put into lists.
pub fn rows_law()
    ensures { RowsLeadToBlocks }
{}

/// Blocks as their rows have them are read to the same page.
pub fn bare_law()
    ensures { BareBlocksReadTheSame }
{}

/// How many lines end before a place.
pub fn lines_law()
    ensures { LinesAreCounted }
{}

/// Neighbours among nodes are more than a line apart where a blank line is between their blocks.
pub fn spread_law()
    ensures { SpreadBlocksCompose }
{}

/// What is written spells what is open, after one more row or a part of its nodes.
#[tactic(auto, using(crate::proofs::Steps::always_go_on))]
pub fn levels_law()
    ensures { LevelsAlwaysGoOn }
{}

/// Where nothing is open after all rows of a document, its nodes spell the page of its blocks.
pub fn pages_law()
    ensures { PagesAreSpelled }
{}

/// Where nothing is open after all rows of a document, its nodes fill the row of the document.
pub fn filled_law()
    ensures { DocumentsAreFilled }
{}

/// Where nothing is open after all rows of a document, its nodes are as the grammar asks.
pub fn sound_law()
    ensures { DocumentsAreSound }
{}

/// Where nothing is open after all rows of a text, its nodes spell the page of the text.
#[tactic(auto, using(crate::proofs::Texts::texts_are_spelled))]
pub fn texts_law()
    ensures { TextsAreSpelled }
{}
