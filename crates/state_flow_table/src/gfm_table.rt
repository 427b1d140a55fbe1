//! Tables (GFM 4.10).
//!
//! ```text
//! gfm_table ::= row line_ending delimiters *(line_ending row)
//! row ::= ['|'] cell *('|' cell) ['|']
//! cell ::= *('\' '\' | '\' '|' | byte but '|')
//! delimiters ::= ['|'] delimiter *('|' delimiter) ['|'], with a bar or a colon
//! delimiter ::= [space_or_tab] [':'] 1*'-' [':'] [space_or_tab]
//! ```
//!
//! There are as many delimiters as cells of the first row, the head. It is the last line of the open
//! paragraph, of which something must be left without its definitions. Cells are told by the
//! resolver. `size` counts those of the head, `size_b` those of the row of delimiters.
ghost use Rattle.std.specs.Prelude.{[], ◌∷◌};
ghost use Rattle.engine_events.specs.declared.event.Name.TheVariants as names;
ghost use Rattle.engine_programs.specs.Bodies.{FixedName};
ghost use Rattle.engine_programs.specs.Stacks.{Does, IsOpen};
ghost use Rattle.markdown_engine.specs.Machine.{bytes_of, constructs_of};
ghost use Rattle.state_flow_table.specs.GfmTable.{gfm_table_end, gfm_table_read_part, gfm_table_end_head};
ghost use Rattle.state_flow_table.specs.GfmTable.{gfm_table_start, gfm_table_head_row_before, gfm_table_head_row_start};
ghost use Rattle.state_flow_table.specs.GfmTable.{gfm_table_head_row_break, gfm_table_head_row_data, gfm_table_head_row_escape};
ghost use Rattle.state_flow_table.specs.GfmTable.{gfm_table_head_delimiter_start, gfm_table_head_delimiter_before};
ghost use Rattle.state_flow_table.specs.GfmTable.{gfm_table_head_delimiter_cell_before};
ghost use Rattle.state_flow_table.specs.GfmTable.{gfm_table_head_delimiter_value_before, gfm_table_head_delimiter_left_alignment_after};
ghost use Rattle.state_flow_table.specs.GfmTable.{gfm_table_head_delimiter_filler};
ghost use Rattle.state_flow_table.specs.GfmTable.{gfm_table_head_delimiter_right_alignment_after, gfm_table_head_delimiter_cell_after};
ghost use Rattle.state_flow_table.specs.GfmTable.{gfm_table_head_delimiter_nok};
ghost use Rattle.state_flow_table.specs.GfmTable.{gfm_table_body_row_start, gfm_table_body_row_break, gfm_table_body_row_data};
ghost use Rattle.state_flow_table.specs.GfmTable.{gfm_table_body_row_escape};

use crate::cells::{count_cells, has_all_cells};
use engine_programs::around::leave;
use markdown_engine::event::Name as EventName;
use markdown_engine::resolve;
use markdown_engine::state::{Block, State};
use markdown_engine::tokenizer::Tokenizer;
use state_left::{is_after_rows, is_head_left};
use state_table::block::retry;
use state_table::links::TEXT;
use state_table::steps::{
    around_if, around_to, consume_to, enter_before, enter_link_to, enter_to, exit_before,
    exit_block,
};
use state_table::white::{is_indented, over_indent, over_white, white_to};
use std::alloc::Allocator;

/// At the end.
fn end<M, T, A: Allocator>(tokenizer: &mut Tokenizer<'_, M, T, A>) -> State
    requires { IsOpen (FixedName names.GfmTableDelimiterRow ∷ FixedName names.GfmTableHead ∷ []) tokenizer.old }
    ensures { Does (gfm_table_end (bytes_of tokenizer.old) (constructs_of tokenizer.old)) tokenizer.old tokenizer.new result }
{
    if !has_all_cells(&tokenizer.tokenize_state) {
        return State::Nok;
    }
    let Ok(holds) = is_head_left(tokenizer) else {
        return State::out_of_memory();
    };
    if !holds {
        return State::Nok;
    }
    if tokenizer.previous == Some(b'\n') {
        return State::Nok;
    }
    if tokenizer
        .register_resolver(resolve::Name::GfmTable)
        .is_err()
    {
        return State::out_of_memory();
    }
    if leave(tokenizer, EventName::GfmTableDelimiterRow).is_err() {
        return State::out_of_memory();
    }
    exit_block(tokenizer, EventName::GfmTableHead)
}

/// At a part of a row.
fn read_part<M, T, A: Allocator>(tokenizer: &mut Tokenizer<'_, M, T, A>) -> State
    ensures { Does gfm_table_read_part tokenizer.old tokenizer.new result }
{
    let state = match tokenizer.current {
        Some(b'|') => {
            return around_to(
                tokenizer,
                EventName::GfmTableCellDivider,
                Block::GfmTableBodyRowBreak,
            );
        },
        Some(b'\\') => Block::GfmTableBodyRowEscape,
        _ => Block::GfmTableBodyRowData,
    };
    enter_link_to(tokenizer, EventName::Data, TEXT, state)
}

/// At the end of the head.
fn end_head<M, T, A: Allocator>(tokenizer: &mut Tokenizer<'_, M, T, A>) -> State
    requires { IsOpen (FixedName names.GfmTableRow ∷ FixedName names.GfmTableHead ∷ []) tokenizer.old }
    ensures { Does gfm_table_end_head tokenizer.old tokenizer.new result }
{
    if count_cells(&tokenizer.tokenize_state) == 0 {
        return State::Nok;
    }
    tokenizer.tokenize_state.size = count_cells(&tokenizer.tokenize_state);
    tokenizer.tokenize_state.size_b = 0;
    tokenizer.tokenize_state.seen = false;
    tokenizer.tokenize_state.end = tokenizer.point.index;
    tokenizer.interrupt = true;
    if leave(tokenizer, EventName::GfmTableRow).is_err() {
        return State::out_of_memory();
    }
    around_to(
        tokenizer,
        EventName::LineEnding,
        Block::GfmTableHeadDelimiterStart,
    )
}

/// At the start of a line.
pub fn start<M, T, A: Allocator>(tokenizer: &mut Tokenizer<'_, M, T, A>) -> State
    ensures { Does (gfm_table_start (constructs_of tokenizer.old)) tokenizer.old tokenizer.new result }
{
    if !tokenizer.parse_state.options.constructs.gfm_table {
        return State::Nok;
    }
    if tokenizer.lazy {
        return retry(Block::GfmTableHeadRowBefore);
    }
    if is_after_rows(&tokenizer.events) {
        return retry(Block::GfmTableBodyRowStart);
    }
    retry(Block::GfmTableHeadRowBefore)
}

/// Before the row of the head.
pub fn head_row_before<M, T, A: Allocator>(tokenizer: &mut Tokenizer<'_, M, T, A>) -> State
    ensures { Does gfm_table_head_row_before tokenizer.old tokenizer.new result }
{
    tokenizer.tokenize_state.start = tokenizer.events.len();
    tokenizer.tokenize_state.size = 0;
    tokenizer.tokenize_state.seen = false;
    if tokenizer.enter(EventName::GfmTableHead).is_err() {
        return State::out_of_memory();
    }
    enter_before(
        tokenizer,
        EventName::GfmTableRow,
        Block::GfmTableHeadRowStart,
    )
}

/// At the first bar, or elsewhere.
pub fn head_row_start<M, T, A: Allocator>(tokenizer: &mut Tokenizer<'_, M, T, A>) -> State
    ensures { Does gfm_table_head_row_start tokenizer.old tokenizer.new result }
{
    around_if(
        tokenizer,
        b'|',
        EventName::GfmTableCellDivider,
        Block::GfmTableHeadRowBreak,
        retry(Block::GfmTableHeadRowBreak),
    )
}

/// Between the parts of the row.
pub fn head_row_break<M, T, A: Allocator>(tokenizer: &mut Tokenizer<'_, M, T, A>) -> State
    requires { IsOpen (FixedName names.GfmTableRow ∷ FixedName names.GfmTableHead ∷ []) tokenizer.old }
    ensures { Does gfm_table_head_row_break tokenizer.old tokenizer.new result }
{
    match tokenizer.current {
        None => State::Nok,
        Some(b'\n') => {
            if tokenizer.previous == Some(b'\n') {
                return State::Nok;
            }
            end_head(tokenizer)
        },
        Some(b'\t' | b' ') => white_to(tokenizer, usize::MAX, Block::GfmTableHeadRowBreak),
        Some(b'|') => {
            tokenizer.tokenize_state.size = tokenizer.tokenize_state.size.saturating_add(1);
            tokenizer.tokenize_state.seen = false;
            around_to(
                tokenizer,
                EventName::GfmTableCellDivider,
                Block::GfmTableHeadRowBreak,
            )
        },
        Some(byte) => {
            tokenizer.tokenize_state.seen = true;
            let state = if byte == b'\\' {
                Block::GfmTableHeadRowEscape
            } else {
                Block::GfmTableHeadRowData
            };
            enter_link_to(tokenizer, EventName::Data, TEXT, state)
        },
    }
}

/// In a cell.
pub fn head_row_data<M, T, A: Allocator>(tokenizer: &mut Tokenizer<'_, M, T, A>) -> State
    requires { IsOpen (FixedName names.Data ∷ FixedName names.GfmTableRow ∷ FixedName names.GfmTableHead ∷ []) tokenizer.old }
    ensures { Does gfm_table_head_row_data tokenizer.old tokenizer.new result }
{
    let state = match tokenizer.current {
        None | Some(b'\t' | b'\n' | b' ' | b'|') => {
            return exit_before(tokenizer, EventName::Data, Block::GfmTableHeadRowBreak);
        },
        Some(b'\\') => Block::GfmTableHeadRowEscape,
        Some(_) => Block::GfmTableHeadRowData,
    };
    consume_to(tokenizer, state)
}

/// After a backslash.
pub fn head_row_escape<M, T, A: Allocator>(tokenizer: &mut Tokenizer<'_, M, T, A>) -> State
    ensures { Does gfm_table_head_row_escape tokenizer.old tokenizer.new result }
{
    match tokenizer.current {
        Some(b'\\' | b'|') => consume_to(tokenizer, Block::GfmTableHeadRowData),
        _ => retry(Block::GfmTableHeadRowData),
    }
}

/// At the start of the row of delimiters.
pub fn head_delimiter_start<M, T, A: Allocator>(tokenizer: &mut Tokenizer<'_, M, T, A>) -> State
    ensures { Does (gfm_table_head_delimiter_start (constructs_of tokenizer.old)) tokenizer.old tokenizer.new result }
{
    if tokenizer.lazy {
        return State::Nok;
    }
    if tokenizer.enter(EventName::GfmTableDelimiterRow).is_err() {
        return State::out_of_memory();
    }
    over_indent(tokenizer, Block::GfmTableHeadDelimiterBefore)
}

/// At a bar, or at the first value.
pub fn head_delimiter_before<M, T, A: Allocator>(tokenizer: &mut Tokenizer<'_, M, T, A>) -> State
    ensures { Does gfm_table_head_delimiter_before tokenizer.old tokenizer.new result }
{
    if tokenizer.current != Some(b'|') {
        return retry(Block::GfmTableHeadDelimiterValueBefore);
    }
    tokenizer.tokenize_state.seen = true;
    around_to(
        tokenizer,
        EventName::GfmTableCellDivider,
        Block::GfmTableHeadDelimiterCellBefore,
    )
}

/// After a bar.
pub fn head_delimiter_cell_before<M, T, A: Allocator>(
    tokenizer: &mut Tokenizer<'_, M, T, A>,
) -> State
    ensures { Does gfm_table_head_delimiter_cell_before tokenizer.old tokenizer.new result }
{
    over_white(
        tokenizer,
        usize::MAX,
        Block::GfmTableHeadDelimiterValueBefore,
    )
}

/// Before a value.
pub fn head_delimiter_value_before<M, T, A: Allocator>(
    tokenizer: &mut Tokenizer<'_, M, T, A>,
) -> State
    ensures { Does gfm_table_head_delimiter_value_before tokenizer.old tokenizer.new result }
{
    match tokenizer.current {
        None | Some(b'\n') => retry(Block::GfmTableHeadDelimiterCellAfter),
        Some(b':') => {
            tokenizer.tokenize_state.size_b = tokenizer.tokenize_state.size_b.saturating_add(1);
            tokenizer.tokenize_state.seen = true;
            around_to(
                tokenizer,
                EventName::GfmTableDelimiterMarker,
                Block::GfmTableHeadDelimiterLeftAlignmentAfter,
            )
        },
        Some(b'-') => {
            tokenizer.tokenize_state.size_b = tokenizer.tokenize_state.size_b.saturating_add(1);
            enter_to(
                tokenizer,
                EventName::GfmTableDelimiterFiller,
                Block::GfmTableHeadDelimiterFiller,
            )
        },
        Some(_) => State::Nok,
    }
}

/// After a colon on the left.
pub fn head_delimiter_left_alignment_after<M, T, A: Allocator>(
    tokenizer: &mut Tokenizer<'_, M, T, A>,
) -> State
    ensures { Does gfm_table_head_delimiter_left_alignment_after tokenizer.old tokenizer.new result }
{
    if tokenizer.current != Some(b'-') {
        return State::Nok;
    }
    enter_to(
        tokenizer,
        EventName::GfmTableDelimiterFiller,
        Block::GfmTableHeadDelimiterFiller,
    )
}

/// In dashes.
pub fn head_delimiter_filler<M, T, A: Allocator>(tokenizer: &mut Tokenizer<'_, M, T, A>) -> State
    requires { IsOpen (FixedName names.GfmTableDelimiterFiller ∷ FixedName names.GfmTableDelimiterRow ∷ FixedName names.GfmTableHead ∷ []) tokenizer.old }
    ensures { Does gfm_table_head_delimiter_filler tokenizer.old tokenizer.new result }
{
    match tokenizer.current {
        None => exit_before(
            tokenizer,
            EventName::GfmTableDelimiterFiller,
            Block::GfmTableHeadDelimiterRightAlignmentAfter,
        ),
        Some(b'-') => consume_to(tokenizer, Block::GfmTableHeadDelimiterFiller),
        Some(b':') => {
            if leave(tokenizer, EventName::GfmTableDelimiterFiller).is_err() {
                return State::out_of_memory();
            }
            tokenizer.tokenize_state.seen = true;
            around_to(
                tokenizer,
                EventName::GfmTableDelimiterMarker,
                Block::GfmTableHeadDelimiterRightAlignmentAfter,
            )
        },
        Some(_) => exit_before(
            tokenizer,
            EventName::GfmTableDelimiterFiller,
            Block::GfmTableHeadDelimiterRightAlignmentAfter,
        ),
    }
}

/// After a value.
pub fn head_delimiter_right_alignment_after<M, T, A: Allocator>(
    tokenizer: &mut Tokenizer<'_, M, T, A>,
) -> State
    ensures { Does gfm_table_head_delimiter_right_alignment_after tokenizer.old tokenizer.new result }
{
    over_white(tokenizer, usize::MAX, Block::GfmTableHeadDelimiterCellAfter)
}

/// After a value, or at the end of the row.
pub fn head_delimiter_cell_after<M, T, A: Allocator>(
    tokenizer: &mut Tokenizer<'_, M, T, A>,
) -> State
    requires { IsOpen (FixedName names.GfmTableDelimiterRow ∷ FixedName names.GfmTableHead ∷ []) tokenizer.old }
    ensures { Does (gfm_table_head_delimiter_cell_after (bytes_of tokenizer.old) (constructs_of tokenizer.old)) tokenizer.old tokenizer.new result }
{
    match tokenizer.current {
        None | Some(b'\n') => end(tokenizer),
        Some(b'|') => {
            tokenizer.tokenize_state.seen = true;
            around_to(
                tokenizer,
                EventName::GfmTableCellDivider,
                Block::GfmTableHeadDelimiterCellBefore,
            )
        },
        Some(_) => State::Nok,
    }
}

/// Where no row of delimiters is.
pub fn head_delimiter_nok<M, T, A: Allocator>(tokenizer: &mut Tokenizer<'_, M, T, A>) -> State
    ensures { Does gfm_table_head_delimiter_nok tokenizer.old tokenizer.new result }
{
    State::Nok
}

/// At the start of a row.
pub fn body_row_start<M, T, A: Allocator>(tokenizer: &mut Tokenizer<'_, M, T, A>) -> State
    ensures { Does (gfm_table_body_row_start (constructs_of tokenizer.old)) tokenizer.old tokenizer.new result }
{
    match tokenizer.current {
        None => State::Nok,
        Some(_) => {
            if is_indented(tokenizer) {
                return State::Nok;
            }
            if tokenizer.enter(EventName::GfmTableRow).is_err() {
                return State::out_of_memory();
            }
            read_part(tokenizer)
        },
    }
}

/// Between the parts of a row.
pub fn body_row_break<M, T, A: Allocator>(tokenizer: &mut Tokenizer<'_, M, T, A>) -> State
    requires { IsOpen (FixedName names.GfmTableRow ∷ []) tokenizer.old }
    ensures { Does gfm_table_body_row_break tokenizer.old tokenizer.new result }
{
    match tokenizer.current {
        None | Some(b'\n') => { exit_block(tokenizer, EventName::GfmTableRow) },
        Some(b'\t' | b' ') => white_to(tokenizer, usize::MAX, Block::GfmTableBodyRowBreak),
        Some(_) => read_part(tokenizer),
    }
}

/// In a cell.
pub fn body_row_data<M, T, A: Allocator>(tokenizer: &mut Tokenizer<'_, M, T, A>) -> State
    requires { IsOpen (FixedName names.Data ∷ FixedName names.GfmTableRow ∷ []) tokenizer.old }
    ensures { Does gfm_table_body_row_data tokenizer.old tokenizer.new result }
{
    let state = match tokenizer.current {
        None | Some(b'\t' | b'\n' | b' ' | b'|') => {
            return exit_before(tokenizer, EventName::Data, Block::GfmTableBodyRowBreak);
        },
        Some(b'\\') => Block::GfmTableBodyRowEscape,
        Some(_) => Block::GfmTableBodyRowData,
    };
    consume_to(tokenizer, state)
}

/// After a backslash.
pub fn body_row_escape<M, T, A: Allocator>(tokenizer: &mut Tokenizer<'_, M, T, A>) -> State
    ensures { Does gfm_table_body_row_escape tokenizer.old tokenizer.new result }
{
    match tokenizer.current {
        Some(b'\\' | b'|') => consume_to(tokenizer, Block::GfmTableBodyRowData),
        _ => retry(Block::GfmTableBodyRowData),
    }
}
