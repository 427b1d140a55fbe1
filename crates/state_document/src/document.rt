//! The lines of a text: containers, and then flow.
//!
//! ```text
//! document ::= [bom] [frontmatter] *(*container_prefix flow_line)
//! ```
//!
//! The containers that are open are asked in order whether they go on (CommonMark, appendix, phase
//! 1). Then new ones may begin. What is left of the line is flow, which a `LineReader` reads.
ghost use Rattle.std.specs.Prelude.{◌≡◌, [], ◌∷◌, OnOk};
ghost use Rattle.engine_events.specs.declared.event.Name.TheVariants as names;
ghost use Rattle.markdown_engine.specs.Machine.{Became, SameText, config, read_with, with_enter};
ghost use Rattle.markdown_engine.specs.Order.{open_after};
ghost use Rattle.engine_programs.specs.Bodies.{FixedName};
ghost use Rattle.engine_programs.specs.Stacks.{Does, IsOpen};
ghost use Rattle.state_table.specs.BlockWords.{flow_link};
ghost use Rattle.state_document.specs.Document.{document_start, document_before_frontmatter, document_container_existing_before};
ghost use Rattle.state_document.specs.Document.{document_container_existing_after, document_container_new_before};
ghost use Rattle.state_document.specs.Document.{document_container_new_before_not_block_quote, document_container_new_before_not_list};
ghost use Rattle.state_document.specs.Document.{document_container_new_before_not_gfm_footnote_definition, document_container_new_after};
ghost use Rattle.state_document.specs.Document.{document_containers_after, document_flow_inside, document_flow_end, ended, in_line, start_line};
ghost use Rattle.state_document.specs.Views.{Sees};

use crate::blocks::Blocks;
use crate::line_reader::LineReader;
use engine_programs::around::leave;
use engine_programs::steps::{attempt_to, consume_to, exit_to};
use markdown_engine::Message;
use markdown_engine::container::Container;
use markdown_engine::event::Name as EventName;
use markdown_engine::state::{Block, Inline, State};
use markdown_engine::tokenizer::Tokenizer;
use markdown_options::Tables;
use state_containers::open::{begin_container, is_more_open, is_open};
use state_table::block::{next, part, retry};
use state_table::links::FLOW;
use std::alloc::Allocator;

/// At the start of a text.
pub fn start<M, T, A: Allocator>(tokenizer: &mut Tokenizer<'_, M, T, A>) -> State
    ensures { Does document_start tokenizer.old tokenizer.new result }
{
    attempt_to(
        tokenizer,
        next(Block::DocumentBeforeFrontmatter),
        next(Block::DocumentBeforeFrontmatter),
        retry(Block::BomStart),
    )
}

/// After a byte order mark.
pub fn before_frontmatter<M, T, A: Allocator>(tokenizer: &mut Tokenizer<'_, M, T, A>) -> State
    ensures { Does document_before_frontmatter tokenizer.old tokenizer.new result }
{
    attempt_to(
        tokenizer,
        next(Block::DocumentContainerNewBefore),
        next(Block::DocumentContainerNewBefore),
        retry(Block::FrontmatterStart),
    )
}

/// Before a container that is open.
pub fn container_existing_before<R: LineReader<T>, T: Tables, A: Allocator>(
    tokenizer: &mut Tokenizer<'_, Blocks<R>, T, A>,
) -> State
    ensures { Sees (λ machine. R.seen machine.reader) document_container_existing_before tokenizer.old tokenizer.new result }
{
    if is_more_open(&tokenizer.tokenize_state) {
        if is_open(&tokenizer.tokenize_state, Container::BlockQuote) {
            return attempt_to(
                tokenizer,
                next(Block::DocumentContainerExistingAfter),
                next(Block::DocumentContainerNewBefore),
                retry(Block::BlockQuoteContStart),
            );
        }
        if is_open(&tokenizer.tokenize_state, Container::ListItem) {
            return attempt_to(
                tokenizer,
                next(Block::DocumentContainerExistingAfter),
                next(Block::DocumentContainerNewBefore),
                retry(Block::ListItemContStart),
            );
        }
        return attempt_to(
            tokenizer,
            next(Block::DocumentContainerExistingAfter),
            next(Block::DocumentContainerNewBefore),
            retry(Block::GfmFootnoteDefinitionContStart),
        );
    }
    retry(Block::DocumentContainerNewBefore)
}

/// After a container that goes on.
pub fn container_existing_after<R: LineReader<T>, T: Tables, A: Allocator>(
    tokenizer: &mut Tokenizer<'_, Blocks<R>, T, A>,
) -> State
    ensures { Sees (λ machine. R.seen machine.reader) (document_container_existing_after R.calls (read_with tokenizer.old)) tokenizer.old tokenizer.new result }
{
    tokenizer
        .machine
        .reader
        .go_on(&tokenizer.tokenize_state, tokenizer.point);
    tokenizer.tokenize_state.space_or_tab_max = tokenizer
        .tokenize_state
        .space_or_tab_max
        .saturating_add(1);
    retry(Block::DocumentContainerExistingBefore)
}

/// Before a new container.
pub fn container_new_before<R: LineReader<T>, T: Tables, A: Allocator>(
    tokenizer: &mut Tokenizer<'_, Blocks<R>, T, A>,
) -> State
    ensures { Sees (λ machine. R.seen machine.reader) (document_container_new_before R.calls (read_with tokenizer.old)) tokenizer.old tokenizer.new result }
{
    tokenizer.machine.reader.mark(tokenizer.events.len());
    tokenizer.tokenize_state.start = tokenizer.point.column;
    tokenizer.tokenize_state.marker_b = 0;
    tokenizer.interrupt = tokenizer
        .machine
        .reader
        .is_interrupting(&tokenizer.tokenize_state);
    if tokenizer
        .machine
        .reader
        .is_concrete(&tokenizer.tokenize_state)
    {
        return retry(Block::DocumentContainerNewBeforeNotGfmFootnoteDefinition);
    }
    attempt_to(
        tokenizer,
        next(Block::DocumentContainerNewAfter),
        next(Block::DocumentContainerNewBeforeNotBlockQuote),
        retry(Block::BlockQuoteStart),
    )
}

/// Where no quote begins.
pub fn container_new_before_not_block_quote<M, T, A: Allocator>(
    tokenizer: &mut Tokenizer<'_, M, T, A>,
) -> State
    ensures { Does document_container_new_before_not_block_quote tokenizer.old tokenizer.new result }
{
    tokenizer.tokenize_state.marker_b = 1;
    attempt_to(
        tokenizer,
        next(Block::DocumentContainerNewAfter),
        next(Block::DocumentContainerNewBeforeNotList),
        retry(Block::ListItemStart),
    )
}

/// Where no item begins.
pub fn container_new_before_not_list<M, T, A: Allocator>(
    tokenizer: &mut Tokenizer<'_, M, T, A>,
) -> State
    ensures { Does document_container_new_before_not_list tokenizer.old tokenizer.new result }
{
    tokenizer.tokenize_state.marker_b = 2;
    attempt_to(
        tokenizer,
        next(Block::DocumentContainerNewAfter),
        next(Block::DocumentContainerNewBeforeNotGfmFootnoteDefinition),
        retry(Block::GfmFootnoteDefinitionStart),
    )
}

/// Where no footnote definition begins: over the columns of a blank line that belong to containers.
pub fn container_new_before_not_gfm_footnote_definition<M, T, A: Allocator>(
    tokenizer: &mut Tokenizer<'_, M, T, A>,
) -> State
    ensures { Does document_container_new_before_not_gfm_footnote_definition tokenizer.old tokenizer.new result }
{
    if tokenizer.tokenize_state.end == 0 {
        return retry(Block::DocumentContainersAfter);
    }
    tokenizer.tokenize_state.size_c = tokenizer.tokenize_state.end;
    tokenizer.tokenize_state.end = 0;
    attempt_to(
        tokenizer,
        next(Block::DocumentContainersAfter),
        next(Block::DocumentContainersAfter),
        part(Inline::SpaceOrTabStart),
    )
}

/// After a container that begins.
pub fn container_new_after<R: LineReader<T>, T: Tables, A: Allocator>(
    tokenizer: &mut Tokenizer<'_, Blocks<R>, T, A>,
) -> State
    requires { R.holds (read_with tokenizer.old) (R.seen tokenizer.old.machine.reader) }
    ensures { Sees (λ machine. R.seen machine.reader) (document_container_new_after R.calls (read_with tokenizer.old)) tokenizer.old tokenizer.new result }
{
    let point = tokenizer.point;
    let begun = tokenizer
        .machine
        .reader
        .begin(tokenizer.parse_state, &tokenizer.tokenize_state, point);
    if begun.is_err() {
        return State::out_of_memory();
    }
    if begin_container(&mut tokenizer.tokenize_state).is_err() {
        return State::out_of_memory();
    }
    tokenizer.tokenize_state.space_or_tab_max = tokenizer
        .tokenize_state
        .space_or_tab_max
        .saturating_add(1);
    tokenizer.interrupt = false;
    retry(Block::DocumentContainerNewBefore)
}

/// In a line, at a byte.
fn in_line<M, T, A: Allocator>(tokenizer: &mut Tokenizer<'_, M, T, A>) -> State
    requires { IsOpen (FixedName names.Data ∷ []) tokenizer.old }
    ensures { Does in_line tokenizer.old tokenizer.new result }
{
    match tokenizer.current {
        Some(b'\n') => {
            tokenizer.consume();
            exit_to(tokenizer, EventName::Data, next(Block::DocumentFlowEnd))
        },
        _ => consume_to(tokenizer, next(Block::DocumentFlowInside)),
    }
}

/// At the text's end.
fn end<R: LineReader<T>, T: Tables, A: Allocator>(
    tokenizer: &mut Tokenizer<'_, Blocks<R>, T, A>,
) -> State
    requires { R.holds (read_with tokenizer.old) (R.seen tokenizer.old.machine.reader) }
    ensures { Sees (λ machine. R.seen machine.reader) (ended R.calls (read_with tokenizer.old)) tokenizer.old tokenizer.new result }
{
    let ended = tokenizer.machine.reader.end(
        tokenizer.parse_state,
        &tokenizer.tokenize_state,
        tokenizer.point,
    );
    if ended.is_err() {
        return State::out_of_memory();
    }
    State::Ok
}

/// Adds that the flow of a line begins here.
fn enter_line<M, T, A: Allocator>(tokenizer: &mut Tokenizer<'_, M, T, A>) -> Result<(), Message>
    ensures became { OnOk result (Became (with_enter names.Data (flow_link (config tokenizer.old)) (config tokenizer.old)) tokenizer.old tokenizer.new) }
    ensures open_events { OnOk result (open_after [] tokenizer.new.events.items ≡ names.Data ∷ open_after [] tokenizer.old.events.items) }
    ensures text { SameText tokenizer.old tokenizer.new }
{
    tokenizer.enter_link(EventName::Data, FLOW)
}

/// At the first byte of a line's flow, for any machine.
fn begin_line<M, T, A: Allocator>(tokenizer: &mut Tokenizer<'_, M, T, A>) -> State
    ensures { Does start_line tokenizer.old tokenizer.new result }
{
    if enter_line(tokenizer).is_err() {
        return State::out_of_memory();
    }
    in_line(tokenizer)
}

/// At the first byte of a line's flow.
fn start_line<R: LineReader<T>, T: Tables, A: Allocator>(
    tokenizer: &mut Tokenizer<'_, Blocks<R>, T, A>,
) -> State
    ensures { Sees (λ machine. R.seen machine.reader) start_line tokenizer.old tokenizer.new result }
{
    begin_line(tokenizer)
}

/// After the containers of a line.
pub fn containers_after<R: LineReader<T>, T: Tables, A: Allocator>(
    tokenizer: &mut Tokenizer<'_, Blocks<R>, T, A>,
) -> State
    requires { R.holds (read_with tokenizer.old) (R.seen tokenizer.old.machine.reader) }
    ensures { Sees (λ machine. R.seen machine.reader) (document_containers_after R.calls (read_with tokenizer.old)) tokenizer.old tokenizer.new result }
{
    if tokenizer.current.is_none() {
        return end(tokenizer);
    }
    let begun = tokenizer.machine.reader.begin_flow(
        tokenizer.parse_state,
        &tokenizer.tokenize_state,
        tokenizer.point,
    );
    if begun.is_err() {
        return State::out_of_memory();
    }
    start_line(tokenizer)
}

/// In a line.
pub fn flow_inside<R: LineReader<T>, T: Tables, A: Allocator>(
    tokenizer: &mut Tokenizer<'_, Blocks<R>, T, A>,
) -> State
    requires open { IsOpen (FixedName names.Data ∷ []) tokenizer.old }
    requires holds { R.holds (read_with tokenizer.old) (R.seen tokenizer.old.machine.reader) }
    ensures { Sees (λ machine. R.seen machine.reader) (document_flow_inside R.calls (read_with tokenizer.old)) tokenizer.old tokenizer.new result }
{
    if tokenizer.current.is_some() {
        return in_line(tokenizer);
    }
    if leave(tokenizer, EventName::Data).is_err() {
        return State::out_of_memory();
    }
    end(tokenizer)
}

/// After a line.
pub fn flow_end<R: LineReader<T>, T: Tables, A: Allocator>(
    tokenizer: &mut Tokenizer<'_, Blocks<R>, T, A>,
) -> State
    requires { R.holds (read_with tokenizer.old) (R.seen tokenizer.old.machine.reader) }
    ensures { Sees (λ machine. R.seen machine.reader) (document_flow_end R.calls (read_with tokenizer.old)) tokenizer.old tokenizer.new result }
{
    if tokenizer.current.is_none() {
        return end(tokenizer);
    }
    let read = tokenizer.machine.reader.read_flow(
        tokenizer.parse_state,
        &tokenizer.tokenize_state,
        tokenizer.point,
    );
    if read.is_err() {
        return State::out_of_memory();
    }
    if !tokenizer.machine.reader.stays_open() {
        let count = tokenizer.tokenize_state.space_or_tab_max;
        tokenizer
            .tokenize_state
            .document_container_stack
            .truncate(count);
    }
    tokenizer.tokenize_state.space_or_tab_max = 0;
    retry(Block::DocumentContainerExistingBefore)
}
