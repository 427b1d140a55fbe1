//! The machine of documents.
ghost use Rattle.std.specs.Prelude.{length};
ghost use Rattle.markdown_engine.specs.Resolving.{resolves_nothing, settles_whole};
ghost use Rattle.engine_programs.specs.Bodies.{step_by};
ghost use Rattle.engine_states.specs.declared.state.Name.TheVariants as any_states;
ghost use Rattle.engine_programs.specs.Stacks.{IsOpen, program_rank};
ghost use Rattle.markdown_engine.specs.Machine.{read_with};
ghost use Rattle.state_table.specs.Table.{sorts};
ghost use Rattle.state_labels.specs.LabelStates.{label_body};
ghost use Rattle.state_table.specs.BlockTable.{block_sorts};
ghost use Rattle.state_flow_leaves.specs.LeavesStates.{leaves_body};
ghost use Rattle.state_containers.specs.ContainerStates.{container_body};
ghost use Rattle.state_document.specs.Blocks.{blocks_bodies, blocks_sorts, blocks_valid};
ghost use Rattle.state_document.specs.BlocksLaws.{blocks_lawful, blocks_resolve};
ghost use Rattle.state_document.specs.Views.{Sees};

use crate::line_reader::LineReader;
use markdown_engine::state::{Block, Inline, Name, State};
use markdown_engine::subresult::Subresult;
use markdown_engine::tokenizer::{Machine, Tokenizer};
use markdown_engine::{Message, resolve};
use markdown_options::Tables;
use state_table::block::{Group, group_of};
use std::alloc::Allocator;

/// The machine of documents: its states read the containers of each line, and `reader` reads what
/// is left of it.
#[derive(Drop)]
pub struct Blocks<R> {
    pub reader: R,
}

/// Calls a state of the prefixes of containers.
fn call_container<R: LineReader<T>, T: Tables, A: Allocator>(
    tokenizer: &mut Tokenizer<'_, Blocks<R>, T, A>,
    state: Block,
) -> State
    requires { IsOpen (block_sorts (any_states.Block state)).open_tokens tokenizer.old }
    ensures { Sees (λ machine. R.seen machine.reader) (container_body (read_with tokenizer.old) state) tokenizer.old tokenizer.new result }
{
    state_containers::call(tokenizer, state)
}

/// Calls a state of blank lines or of thematic breaks, which containers ask for.
fn call_leaf<R: LineReader<T>, T: Tables, A: Allocator>(
    tokenizer: &mut Tokenizer<'_, Blocks<R>, T, A>,
    state: Block,
) -> State
    requires { IsOpen (block_sorts (any_states.Block state)).open_tokens tokenizer.old }
    ensures { Sees (λ machine. R.seen machine.reader) (leaves_body (read_with tokenizer.old) state) tokenizer.old tokenizer.new result }
{
    state_flow_leaves::call(tokenizer, state)
}

/// Calls a state of white space.
fn call_label<R: LineReader<T>, T: Tables, A: Allocator>(
    tokenizer: &mut Tokenizer<'_, Blocks<R>, T, A>,
    state: Inline,
) -> State
    requires { IsOpen (sorts (any_states.Inline state)).open_tokens tokenizer.old }
    ensures { Sees (λ machine. R.seen machine.reader) (label_body (read_with tokenizer.old) state) tokenizer.old tokenizer.new result }
{
    state_labels::call(tokenizer, state)
}

impl<R: LineReader<T>, T: Tables> Machine<T> for Blocks<R> {
    ghost Seen = { R.Seen };

    ghost seen = { λ machine. R.seen machine.reader };

    ghost step = { λ x. step_by (blocks_bodies R.calls x) };

    ghost valid = { λ x. blocks_valid (length x.bytes) (R.holds x) };

    ghost rank = { λ x. program_rank blocks_sorts 256 (length x.bytes) };

    ghost resolved = { λ x. resolves_nothing };

    ghost settled = { λ x. settles_whole };

    #[tactic(auto, using(crate::specs::BlocksLaws::blocks_open), unfolding(crate::specs::Blocks::blocks_bodies))]
    fn call<'a, A: Allocator>(tokenizer: &mut Tokenizer<'a, Self, T, A>, name: Name) -> State {
        match name {
            Name::Inline(state) => match state_table::group_of(state) {
                state_table::Group::Labels => call_label(tokenizer, state),
                _ => State::Nok,
            },
            Name::Block(state) => match group_of(state) {
                Group::Leaves => call_leaf(tokenizer, state),
                Group::Containers => call_container(tokenizer, state),
                Group::Document => crate::call(tokenizer, state),
                Group::Content | Group::Html | Group::Table | Group::Flow => State::Nok,
            },
        }
    }

    fn resolve<'a, A: Allocator + Clone>(
        _tokenizer: &mut Tokenizer<'a, Self, T, A>,
        _name: resolve::Name,
    ) -> Result<Option<Subresult<A>>, Message> {
        Ok(None)
    }

    ghost lawful = { λ x. blocks_lawful R.calls R.holds R.lawful x };

    ghost resolving = { λ x. blocks_resolve R.calls R.holds R.lawful x };
}
