//! The machine of the blocks of a text.
ghost use Rattle.std.specs.Prelude.{length};
ghost use Rattle.markdown_engine.specs.Resolving.{resolves_nothing, settles_whole};
ghost use Rattle.engine_programs.specs.Bodies.{step_by};
ghost use Rattle.engine_programs.specs.Stacks.{program_rank, program_valid};
ghost use Rattle.state_flow.specs.Flows.{flows_bodies, flows_sorts};
ghost use Rattle.state_flow.specs.declared.flows.Flows.{Flows};
ghost use Rattle.state_flow.specs.FlowsLaws.{flows_lawful, flows_resolve};

use markdown_engine::state::{Name, State};
use markdown_engine::subresult::Subresult;
use markdown_engine::tokenizer::{Machine, Tokenizer};
use markdown_engine::{Message, resolve};
use markdown_options::Tables;
use state_table::block::{Group, group_of};
use std::alloc::Allocator;

/// The machine of the blocks of a text.
#[derive(Clone, Copy, Debug, PartialEq, Eq)]
pub struct Flows;

impl<T: Tables> Machine<T> for Flows {
    ghost Seen = { Flows };

    ghost seen = { λ machine. machine };

    ghost step = { λ x. step_by (flows_bodies x) };

    ghost valid = { λ x. program_valid flows_sorts 64 (length x.bytes) };

    ghost rank = { λ x. program_rank flows_sorts 64 (length x.bytes) };

    ghost resolved = { λ x. resolves_nothing };

    ghost settled = { λ x. settles_whole };

    #[tactic(auto, using(crate::specs::FlowsLaws::flows_open), unfolding(crate::specs::Flows::flows_bodies))]
    fn call<'a, A: Allocator>(tokenizer: &mut Tokenizer<'a, Self, T, A>, name: Name) -> State {
        match name {
            Name::Inline(state) => match state_table::group_of(state) {
                state_table::Group::Labels => state_labels::call(tokenizer, state),
                _ => State::Nok,
            },
            Name::Block(state) => match group_of(state) {
                Group::Content => state_content::call(tokenizer, state),
                Group::Leaves => state_flow_leaves::call(tokenizer, state),
                Group::Html => state_flow_html::call(tokenizer, state),
                Group::Table => state_flow_table::call(tokenizer, state),
                Group::Flow => crate::call(tokenizer, state),
                _ => State::Nok,
            },
        }
    }

    fn resolve<'a, A: Allocator + Clone>(
        _tokenizer: &mut Tokenizer<'a, Self, T, A>,
        _name: resolve::Name,
    ) -> Result<Option<Subresult<A>>, Message> {
        Ok(None)
    }

    ghost lawful = { λ x. flows_lawful x };

    ghost resolving = { λ x. flows_resolve x };
}
