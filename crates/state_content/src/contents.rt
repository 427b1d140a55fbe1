//! The machine of a paragraph.
ghost use Rattle.std.specs.Prelude.{length};
ghost use Rattle.markdown_engine.specs.Resolving.{resolves_nothing, settles_whole};
ghost use Rattle.engine_programs.specs.Bodies.{step_by};
ghost use Rattle.engine_programs.specs.Stacks.{program_rank, program_valid};
ghost use Rattle.state_content.specs.Contents.{contents_bodies, contents_sorts};
ghost use Rattle.state_content.specs.declared.contents.Contents.{Contents};
ghost use Rattle.state_content.specs.ContentsLaws.{contents_lawful, contents_resolve};

use markdown_engine::state::{Name, State};
use markdown_engine::subresult::Subresult;
use markdown_engine::tokenizer::{Machine, Tokenizer};
use markdown_engine::{Message, resolve};
use markdown_options::Tables;
use state_table::block::{Group, group_of};
use std::alloc::Allocator;

/// The machine of a paragraph.
#[derive(Clone, Copy, Debug, PartialEq, Eq)]
pub struct Contents;

impl<T: Tables> Machine<T> for Contents {
    ghost Seen = { Contents };

    ghost seen = { λ machine. machine };

    ghost step = { λ x. step_by (contents_bodies x) };

    ghost valid = { λ x. program_valid contents_sorts 64 (length x.bytes) };

    ghost rank = { λ x. program_rank contents_sorts 64 (length x.bytes) };

    ghost resolved = { λ x. resolves_nothing };

    ghost settled = { λ x. settles_whole };

    #[tactic(auto, using(crate::specs::ContentsLaws::contents_open), unfolding(crate::specs::Contents::contents_bodies))]
    fn call<'a, A: Allocator>(tokenizer: &mut Tokenizer<'a, Self, T, A>, name: Name) -> State {
        match name {
            Name::Inline(state) => match state_table::group_of(state) {
                state_table::Group::Labels => state_labels::call(tokenizer, state),
                _ => State::Nok,
            },
            Name::Block(state) => match group_of(state) {
                Group::Content => crate::call(tokenizer, state),
                _ => State::Nok,
            },
        }
    }

    fn resolve<'a, A: Allocator + Clone>(
        _tokenizer: &mut Tokenizer<'a, Self, T, A>,
        _name: resolve::Name,
    ) -> Result<Option<Subresult<A>>, Message> {
        Ok(None)
    }

    ghost lawful = { λ x. contents_lawful x };

    ghost resolving = { λ x. contents_resolve x };
}
