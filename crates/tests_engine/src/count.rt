//! A machine that consumes every byte and counts its calls.
ghost use Rattle.std.specs.Prelude.{length, ℕ};
ghost use Rattle.markdown_engine.specs.Resolving.{HoldsUnresolved, resolves_nothing, settles_whole};
ghost use Rattle.tests_engine.specs.Counting.{count_step, counts};
ghost use Rattle.tests_engine.specs.CountingLaws.{count_lawful, count_resolves};
ghost use Rattle.tests_engine.specs.EachByte.{each_rank};

use markdown_engine::resolve;
use markdown_engine::state::{Name, State};
use markdown_engine::subresult::Subresult;
use markdown_engine::tokenizer::{Machine, Tokenizer};
use markdown_options::{Message, Tables};
use std::alloc::Allocator;

/// Consumes every byte.
#[derive(Clone, Copy)]
pub struct Count {
    /// How often a byte was handed in.
    pub calls: usize,
}

impl<T: Tables> Machine<T> for Count {
    ghost Seen = { ℕ };

    ghost seen = { λ machine. machine.calls };

    ghost step = { λ x. count_step };

    ghost valid = { λ x. HoldsUnresolved counts };

    ghost rank = { λ x. each_rank (length x.bytes) };

    ghost resolved = { λ x. resolves_nothing };

    ghost settled = { λ x. settles_whole };

    #[tactic(auto, unfolding(crate::specs::Counting::count_step))]
    fn call<'a, A: Allocator>(tokenizer: &mut Tokenizer<'a, Self, T, A>, name: Name) -> State {
        match tokenizer.current {
            Some(_) => {
                tokenizer.consume();
                tokenizer.machine.calls = tokenizer.machine.calls.saturating_add(1);
                State::Next(name)
            }
            None => State::Ok,
        }
    }

    #[tactic(auto)]
    fn resolve<'a, A: Allocator + Clone>(
        tokenizer: &mut Tokenizer<'a, Self, T, A>,
        _name: resolve::Name,
    ) -> Result<Option<Subresult<A>>, Message> {
        Ok(None)
    }

    ghost lawful = { λ x. count_lawful (length x.bytes) };

    ghost resolving = { λ x. count_resolves (length x.bytes) };
}
