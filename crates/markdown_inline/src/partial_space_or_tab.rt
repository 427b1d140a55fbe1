//! Spaces and tabs.
//!
//! ```text
//! space_or_tab ::= 1*(' ' | '\t')
//! ```
ghost use Rattle.std.specs.Prelude.{◌≡◌};
ghost use Rattle.engine_states.specs.declared.state.Inline.TheVariants as inline;
ghost use Rattle.engine_states.specs.declared.state.Name.TheVariants as state_names;
ghost use Rattle.markdown_engine.specs.Machine.{config, KeepsParseState};
ghost use Rattle.markdown_inline.specs.SpaceOrTab.{with_any_white, with_white};

use markdown_engine::state::{Inline, Name};
use markdown_engine::tokenizer::Tokenizer;
pub use state_labels::partial_space_or_tab::{after, inside, start};
use std::alloc::Allocator;

/// How spaces and tabs are read.
#[derive(Clone, Copy, Debug, PartialEq, Eq)]
pub struct Options {
    /// How many columns are read at most. At least one is.
    pub max: usize,
    /// Whether they belong to the chunks of the string in which they are.
    pub connect: bool,
}

/// Returns the state that reads spaces and tabs by these options. They become an event `SpaceOrTab`.
pub fn space_or_tab_with_options<M, T, A: Allocator>(
    tokenizer: &mut Tokenizer<'_, M, T, A>,
    options: Options,
) -> Name
    ensures state { result ≡ state_names.Inline inline.SpaceOrTabStart }
    ensures became { config tokenizer.new ≡ with_white options.max options.connect (config tokenizer.old) }
    ensures parse_state { KeepsParseState tokenizer.old tokenizer.new }
{
    tokenizer.tokenize_state.connect = options.connect;
    tokenizer.tokenize_state.size_c = options.max;
    Name::Inline(Inline::SpaceOrTabStart)
}

/// Returns the state that reads one or more spaces and tabs. They become an event `SpaceOrTab`.
pub fn space_or_tab<M, T, A: Allocator>(tokenizer: &mut Tokenizer<'_, M, T, A>) -> Name
    ensures state { result ≡ state_names.Inline inline.SpaceOrTabStart }
    ensures became { config tokenizer.new ≡ with_any_white (config tokenizer.old) }
    ensures parse_state { KeepsParseState tokenizer.old tokenizer.new }
{
    let options = Options {
        max: usize::MAX,
        connect: false,
    };
    space_or_tab_with_options(tokenizer, options)
}
