//! Spaces, tabs and at most one line ending.
//!
//! ```text
//! space_or_tab_eol ::= 1*space_or_tab | [space_or_tab] line_ending [space_or_tab]
//! ```
ghost use Rattle.std.specs.Prelude.{◌≡◌};
ghost use Rattle.engine_states.specs.declared.state.Inline.TheVariants as inline;
ghost use Rattle.engine_states.specs.declared.state.Name.TheVariants as state_names;
ghost use Rattle.markdown_engine.specs.Machine.{config, KeepsParseState};
ghost use Rattle.markdown_inline.specs.SpaceOrTab.{connected, unconnected};

use markdown_engine::state::{Inline, Name};
use markdown_engine::tokenizer::Tokenizer;
pub use state_labels::partial_space_or_tab_eol::{
    after_eol, after_first, after_more, at_eol, start,
};
use std::alloc::Allocator;

/// How spaces, tabs and a line ending are read.
#[derive(Clone, Copy, Debug, PartialEq, Eq)]
pub struct Options {
    /// Whether they belong to the chunks of the string in which they are.
    pub connect: bool,
}

/// Returns the state that reads spaces and tabs with at most one line ending among them, by these
/// options.
pub fn space_or_tab_eol_with_options<M, T, A: Allocator>(
    tokenizer: &mut Tokenizer<'_, M, T, A>,
    options: Options,
) -> Name
    ensures state { result ≡ state_names.Inline inline.SpaceOrTabEolStart }
    ensures became { config tokenizer.new ≡ connected options.connect (config tokenizer.old) }
    ensures parse_state { KeepsParseState tokenizer.old tokenizer.new }
{
    tokenizer.tokenize_state.connect = options.connect;
    Name::Inline(Inline::SpaceOrTabEolStart)
}

/// Returns the state that reads spaces and tabs with at most one line ending among them.
pub fn space_or_tab_eol<M, T, A: Allocator>(tokenizer: &mut Tokenizer<'_, M, T, A>) -> Name
    ensures state { result ≡ state_names.Inline inline.SpaceOrTabEolStart }
    ensures became { config tokenizer.new ≡ unconnected (config tokenizer.old) }
    ensures parse_state { KeepsParseState tokenizer.old tokenizer.new }
{
    space_or_tab_eol_with_options(tokenizer, Options { connect: false })
}
