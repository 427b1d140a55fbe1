//! The machine of texts and strings.
ghost use Rattle.std.specs.Prelude.{◌≡◌, false, length, slice_get, unwrap_or};
ghost use Rattle.markdown_engine.specs.Resolving.{settles_whole};
ghost use Rattle.state_resolvers.specs.Resolving.{inline_resolved};
ghost use Rattle.engine_programs.specs.Bodies.{step_by};
ghost use Rattle.engine_programs.specs.Stacks.{Does, program_rank, program_valid};
ghost use Rattle.state_table.specs.Table.{sorts};
ghost use Rattle.state_inline.specs.Inlines.{bodies, text_start, whole_body};
ghost use Rattle.state_inline.specs.declared.inlines.Inlines.{Inlines};
ghost use Rattle.state_inline.specs.InlineLaws.{inline_lawful, inline_resolves};

use crate::{string, text};
use engine_programs::steps::attempt_to;
use markdown_engine::state::{Inline, Name, State};
use markdown_engine::subresult::Subresult;
use markdown_engine::tokenizer::{Machine, Tokenizer};
use markdown_engine::{Message, resolve};
use markdown_options::Tables;
use state_resolvers::resolving;
use state_table::{Group, group_of, next, retry};
use std::alloc::Allocator;

/// The machine of texts and strings.
#[derive(Clone, Copy, Debug, PartialEq, Eq)]
pub struct Inlines<'s> {
    /// Whether a content that may begin with a check of a task list item begins at an index of the
    /// text (GFM 5.3); not, at those after the last.
    pub starts: &'s [bool],
}

/// Whether a content that may begin with a check begins at an index.
fn is_start(starts: &[bool], index: usize) -> bool
    ensures { result ≡ unwrap_or (slice_get starts.now index) false }
{
    starts.get(index).copied().unwrap_or(false)
}

/// At the start of a text.
pub fn start_text<'s, T, A: Allocator>(tokenizer: &mut Tokenizer<'_, Inlines<'s>, T, A>) -> State
    ensures { Does text_start tokenizer.old tokenizer.new result }
{
    if !is_start(tokenizer.machine.starts, tokenizer.point.index) {
        return retry(Inline::TextBefore);
    }
    attempt_to(
        tokenizer,
        next(Inline::TextBefore),
        next(Inline::TextBefore),
        retry(Inline::GfmTaskListItemCheckStart),
    )
}

/// Calls a state of texts or strings.
fn call_whole<'s, T, A: Allocator>(
    tokenizer: &mut Tokenizer<'_, Inlines<'s>, T, A>,
    state: Inline,
) -> State
    ensures { Does (whole_body state) tokenizer.old tokenizer.new result }
{
    match state {
        Inline::StringStart => string::start(tokenizer),
        Inline::StringBefore => string::before(tokenizer),
        Inline::StringBeforeData => string::before_data(tokenizer),
        Inline::TextStart => start_text(tokenizer),
        Inline::TextBefore => text::before(tokenizer),
        Inline::TextBeforeHtml => text::before_html(tokenizer),
        Inline::TextBeforeHardBreakEscape => text::before_hard_break_escape(tokenizer),
        Inline::TextBeforeLabelStartLink => text::before_label_start_link(tokenizer),
        Inline::TextBeforeData => text::before_data(tokenizer),
        _ => State::Nok,
    }
}

impl<'s, T: Tables> Machine<T> for Inlines<'s> {
    ghost Seen = { Inlines };

    ghost seen = { λ machine. machine };

    ghost step = { λ x. step_by (bodies (T.reference_of x.tables) (T.punctuation_of x.tables) x) };

    ghost valid = { λ x. program_valid sorts 64 (length x.bytes) };

    ghost rank = { λ x. program_rank sorts 64 (length x.bytes) };

    ghost resolved = { λ x. inline_resolved (T.punctuation_of x.tables) x };

    ghost settled = { λ x. settles_whole };

    #[tactic(auto, using(crate::specs::InlineLaws::inline_open), unfolding(crate::specs::Inlines::bodies))]
    fn call<'a, A: Allocator>(tokenizer: &mut Tokenizer<'a, Self, T, A>, name: Name) -> State {
        let Name::Inline(state) = name else {
            return State::Nok;
        };
        match group_of(state) {
            Group::Leaves => state_leaves::call(tokenizer, state),
            Group::Html => state_html::call(tokenizer, state),
            Group::Labels => state_labels::call(tokenizer, state),
            Group::Ends => state_label_ends::call(tokenizer, state),
            Group::Gfm => state_gfm::call(tokenizer, state),
            Group::Whole => call_whole(tokenizer, state),
        }
    }

    #[tactic(auto, unfolding(state_resolvers::specs::Resolving::inline_resolved))]
    fn resolve<'a, A: Allocator + Clone>(
        tokenizer: &mut Tokenizer<'a, Self, T, A>,
        name: resolve::Name,
    ) -> Result<Option<Subresult<A>>, Message> {
        resolving::resolve(tokenizer, name)?;
        Ok(None)
    }

    ghost lawful = { λ x. inline_lawful (T.reference_of x.tables) (T.punctuation_of x.tables) x };

    ghost resolving = { λ x. inline_resolves (T.reference_of x.tables) (T.punctuation_of x.tables) x };
}
