//! Literals, starts of footnote calls, and checks of task list items.
#![tactic(auto)]

ghost use Rattle.markdown_engine.specs.Machine.{read_with, tables_of};
ghost use Rattle.engine_states.specs.declared.state.Name.TheVariants as any_states;
ghost use Rattle.engine_programs.specs.Stacks.{Does, IsOpen};
ghost use Rattle.state_table.specs.Table.{sorts};
ghost use Rattle.state_gfm.specs.GfmStates.{gfm_body};

pub mod gfm_autolink_literal;
pub mod gfm_label_start_footnote;
pub mod gfm_task_list_item_check;

use markdown_engine::state::{Inline, State};
use markdown_engine::tokenizer::Tokenizer;
use markdown_options::Tables;
use std::alloc::Allocator;

/// Calls a state of this crate. Any other state fails (`Nok`).
pub fn call<M, T: Tables, A: Allocator>(
    tokenizer: &mut Tokenizer<'_, M, T, A>,
    state: Inline,
) -> State
    requires { IsOpen (sorts (any_states.Inline state)).open_tokens tokenizer.old }
    ensures { Does (gfm_body (T.punctuation_of (tables_of tokenizer.old)) (read_with tokenizer.old) state) tokenizer.old tokenizer.new result }
{
    match state {
        Inline::GfmAutolinkLiteralProtocolStart => gfm_autolink_literal::protocol_start(tokenizer),
        Inline::GfmAutolinkLiteralProtocolAfter => gfm_autolink_literal::protocol_after(tokenizer),
        Inline::GfmAutolinkLiteralProtocolPrefixInside =>
            gfm_autolink_literal::protocol_prefix_inside(tokenizer),
        Inline::GfmAutolinkLiteralProtocolSlashesInside =>
            gfm_autolink_literal::protocol_slashes_inside(tokenizer),
        Inline::GfmAutolinkLiteralWwwStart => gfm_autolink_literal::www_start(tokenizer),
        Inline::GfmAutolinkLiteralWwwAfter => gfm_autolink_literal::www_after(tokenizer),
        Inline::GfmAutolinkLiteralWwwPrefixInside => gfm_autolink_literal::www_prefix_inside(
            tokenizer,
        ),
        Inline::GfmAutolinkLiteralWwwPrefixAfter => gfm_autolink_literal::www_prefix_after(
            tokenizer,
        ),
        Inline::GfmAutolinkLiteralDomainInside => gfm_autolink_literal::domain_inside(tokenizer),
        Inline::GfmAutolinkLiteralDomainAtPunctuation =>
            gfm_autolink_literal::domain_at_punctuation(tokenizer),
        Inline::GfmAutolinkLiteralDomainAfter => gfm_autolink_literal::domain_after(tokenizer),
        Inline::GfmAutolinkLiteralPathInside => gfm_autolink_literal::path_inside(tokenizer),
        Inline::GfmAutolinkLiteralPathAtPunctuation => gfm_autolink_literal::path_at_punctuation(
            tokenizer,
        ),
        Inline::GfmAutolinkLiteralPathAfter => gfm_autolink_literal::path_after(tokenizer),
        Inline::GfmAutolinkLiteralTrail => gfm_autolink_literal::trail(tokenizer),
        Inline::GfmAutolinkLiteralTrailBracketAfter => gfm_autolink_literal::trail_bracket_after(
            tokenizer,
        ),
        Inline::GfmAutolinkLiteralTrailCharRefStart => gfm_autolink_literal::trail_char_ref_start(
            tokenizer,
        ),
        Inline::GfmAutolinkLiteralTrailCharRefInside => gfm_autolink_literal::trail_char_ref_inside(
            tokenizer,
        ),
        Inline::GfmLabelStartFootnoteStart => gfm_label_start_footnote::start(tokenizer),
        Inline::GfmLabelStartFootnoteOpen => gfm_label_start_footnote::open(tokenizer),
        Inline::GfmTaskListItemCheckStart => gfm_task_list_item_check::start(tokenizer),
        Inline::GfmTaskListItemCheckInside => gfm_task_list_item_check::inside(tokenizer),
        Inline::GfmTaskListItemCheckClose => gfm_task_list_item_check::close(tokenizer),
        Inline::GfmTaskListItemCheckAfter => gfm_task_list_item_check::after(tokenizer),
        Inline::GfmTaskListItemCheckAfterSpaceOrTab => gfm_task_list_item_check::after_space_or_tab(
            tokenizer,
        ),
        _ => State::Nok,
    }
}
