//! The names of fenced code or math (CommonMark 4.5).
ghost use Rattle.std.specs.Prelude.{◌≡◌, true};
ghost use Rattle.engine_events.specs.declared.event.Name.TheVariants.{SpaceOrTab};
ghost use Rattle.engine_events.specs.Names.{is_listed};
ghost use Rattle.event_grammar.specs.Grammar.{block_names};
ghost use Rattle.parse_output.specs.Children.{has_lines, has_string, may_hold};
ghost use Rattle.parse_raw.specs.Fences.{has_strings, may_hold_any};

use engine_events::event::Name;

/// The names of fenced code or math, and of its parts, which it may hold.
#[derive(Clone, Copy)]
pub struct FenceNames {
    pub block: Name,
    pub fence: Name,
    pub sequence: Name,
    /// The name of the info; math has none.
    pub info: Option<Name>,
    pub meta: Name,
    pub chunk: Name,
    ghost is_block: { is_listed block_names block ≡ true },
    ghost may_go_on: { has_lines block ≡ true },
    ghost holds_fence: { may_hold block fence ≡ true },
    ghost holds_chunk: { may_hold block chunk ≡ true },
    ghost fence_holds_sequence: { may_hold fence sequence ≡ true },
    ghost fence_holds_space: { may_hold fence SpaceOrTab ≡ true },
    ghost fence_holds_info: { may_hold_any fence info ≡ true },
    ghost info_holds_parts: { has_strings info ≡ true },
    ghost fence_holds_meta: { may_hold fence meta ≡ true },
    ghost meta_holds_parts: { has_string meta ≡ true },
}
