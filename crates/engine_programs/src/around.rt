//! An event round the byte at hand.
ghost use Rattle.std.specs.Prelude.{◌≡◌, [], ◌∷◌, OnOk, IfErr, None};
ghost use Rattle.markdown_options.specs.Messages.{IsOutOfMemory};
ghost use Rattle.markdown_engine.specs.KeptState.{kept_state};
ghost use Rattle.markdown_engine.specs.Machine.{Became, config, past_byte, with_enter, with_exit, KeepsParseState};
ghost use Rattle.markdown_engine.specs.Order.{IsInnermost, open_after, outer};

use markdown_engine::Message;
use markdown_engine::event::Name;
use markdown_engine::tokenizer::Tokenizer;
use std::alloc::Allocator;

/// Adds an event that begins here and ends after the byte, and moves over it.
pub fn around<M, T, A: Allocator>(
    tokenizer: &mut Tokenizer<'_, M, T, A>,
    name: Name,
) -> Result<(), Message>
    ensures became { OnOk result (Became (with_exit name (past_byte (with_enter name None (config tokenizer.old)))) tokenizer.old tokenizer.new) }
    ensures open_events { OnOk result (open_after [] tokenizer.new.events.items ≡ open_after [] tokenizer.old.events.items) }
    ensures parse_state { KeepsParseState tokenizer.old tokenizer.new }
    ensures skips { tokenizer.new.skips ≡ tokenizer.old.skips }
    ensures memory { IfErr result IsOutOfMemory }
{
    tokenizer.enter(name)?;
    tokenizer.consume();
    tokenizer.exit(name)
}

/// Adds that something begins here, to be ended by the same state.
pub fn begin<M, T, A: Allocator>(
    tokenizer: &mut Tokenizer<'_, M, T, A>,
    name: Name,
) -> Result<(), Message>
    ensures became { OnOk result (Became (with_enter name None (config tokenizer.old)) tokenizer.old tokenizer.new) }
    ensures open_events { OnOk result (open_after [] tokenizer.new.events.items ≡ name ∷ open_after [] tokenizer.old.events.items) }
    ensures parse_state { KeepsParseState tokenizer.old tokenizer.new }
    ensures skips { tokenizer.new.skips ≡ tokenizer.old.skips }
    ensures memory { IfErr result IsOutOfMemory }
{
    tokenizer.enter(name)
}

/// Ends the innermost event, round which others are open.
pub fn leave<M, T, A: Allocator>(
    tokenizer: &mut Tokenizer<'_, M, T, A>,
    name: Name,
) -> Result<(), Message>
    requires { IsInnermost name tokenizer.old.events.items }
    ensures became { OnOk result (Became (with_exit name (config tokenizer.old)) tokenizer.old tokenizer.new) }
    ensures open_events { OnOk result (open_after [] tokenizer.new.events.items ≡ outer (open_after [] tokenizer.old.events.items)) }
    ensures kept { OnOk result (kept_state tokenizer.new.tokenize_state ≡ kept_state tokenizer.old.tokenize_state) }
    ensures parse_state { KeepsParseState tokenizer.old tokenizer.new }
    ensures skips { tokenizer.new.skips ≡ tokenizer.old.skips }
    ensures memory { IfErr result IsOutOfMemory }
{
    tokenizer.exit(name)
}
