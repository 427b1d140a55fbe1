//! What reads the lines of a text.
ghost use Rattle.std.specs.Prelude.{◌≡◌, IfErr, OnOk};
ghost use Rattle.markdown_options.specs.Messages.{IsOutOfMemory};
ghost use Rattle.markdown_engine.specs.Context.{Context, context};
ghost use Rattle.markdown_engine.specs.KeptState.{kept_state};
ghost use Rattle.state_document.specs.Readers.{AreKept, Calls};

use markdown_engine::place::Point;
use markdown_engine::tokenize_state::TokenizeState;
use markdown_engine::{Message, ParseState};
use markdown_options::Tables;
use std::alloc::Allocator;

/// Reads the lines of a text after their containers, and keeps where containers begin and end.
pub trait LineReader<T: Tables> {
    // What is seen of it.
    ghost Seen: { Type 0 };

    ghost seen: { Self → Seen };

    // What its calls do.
    ghost calls: { Calls T Seen };

    // What holds of it whenever it reads a text.
    ghost holds: { Context T → Seen → Type 0 };

    /// The next container that is open goes on.
    fn go_on<A: Allocator>(&mut self, kept: &TokenizeState<A>, point: Point)
        ensures { seen self.new ≡ calls.went_on (seen self.old) (kept_state kept.now) point };

    /// A container may begin after so many events.
    fn mark(&mut self, events: usize)
        ensures { seen self.new ≡ calls.marked (seen self.old) events };

    /// A container begins: those that don't go on end.
    fn begin<A: Allocator>(
        &mut self,
        parse_state: &ParseState<'_, T, A>,
        kept: &TokenizeState<A>,
        point: Point,
    ) -> Result<(), Message>
        requires { holds (context parse_state.now) (seen self.old) }
        ensures begun { OnOk result (seen self.new ≡ calls.begun (context parse_state.now) (seen self.old) (kept_state kept.now) point) }
        ensures memory { IfErr result IsOutOfMemory };

    /// The flow of a line begins here.
    fn begin_flow<A: Allocator>(
        &mut self,
        parse_state: &ParseState<'_, T, A>,
        kept: &TokenizeState<A>,
        point: Point,
    ) -> Result<(), Message>
        requires { holds (context parse_state.now) (seen self.old) }
        ensures begun { OnOk result (seen self.new ≡ calls.flow_begun (context parse_state.now) (seen self.old) (kept_state kept.now) point) }
        ensures memory { IfErr result IsOutOfMemory };

    /// Reads the flow of a line, which ends here.
    fn read_flow<A: Allocator>(
        &mut self,
        parse_state: &ParseState<'_, T, A>,
        kept: &TokenizeState<A>,
        point: Point,
    ) -> Result<(), Message>
        requires { holds (context parse_state.now) (seen self.old) }
        ensures read { OnOk result (seen self.new ≡ calls.flow_read (context parse_state.now) (seen self.old) (kept_state kept.now) point) }
        ensures memory { IfErr result IsOutOfMemory };

    /// Reads the flow of the last line, and closes all containers.
    fn end<A: Allocator>(
        &mut self,
        parse_state: &ParseState<'_, T, A>,
        kept: &TokenizeState<A>,
        point: Point,
    ) -> Result<(), Message>
        requires { holds (context parse_state.now) (seen self.old) }
        ensures ended { OnOk result (seen self.new ≡ calls.ended (context parse_state.now) (seen self.old) (kept_state kept.now) point) }
        ensures memory { IfErr result IsOutOfMemory };

    /// Whether a container that begins here interrupts a paragraph (CommonMark 5.2).
    fn is_interrupting<A: Allocator>(&self, kept: &TokenizeState<A>) -> bool
        ensures { result ≡ calls.interrupts (seen self.now) (kept_state kept.now) };

    /// Whether no container may begin here, as in fenced code and HTML.
    fn is_concrete<A: Allocator>(&self, kept: &TokenizeState<A>) -> bool
        ensures { result ≡ calls.is_concrete (seen self.now) (kept_state kept.now) };

    /// Whether the line that was read last goes on a paragraph, so that all containers around it
    /// stay open (CommonMark 5.1).
    fn stays_open(&self) -> bool
        ensures { result ≡ calls.stays_open (seen self.now) };

    // Each call keeps what holds.
    ghost lawful: { AreKept calls holds };
}
