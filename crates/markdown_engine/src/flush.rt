//! The end of a text: it is passed to the states, and resolvers run.
ghost use Rattle.std.specs.Prelude.{◌≡◌, OnOk, IfOk};
ghost use Rattle.markdown_engine.specs.Resolving.{IsNotDone, KeepsDone, found_in, found_of, found_both, nothing_found};

use crate::tokenizer::{Machine, Tokenizer};
use engine_states::{State, Subresult, resolve};
use markdown_options::{Message, Tables};
use std::alloc::{AllocError, Allocator};
use std::mem;

/// Nothing was found.
pub(crate) fn nothing_found<A: Allocator + Clone>(alloc: A) -> Result<Subresult<A>, AllocError>
    ensures found { IfOk result (λ found. found_in found ≡ nothing_found) }
    ensures done { IfOk result IsNotDone }
{
    Ok(Subresult {
        done: false,
        gfm_footnote_definitions: Vec::new(alloc.clone()?),
        definitions: Vec::new(alloc),
    })
}

/// Adds what else was found.
pub(crate) fn add_found<A: Allocator>(
    found: &mut Subresult<A>,
    more: Option<Subresult<A>>,
) -> Result<(), AllocError>
    ensures found { OnOk result (found_in found.new ≡ found_both (found_in found.old) (found_of more)) }
    ensures done { KeepsDone found.old found.new }
{
    if let Some(mut more) = more {
        found.definitions.append(&mut more.definitions)?;
        found
            .gfm_footnote_definitions
            .append(&mut more.gfm_footnote_definitions)?;
    }
    Ok(())
}

impl<'a, M: Machine<T>, T: Tables, A: Allocator + Clone> Tokenizer<'a, M, T, A> {
    ghost use Rattle.std.specs.Prelude.{◌≡◌, IfErr, IfOk, IsErr, OnErr, OnOk, [], false, length, true};
    ghost use Rattle.markdown_options.specs.Messages.{IsOutOfMemory};
    ghost use Rattle.engine_states.specs.declared.state.State.TheVariants as states;
    ghost use Rattle.markdown_engine.specs.Machine.{Completes, HaltsWell, HasFailed, IsResolved, IsValid, IsValidUnlessFailed, IsWhole};
    ghost use Rattle.markdown_engine.specs.Machine.{bytes_of, read_with, view_config};
    ghost use Rattle.markdown_engine.specs.Evaluation.{IsReadingOf};
    ghost use Rattle.markdown_engine.specs.Resolving.{IsNotDone, KeepsDone, found_in, nothing_found, resolve_all, resolve_each};
    ghost use Rattle.markdown_engine.specs.VirtualText.{IsCut};

    /// Passes the end of the text to the states, at the end of the last range. If requested, runs
    /// the resolvers in order and makes their edits. Returns what they found.
    ///
    /// After out of memory every call returns an error.
    pub fn flush(&mut self, state: State, resolve: bool) -> Result<Subresult<A>, Message>
        requires end { IsCut (bytes_of self.old) self.old.end }
        requires valid { IsValidUnlessFailed M.seen (M.valid (read_with self.old)) self.old state }
        ensures completed { IfOk result (λ found. Completes M.seen M.step M.resolved self.old.end resolve state self.old self.new (found_in found)) }
        ensures evaluated { IfOk result (λ found. IsReadingOf M.seen M.step M.rank M.resolved self.old.end resolve state self.old self.new (found_in found)) }
        ensures halts { resolve ≡ false → OnOk result (HaltsWell M.seen M.step M.rank self.old.end state self.old self.new) }
        ensures done { IfOk result IsNotDone }
        ensures whole { OnOk result (IsWhole self.new) }
        ensures err { OnErr result (HasFailed self.new) }
        ensures failed { HasFailed self.old → IsErr result }
        ensures memory { IfErr result IsOutOfMemory }
    {
        self.flush_to(self.end, state, resolve)
    }

    /// Reads a text at once, runs the resolvers in order, and makes their edits. Returns what they
    /// found.
    ///
    /// After out of memory every call returns an error.
    pub fn read_and_resolve(&mut self, state: State) -> Result<Subresult<A>, Message>
        requires valid { IsValidUnlessFailed M.seen (M.valid (read_with self.old)) self.old state }
        ensures completed { IfOk result (λ found. Completes M.seen M.step M.resolved
            (length (bytes_of self.old), 0) true state self.old self.new (found_in found)) }
        ensures done { IfOk result IsNotDone }
        ensures whole { OnOk result (IsWhole self.new) }
        ensures err { OnErr result (HasFailed self.new) }
        ensures failed { HasFailed self.old → IsErr result }
        ensures memory { IfErr result IsOutOfMemory }
    {
        let to = (self.parse_state.bytes.len(), 0);
        self.flush_to(to, state, true)
    }

    /// Reads on, up to an index and a column of a tab there, where the text ends; then as [`flush`].
    pub(crate) fn flush_to(
        &mut self,
        to: (usize, usize),
        state: State,
        resolve: bool,
    ) -> Result<Subresult<A>, Message>
        requires to { IsCut (bytes_of self.old) to }
        requires valid { IsValidUnlessFailed M.seen (M.valid (read_with self.old)) self.old state }
        ensures completed { IfOk result (λ found. Completes M.seen M.step M.resolved to resolve state self.old self.new (found_in found)) }
        ensures halts { resolve ≡ false → OnOk result (HaltsWell M.seen M.step M.rank to state self.old self.new) }
        ensures done { IfOk result IsNotDone }
        ensures whole { OnOk result (IsWhole self.new) }
        ensures err { OnErr result (HasFailed self.new) }
        ensures failed { HasFailed self.old → IsErr result }
        ensures memory { IfErr result IsOutOfMemory }
    {
        if self.failed {
            return Err(Message::out_of_memory());
        }
        let result = self.complete(to, state, resolve);
        self.failed = result.is_err();
        result
    }

    /// Reads to the end, and runs the resolvers if that is asked for.
    fn complete(
        &mut self,
        to: (usize, usize),
        state: State,
        resolve: bool,
    ) -> Result<Subresult<A>, Message>
        requires to { IsCut (bytes_of self.old) to }
        requires valid { IsValid M.seen (M.valid (read_with self.old)) self.old state }
        ensures completed { IfOk result (λ found. Completes M.seen M.step M.resolved to resolve state self.old self.new (found_in found)) }
        ensures halts { resolve ≡ false → OnOk result (HaltsWell M.seen M.step M.rank to state self.old self.new) }
        ensures done { IfOk result IsNotDone }
        ensures whole { OnOk result (IsWhole self.new) }
        ensures memory { IfErr result IsOutOfMemory }
    {
        if let State::Error(message) = self.finish(to, state) {
            return Err(*message);
        }
        let mut found = nothing_found(self.events.allocator().clone()?)?;
        if resolve {
            self.resolve_all(&mut found)?;
        }
        Ok(found)
    }

    /// Runs the resolvers that are registered, and makes the edits.
    fn resolve_all(&mut self, found: &mut Subresult<A>) -> Result<(), Message>
        requires settled { M.settled (read_with self.old) (record (view_config M.seen self.old) { resolvers = [] }) self.old.resolvers.items }
        requires nothing { found_in found.old ≡ nothing_found }
        ensures resolved { OnOk result (IsResolved M.seen (resolve_all (M.resolved (read_with self.old)) (view_config M.seen self.old)) self.new found.new) }
        ensures done { KeepsDone found.old found.new }
        ensures whole { OnOk result (IsWhole self.new) }
        ensures memory { IfErr result IsOutOfMemory }
    {
        let none = Vec::new(self.events.allocator().clone()?);
        let names = mem::replace(&mut self.resolvers, none);
        self.resolve_each(&names, found)?;
        self.map.consume(&mut self.events)
    }

    /// Runs resolvers, and adds what they find.
    fn resolve_each(
        &mut self,
        names: &[resolve::Name],
        found: &mut Subresult<A>,
    ) -> Result<(), Message>
        requires settled { M.settled (read_with self.old) (view_config M.seen self.old) names.now }
        ensures resolved { OnOk result (IsResolved M.seen (resolve_each
            (M.resolved (read_with self.old)) names.now (view_config M.seen self.old) (found_in found.old)) self.new found.new) }
        ensures settled { OnOk result (M.settled (read_with self.old) (view_config M.seen self.new) []) }
        ensures done { KeepsDone found.old found.new }
        ensures memory { IfErr result IsOutOfMemory }
    {
        for name in names {
            let more = M::resolve(self, *name)?;
            add_found(found, more)?;
        }
        Ok(())
    }
}
