//! The lines of a text (CommonMark 2.1), one after another, each after the prefixes of its containers.
ghost use Rattle.std.specs.Prelude.{◌≡◌, ◌∷◌, [], ◌+◌, ◌-◌, ◌<◌, ◌^◌, IfOk, List, OnOk, false, length, true, ℕ};
ghost use Rattle.std.specs.Str.{is_utf8};
ghost use Rattle.definition_text.specs.Columns.{bare, bytes_of};
ghost use Rattle.definition_text.specs.Lines.{ending_text};
ghost use Rattle.block_starts.specs.View.{rest_of};
ghost use Rattle.engine_events.specs.declared.event.Name.TheVariants.{SpaceOrTab};
ghost use Rattle.parse_output.specs.Open.{Entered, closed};
ghost use Rattle.parse_output.specs.Ends.{end_at, first_end};
ghost use Rattle.event_grammar.specs.Trees.{Nil, growth};
ghost use Rattle.event_grammar.specs.Void.{is_void};
ghost use Rattle.parse_output.specs.Written.{Enters, Exits, IsInOrder, forest_in};
ghost use Rattle.parse_output.specs.Children.{holds_lines, may_enter};
ghost use Rattle.parse_lines.specs.Ends.{EndsInLine, WritesEnding, WritesLine, WritesNextLine, WritesUpTo, line_after, rest_start, written_to};
ghost use Rattle.parse_lines.specs.Content.{EntersInLine, ExitsInLine, StandsInLine};
ghost use Rattle.parse_lines.specs.Open.{still_open};
ghost use Rattle.parse_lines.specs.Pieces.{WritesBegun, WritesNextBegun};
ghost use Rattle.parse_lines.specs.Standing.{standing};
ghost use Rattle.parse_lines.specs.Steps.{BeginsAt, BeginsLine, EndsLine, HasSameOpen, IsBegun, PassesLine};

use crate::prefix::line_rest;
use block_starts::Cursor;
use engine_events::event::Name;
use markdown_options::{Constructs, Container, LineEnding};
use parse_output::{End, Output, at};
use std::alloc::{AllocError, Allocator};
use text_lines::next_line;

/// A walk over the lines of a text.
#[derive(Drop)]
pub struct Walk<'a, A: Allocator> {
    pub on: &'a Constructs,
    /// How many bytes the text has.
    pub(crate) size: usize,
    /// What follows the line.
    pub(crate) left: &'a str,
    /// Whether a line is begun.
    pub(crate) is_in_line: bool,
    /// What is left of it.
    pub rest: Cursor<'a>,
    /// Where its ending is.
    pub(crate) line_end: usize,
    pub(crate) ending: Option<LineEnding>,
    /// The containers that are open, the outermost first.
    pub(crate) open: Vec<Container<'a>, A>,
    /// From this depth on no container is a quote.
    pub(crate) quotes_end: usize,
    pub(crate) out: Output<A>,
    /// How far a content is written.
    pub(crate) place: usize,
    /// Where the line starts in that content.
    pub(crate) line_place: usize,
    /// Where it starts in the text.
    pub(crate) line_start: End,
}

impl<'a, A: Allocator + Clone> Walk<'a, A> {
    /// A walk over the lines at the end of a text of a size, which begin with `lines`.
    pub fn new(
        alloc: A,
        on: &'a Constructs,
        size: usize,
        lines: &'a str,
    ) -> Result<Walk<'a, A>, AllocError>
        ensures constructs { IfOk result (λ walk. walk.on.now ≡ on.now) }
        ensures size { IfOk result (λ walk. walk.size ≡ size) }
        ensures left { IfOk result (λ walk. walk.left.now ≡ lines.now) }
        ensures open { IfOk result (λ walk. still_open walk ≡ []) }
        ensures begins { IfOk result (λ walk. BeginsAt size lines.now (standing walk)) }
        ensures written { IfOk result (λ walk. written_to walk ≡ first_end) }
        ensures order { IfOk result (λ walk. (text : List ℕ) → is_utf8 text ≡ true → IsInOrder text walk.out) }
        ensures forest { IfOk result (λ walk. (text : List ℕ) → forest_in text walk.out ≡ growth Nil []) }
        ensures outside { IfOk result (λ walk. (standing walk).outermost ≡ []) }
    {
        Ok(Walk {
            on,
            size,
            left: lines,
            is_in_line: false,
            rest: line_rest(""),
            line_end: 0,
            ending: None,
            open: Vec::new(alloc.clone()?),
            quotes_end: 0,
            out: Output::new(alloc, size)?,
            place: 0,
            line_place: 0,
            line_start: at(0),
        })
    }
}

impl<'a, A: Allocator> Walk<'a, A> {
    /// What is written.
    pub fn into_output(self) -> Output<A>
        ensures { result ≡ self.entry.out }
    {
        let Walk { out, .. } = self;
        out
    }

    /// Whether a line is begun.
    pub fn is_in_line(&self) -> bool
        ensures { result ≡ self.now.is_in_line }
    {
        self.is_in_line
    }

    /// Whether no container is open.
    pub fn is_outside(&self) -> bool
        ensures outside { result ≡ true → (standing self.now).outermost ≡ [] }
        ensures inside { result ≡ false → 0 < length (standing self.now).outermost }
    {
        self.open.is_empty()
    }

    /// Begins a line, unless one is begun.
    pub fn in_line(&mut self) -> Result<(), AllocError>
        requires lines { holds_lines (still_open self.old) ≡ true }
        ensures open { OnOk result (still_open self.new ≡ still_open self.old) }
        ensures begun { OnOk result (IsBegun (standing self.old) (standing self.new)) }
        ensures written { OnOk result (WritesLine self.old self.new) }
        ensures exact { OnOk result (WritesBegun self.old self.new) }
        ensures line { OnOk result (EndsInLine self.old self.new) }
        ensures around { OnOk result (HasSameOpen (standing self.old) (standing self.new)) }
        ensures stays { self.old.is_in_line ≡ true → OnOk result (self.new ≡ self.old) }
    {
        if self.is_in_line {
            Ok(())
        } else {
            self.begin_line()
        }
    }

    /// Begins a line: the containers that go on have their prefixes on it.
    pub fn begin_line(&mut self) -> Result<(), AllocError>
        requires lines { holds_lines (still_open self.old) ≡ true }
        ensures open { OnOk result (still_open self.new ≡ still_open self.old) }
        ensures begins { OnOk result (BeginsLine (standing self.old) (standing self.new)) }
        ensures written { OnOk result (WritesLine self.old self.new) }
        ensures exact { OnOk result (WritesBegun self.old self.new) }
        ensures line { OnOk result (EndsInLine self.old self.new) }
        ensures around { OnOk result (HasSameOpen (standing self.old) (standing self.new)) }
    {
        let (content, ending, after) = next_line(self.left);
        self.line_end = self
            .size
            .saturating_sub(after.len())
            .saturating_sub(ending_size(ending));
        self.ending = ending;
        self.left = after;
        self.is_in_line = true;
        self.rest = line_rest(content);
        self.prefixes()
    }

    /// The ending of the line, and the start of the next.
    #[tactic(auto, using(parse_output::proofs::Classes::lines_may))]
    pub fn next_line(&mut self) -> Result<(), AllocError>
        requires lines { holds_lines (still_open self.old) ≡ true }
        ensures open { OnOk result (still_open self.new ≡ still_open self.old) }
        ensures passes { OnOk result (PassesLine (standing self.old) (standing self.new)) }
        ensures written { OnOk result (WritesNextLine self.old self.new) }
        ensures exact { OnOk result (WritesNextBegun self.old self.new) }
        ensures around { OnOk result (HasSameOpen (standing self.old) (standing self.new)) }
    {
        self.ending(Name::LineEnding)?;
        self.begin_line()
    }

    /// The line's ending, if it has one, by this name.
    pub fn ending(&mut self, name: Name) -> Result<(), AllocError>
        requires child { may_enter (still_open self.old) name ≡ true }
        ensures open { OnOk result (still_open self.new ≡ still_open self.old) }
        ensures ends { OnOk result (EndsLine (standing self.old) (standing self.new)) }
        ensures written { OnOk result (WritesEnding name self.old self.new) }
        ensures line { OnOk result (line_after self.new ≡ line_after self.old) }
        ensures around { OnOk result (HasSameOpen (standing self.old) (standing self.new)) }
    {
        self.is_in_line = false;
        let end = at(self.line_end).after(ending_size(self.ending));
        self.out.token(name, end)
    }

    /// Something begins here that may hold others.
    pub fn enter(&mut self, name: Name) -> Result<(), AllocError>
        requires child { may_enter (still_open self.old) name ≡ true }
        requires row { is_void name ≡ false }
        ensures open { OnOk result (still_open self.new ≡ Entered name ∷ still_open self.old) }
        ensures written { OnOk result ((text line : List ℕ) → StandsInLine text line self.old → EntersInLine text name line self.old self.new) }
        ensures stays { OnOk result (standing self.new ≡ standing self.old) }
        ensures end { OnOk result (written_to self.new ≡ written_to self.old) }
        ensures enters { OnOk result ((text : List ℕ) → IsInOrder text self.old.out → Enters text name self.old.out self.new.out) }
    {
        self.out.enter(name)
    }

    /// Something ends here.
    pub fn exit(&mut self, name: Name) -> Result<(), AllocError>
        ensures open { OnOk result (still_open self.new ≡ closed name (still_open self.old)) }
        ensures written { OnOk result ((text line : List ℕ) → StandsInLine text line self.old → ExitsInLine text name line self.old self.new) }
        ensures stays { OnOk result (standing self.new ≡ standing self.old) }
        ensures end { OnOk result (written_to self.new ≡ written_to self.old) }
        ensures exits { OnOk result ((text : List ℕ) → IsInOrder text self.old.out → Exits text name self.old.out self.new.out) }
    {
        self.out.exit(name)
    }

    /// The next bytes, so many, by a name.
    pub fn token(&mut self, name: Name, size: usize) -> Result<(), AllocError>
        requires child { may_enter (still_open self.old) name ≡ true }
        ensures open { OnOk result (still_open self.new ≡ still_open self.old) }
        ensures stays { OnOk result (standing self.new ≡ standing self.old) }
        ensures end { OnOk result ((written_to self.old).index + size < 2 ^ 64
            → written_to self.new ≡ end_at ((written_to self.old).index + size) 0) }
        ensures written { OnOk result ((written_to self.old).index + size < 2 ^ 64
            → WritesUpTo name (end_at ((written_to self.old).index + size) 0) self.old self.new) }
    {
        let end = self.out.end().after(size);
        self.out.token(name, end)
    }

    /// What is before an index, by a name.
    pub fn to(&mut self, name: Name, index: usize) -> Result<(), AllocError>
        requires child { may_enter (still_open self.old) name ≡ true }
        ensures open { OnOk result (still_open self.new ≡ still_open self.old) }
        ensures stays { OnOk result (standing self.new ≡ standing self.old) }
        ensures end { OnOk result (written_to self.new ≡ end_at index 0) }
        ensures written { OnOk result (WritesUpTo name (end_at index 0) self.old self.new) }
    {
        self.out.token(name, at(index))
    }

    /// The columns and bytes of the line before a rest of it.
    pub fn space_to(&mut self, rest: &Cursor<'a>) -> Result<(), AllocError>
        requires space { may_enter (still_open self.old) SpaceOrTab ≡ true }
        ensures open { OnOk result (still_open self.new ≡ still_open self.old) }
        ensures stays { OnOk result (standing self.new ≡ standing self.old) }
        ensures end { OnOk result (written_to self.new ≡ rest_start self.old.line_end (rest_of rest.now)) }
        ensures written { OnOk result (WritesUpTo SpaceOrTab (rest_start self.old.line_end (rest_of rest.now)) self.old self.new) }
    {
        let end = self.start_of(rest);
        self.out.token(Name::SpaceOrTab, end)
    }

    /// The spaces and tabs ahead. Answers what follows them.
    pub fn white(&mut self) -> Result<&'a str, AllocError>
        requires space { may_enter (still_open self.old) SpaceOrTab ≡ true }
        ensures open { OnOk result (still_open self.new ≡ still_open self.old) }
        ensures stays { OnOk result (standing self.new ≡ standing self.old) }
        ensures end { OnOk result (written_to self.new ≡ end_at (self.old.line_end - length (bytes_of (bare (rest_of self.old.rest)))) 0) }
        ensures written { OnOk result (WritesUpTo SpaceOrTab (end_at (self.old.line_end - length (bytes_of (bare (rest_of self.old.rest)))) 0)
            self.old self.new) }
        ensures bare { IfOk result (λ text. text.now ≡ bytes_of (bare (rest_of self.old.rest))) }
    {
        let bare = self.rest.bare_text();
        self.to(Name::SpaceOrTab, self.index_of(bare.len()))?;
        Ok(bare)
    }

    /// What is left of the line, by this name.
    pub fn all(&mut self, name: Name) -> Result<(), AllocError>
        requires child { may_enter (still_open self.old) name ≡ true }
        ensures open { OnOk result (still_open self.new ≡ still_open self.old) }
        ensures stays { OnOk result (standing self.new ≡ standing self.old) }
        ensures end { OnOk result (written_to self.new ≡ end_at self.old.line_end 0) }
        ensures written { OnOk result (WritesUpTo name (end_at self.old.line_end 0) self.old self.new) }
    {
        self.to(name, self.line_end)
    }

    /// Where a rest of the line begins.
    pub fn start_of(&self, rest: &Cursor<'a>) -> End
        ensures { result ≡ rest_start self.now.line_end (rest_of rest.now) }
    {
        let index = self.index_of(rest.text().len());
        let owed = rest.tab_columns();
        if owed > 0 {
            End {
                index: index.saturating_sub(1),
                owed,
            }
        } else {
            at(index)
        }
    }

    /// Where the last bytes of the line's content begin, so many.
    pub fn index_of(&self, count: usize) -> usize
        ensures { result ≡ self.now.line_end - count }
    {
        self.line_end.saturating_sub(count)
    }
}

/// How many bytes an ending has, if there is one.
fn ending_size(ending: Option<LineEnding>) -> usize
    ensures { result ≡ length (ending_text ending) }
{
    match ending {
        Some(ending) => ending.as_str().len(),
        None => 0,
    }
}
