//! Blocks, line by line (CommonMark 4, 5 and appendix, phase 1).
ghost use Rattle.std.specs.Prelude.{◌≡◌, ◌≤◌, ◌<◌, ◌-◌, true, false, ◌^◌, [], IfNone, IfOk, IfSome, eqb, length, take};
ghost use Rattle.std.specs.Str.{IsCharBoundary};
ghost use Rattle.definition_text.specs.Lines.{lines};
ghost use Rattle.definition_block.specs.Tree.{blocks, children};
ghost use Rattle.block_rows.specs.Rows.{rows_size, rows_of, rows_value, value_with};
ghost use Rattle.text_pieces.specs.Pieces.{piece_lines};
ghost use Rattle.block_starts.specs.View.{rest_of, container_view, container_views};
ghost use Rattle.block_parser.specs.Quotes.{NoQuoteFrom, is_quote};

use block_leaves::Leaves;
use block_leaves::code_fenced::opening_fence;
use block_leaves::code_indented::begins_code;
use block_leaves::html_flow::html_start;
use block_rows::Row;
use block_starts::Cursor;
use block_starts::container::{container_may_start, continues, starts};
use block_starts::frontmatter::without_frontmatter;
use block_starts::heading_atx::heading_atx;
use block_starts::plain::{is_plain, is_plain_line};
use block_starts::thematic_break::is_break;
use block_state::OpenLeaf;
use block_state::whole_lines::whole_piece;
use markdown_options::{Beside, Constructs, Container, Kind, LineEnding};
use std::alloc::{AllocError, Allocator};
use text_lines::next_line;
use text_pieces::Piece;

/// The blocks of a text: rows, and the lines that they take.
#[derive(Drop)]
pub struct BlockRows<'a, A: Allocator> {
    pub rows: Vec<Row, A>,
    pub pieces: Vec<Piece<'a>, A>,
}

/// What was read so far.
#[derive(Drop)]
pub(crate) struct Parser<'a, A: Allocator> {
    /// The leaves so far, and the one that is open.
    pub(crate) leaves: Leaves<'a, A>,
    /// The containers that are open, the outermost first.
    pub(crate) open: Vec<Container<'a>, A>,
    /// No container from this depth on is a quote.
    pub(crate) quotes_end: usize,
    ghost no_quotes: { NoQuoteFrom quotes_end (container_views open.items) },
}

impl<'a, A: Allocator> Parser<'a, A> {
    ghost use Rattle.std.specs.Prelude.{◌≡◌, ◌==◌, ◌&&◌, OnOk, IfOk, List, true, false};
    ghost use Rattle.definition_text.specs.Lines.{text_line};
    ghost use Rattle.definition_block.specs.Tree as tree;
    ghost use Rattle.text_pieces.specs.ParagraphLines.{AreLines};
    ghost use Rattle.block_state.specs.Spine.{Level, Spine, spine, spine_at, spine_of, without_innermost};
    ghost use Rattle.block_parser.specs.Quotes.{NoQuoteFrom, NoneBeganBlank};
    ghost use Rattle.block_parser.specs.View.{Descent, Enters, Grows, HasRead, IsEntered, KeepsLines, ReadsSome};
    ghost use Rattle.markdown_options.specs.declared.beside.Kind.TheVariants.{Whitespace};
    ghost use Rattle.definition_block.specs.Container.{Container as Holder};
    ghost use Rattle.definition_text.specs.BlockLines.{BlockLine};
    ghost use Rattle.std.specs.Prelude.{◌≤◌, ◌<◌, ◌+◌, ◌-◌, ◌∷◌, ◌++◌, [], length, vec_len};
    ghost use Rattle.block_starts.specs.View.{rest_of, container_view, container_views};

    /// Reads lines at the front of a text, after a character of a kind: where no container is open and
    /// no leaf but a paragraph or fenced code, those that go on it and the line after them, and otherwise
    /// one. Answers what follows.
    pub(crate) fn lines(
        &mut self,
        on: &Constructs,
        before: Kind,
        text: &'a str,
    ) -> Result<&'a str, AllocError>
        requires some { 0 < length text.now }
        requires fits { length text.now < 2 ^ 61 }
        ensures shorter { IfOk result (λ rest. length rest.now < length text.now) }
        ensures read { IfOk result (λ rest. (t : tree.Tree) → KeepsLines on.now before t text.now → HasRead self.old (spine_of t) →
            ReadsSome on.now before t text.now rest.now self.new) }
    {
        if before == Kind::Whitespace && self.open.is_empty() {
            match self.leaves.leaf {
                OpenLeaf::Text => return self.plain_lines(on, text),
                OpenLeaf::Fenced { fence, ending } => {
                    return self.fenced_lines(on, fence, ending, text);
                }
                OpenLeaf::Indented { .. } | OpenLeaf::Html { .. } | OpenLeaf::Table { .. } => {}
            }
        }
        let (content, ending, rest) = next_line(text);
        self.leaves.rest = text;
        self.any_line(on, before, content, ending)?;
        Ok(rest)
    }

    /// Reads plain lines, where no container is open and no leaf but a paragraph, and the line after
    /// them. They ask no construct, and an empty one after them is blank.
    fn plain_lines(&mut self, on: &Constructs, text: &'a str) -> Result<&'a str, AllocError>
        requires some { 0 < length text.now }
        requires fits { length text.now < 2 ^ 61 }
        ensures shorter { IfOk result (λ rest. length rest.now < length text.now) }
        ensures read { IfOk result (λ rest. (kids : tree.Blocks) (ls : List BlockLine) → let t = tree.tree kids (tree.At (tree.Text ls)) in
            KeepsLines on.now Whitespace t text.now → HasRead self.old (spine_of t) → ReadsSome on.now Whitespace t text.now rest.now self.new) }
    {
        let goes_on = self.leaves.has_text();
        self.leaves.paragraph = if goes_on { self.leaves.paragraph } else { text };
        let mut rest = text;
        while !rest.is_empty() {
            let (content, ending, after) = next_line(rest);
            if content.is_empty() {
                self.leaves
                    .close_text(on, known_front(goes_on, text, rest))?;
                self.leaves.blank_line(ending)?;
                return Ok(after);
            }
            if !is_plain_line(on, content) {
                self.leaves.rest = rest;
                self.any_line(on, Kind::Whitespace, content, ending)?;
                return Ok(after);
            }
            self.leaves.push_line(whole_piece(content, ending))?;
            rest = after;
        }
        Ok(rest)
    }

    /// Reads any line: the containers that go on, then the leaf that takes the rest, or what is new.
    pub(crate) fn any_line(
        &mut self,
        on: &Constructs,
        before: Kind,
        content: &'a str,
        ending: Option<LineEnding>,
    ) -> Result<(), AllocError>
        requires { length content.now < 2 ^ 61 }
        ensures { OnOk result ((t : tree.Tree) → AreLines (tree.open_text t.now) → HasRead self.old (spine_of t) →
            HasRead self.new (spine_of (tree.step on.now before t (text_line content.now ending)))) }
    {
        let beside = Beside { before, ending };
        let (depth, rest, beside) = self.descend(on, Cursor::new(content), beside);
        if depth < self.open.len() {
            return self.start_line(on, depth, &rest, beside);
        }
        match self.leaves.leaf {
            OpenLeaf::Text => self.start_line(on, depth, &rest, beside),
            OpenLeaf::Indented { .. } => self.indented_line(on, &rest, beside),
            OpenLeaf::Fenced { fence, .. } => self.leaves.fenced_line(on, fence, &rest, beside),
            OpenLeaf::Html { kind, .. } => self.html_line(on, kind, &rest, beside),
            OpenLeaf::Table { .. } => self.start_line(on, depth, &rest, beside),
        }
    }

    /// How many containers go on, the rest after what they have on this line, and what stands beside
    /// it.
    fn descend(
        &self,
        on: &Constructs,
        line: Cursor<'a>,
        beside: Beside,
    ) -> (usize, Cursor<'a>, Beside)
        ensures within { result.0 ≤ vec_len self.now.open }
        ensures descent { (t : tree.Tree) → HasRead self.now (spine_of t) →
            Descent on.now beside (rest_of line.entry) t (vec_len self.now.open) result.0 (rest_of result.1) result.2 }
    {
        let mut rest = line;
        let mut here = beside;
        for depth in 0..self.open.len() {
            if self.all_go_on(depth, &rest) {
                here.before = Kind::Whitespace;
                return (self.open.len(), rest, here);
            }
            match continues(on, self.open[depth], self.began_blank(depth), rest) {
                Some(inside) => {
                    rest = inside.rest;
                    here.before = inside.before;
                }
                None => return (depth, rest, here),
            }
        }
        (self.open.len(), rest, here)
    }

    /// Whether all containers from a depth on go on because nothing is left of the line: they are no
    /// quotes, and the innermost didn't begin with a blank line. So a run of blank lines costs one walk
    /// through the containers.
    fn all_go_on(&self, depth: usize, rest: &Cursor<'a>) -> bool
        requires { depth < vec_len self.now.open }
        ensures empty { result ≡ true → rest_of rest.now ≡ [] }
        ensures none { result ≡ true → NoQuoteFrom depth (container_views self.now.open.items) }
        ensures began { result ≡ true → (t : tree.Tree) → HasRead self.now (spine_of t) → NoneBeganBlank t }
    {
        if self.quotes_end > depth {
            return false;
        }
        if !is_empty(rest) {
            return false;
        }
        !self.began_blank(self.open.len() - 1)
    }

    /// Whether a container, at a depth, began with a blank line, and nothing followed.
    fn began_blank(&self, depth: usize) -> bool
        requires { depth < vec_len self.now.open }
        ensures { (around : List Level) (kids inner_kids : tree.Blocks) (c : Holder) (inner : tree.Opening) → depth ≡ length around →
            HasRead self.now (spine_at around kids (tree.Inside c inner_kids inner)) → result ≡ tree.began_blank inner_kids inner }
    {
        if depth + 1 != self.open.len() {
            return false;
        }
        self.leaves.is_nothing() && self.leaves.rows.began_blank()
    }

    /// Whether what starts on a line that is in so many containers interrupts a paragraph.
    pub(crate) fn interrupts(&self, depth: usize) -> bool
        ensures { (around : List Level) (kids : tree.Blocks) (away : tree.Opening) → depth ≡ length around → HasRead self.now (spine_at around kids away) →
            result ≡ ((depth == vec_len self.now.open) && tree.has_text away) }
    {
        depth == self.open.len() && self.leaves.has_text()
    }

    /// Reads the rest of a line after the containers that it is in, which are so many.
    pub(crate) fn start_line(
        &mut self,
        on: &Constructs,
        depth: usize,
        rest: &Cursor<'a>,
        beside: Beside,
    ) -> Result<(), AllocError>
        requires depth { depth ≤ vec_len self.old.open }
        ensures { OnOk result (Grows self.old self.new depth
            (λ away. tree.new (length (rest_of rest.now)) on.now (depth == vec_len self.old.open) away beside (rest_of rest.now))) }
    {
        if !container_may_start(on, rest) {
            return self.leaf_line(on, depth, rest, beside);
        }
        let Some((container, line)) = starts(on, self.interrupts(depth), *rest) else {
            return self.leaf_line(on, depth, rest, beside);
        };
        self.close_to(on, depth)?;
        self.enter(container)?;
        let inner = Beside {
            before: line.before,
            ending: beside.ending,
        };
        let (inside, here) = self.enter_all(on, line.rest, inner)?;
        let depth = self.open.len();
        self.leaf_line(on, depth, &inside, here)
    }

    /// Starts containers, where no leaf is open, as long as the rest starts one.
    fn enter_all(
        &mut self,
        on: &Constructs,
        rest: Cursor<'a>,
        beside: Beside,
    ) -> Result<(Cursor<'a>, Beside), AllocError>
        ensures { IfOk result (λ inside. (around : List Level) (kids : tree.Blocks) → HasRead self.old (spine around kids (tree.Text [])) →
            IsEntered on.now (rest_of rest.entry) beside (rest_of inside.0) inside.1 self.new around kids) }
    {
        let mut inside = rest;
        let mut here = beside;
        while let Some((container, line)) = starts(on, false, inside) {
            self.enter(container)?;
            inside = line.rest;
            here.before = line.before;
        }
        Ok((inside, here))
    }

    /// Reads a rest that starts no container. A plain one is text, and asks no construct.
    fn leaf_line(
        &mut self,
        on: &Constructs,
        depth: usize,
        rest: &Cursor<'a>,
        beside: Beside,
    ) -> Result<(), AllocError>
        requires depth { depth ≤ vec_len self.old.open }
        ensures { OnOk result (Grows self.old self.new depth (λ away. tree.leaf_line on.now away (rest_of rest.now) beside)) }
    {
        if is_plain(on, *rest) {
            self.more_text(on, depth, rest, beside)
        } else {
            self.any_leaf_line(on, depth, rest, beside)
        }
    }

    /// Reads any rest that starts no container: a blank one, a leaf that starts, or text.
    fn any_leaf_line(
        &mut self,
        on: &Constructs,
        depth: usize,
        rest: &Cursor<'a>,
        beside: Beside,
    ) -> Result<(), AllocError>
        requires depth { depth ≤ vec_len self.old.open }
        ensures { OnOk result (Grows self.old self.new depth (λ away. tree.leaf_line on.now away (rest_of rest.now) beside)) }
    {
        let paragraph = self.leaves.has_text();
        if rest.is_blank() {
            self.close_to(on, depth)?;
            return self.leaves.blank_line(beside.ending);
        }
        if begins_code(on, paragraph, rest) {
            self.close_to(on, depth)?;
            return self.leaves.start_indented(rest, beside);
        }
        if let Some(fence) = opening_fence(on, rest) {
            self.close_to(on, depth)?;
            return self.leaves.start_fenced(fence, beside.ending);
        }
        if let Some(kind) = html_start(on, paragraph, rest) {
            self.close_to(on, depth)?;
            return self.leaves.html_with(kind, rest, beside);
        }
        if let Some(atx) = heading_atx(on, *rest) {
            self.close_to(on, depth)?;
            return self.leaves.heading(atx, beside.ending);
        }
        if let Some(rank) = self.turns(on, depth, rest)? {
            return self.leaves.setext_heading(on, rank, beside.ending);
        }
        if is_break(on, *rest) {
            self.close_to(on, depth)?;
            return self.leaves.thematic_break(beside.ending);
        }
        if self.makes_table(on, depth, rest)? {
            return self.leaves.start_table(on, rest, beside);
        }
        self.more_text(on, depth, rest, beside)
    }

    /// A line of text: one more of the open paragraph or of the open table, or the first of a
    /// paragraph.
    fn more_text(
        &mut self,
        on: &Constructs,
        depth: usize,
        rest: &Cursor<'a>,
        beside: Beside,
    ) -> Result<(), AllocError>
        requires depth { depth ≤ vec_len self.old.open }
        ensures { OnOk result (Grows self.old self.new depth (λ away. tree.text_line_of on.now away (rest_of rest.now) beside)) }
    {
        if self.leaves.has_text() {
            return self.leaves.text_line(rest, beside);
        }
        if self.is_row(depth) {
            return self.leaves.table_row(rest, beside);
        }
        self.close_to(on, depth)?;
        self.leaves.text_line(rest, beside)
    }

    /// A container starts, where no leaf is open.
    fn enter(&mut self, container: Container<'a>) -> Result<(), AllocError>
        ensures { OnOk result (Enters self.old self.new (container_view container.entry)) }
    {
        self.leaves.enter(container)?;
        let end = self.quotes_end_with(container);
        self.open.push(container)?;
        self.quotes_end = end;
        Ok(())
    }

    /// The depth from which on no container is a quote, where this one is open, too.
    fn quotes_end_with(&self, container: Container<'a>) -> usize
        ensures { NoQuoteFrom result (container_views self.now.open.items ++ container_view container.entry ∷ []) }
    {
        if is_quote(container) {
            self.open.len() + 1
        } else {
            self.quotes_end
        }
    }

    /// Closes the open leaf, and all containers but so many.
    pub(crate) fn close_to(&mut self, on: &Constructs, depth: usize) -> Result<(), AllocError>
        requires depth { depth ≤ vec_len self.old.open }
        ensures read { OnOk result (Grows self.old self.new depth (λ away. tree.tree (tree.close on.now away) tree.nothing)) }
        ensures count { OnOk result (vec_len self.new.open ≡ depth) }
    {
        self.leaves.close_leaf(on)?;
        while self.open.len() > depth {
            self.exit()?;
        }
        Ok(())
    }

    /// Closes the innermost container, where no leaf is open.
    fn exit(&mut self) -> Result<(), AllocError>
        ensures read { OnOk result ((s : Spine) → s.leaf ≡ tree.Text [] → HasRead self.old s → HasRead self.new (without_innermost s)) }
        ensures count { OnOk result (vec_len self.new.open ≡ vec_len self.old.open - 1) }
    {
        if let Some(container) = self.open.pop() {
            self.quotes_end = quotes_end(self.quotes_end, &self.open);
            self.leaves.exit(container)?;
        }
        Ok(())
    }
}

/// Whether nothing is left of a line.
fn is_empty(rest: &Cursor<'_>) -> bool
    ensures { result ≡ eqb (length (rest_of rest.now)) 0 }
{
    rest.is_blank() && rest.indent() == 0
}

/// A depth from which on no container is a quote, after one was closed where there was such a depth:
/// not beyond the innermost.
fn quotes_end(end: usize, containers: &[Container<'_>]) -> usize
    requires { NoQuoteFrom end (container_views containers.now) }
    ensures none { NoQuoteFrom result (container_views containers.now) }
    ensures within { result ≤ length containers.now }
{
    if end <= containers.len() {
        return end;
    }
    let mut depth = containers.len();
    while depth > 0 && !is_quote(containers[depth - 1]) {
        depth -= 1;
    }
    depth
}

/// Whether a container is a quote.
fn is_quote(container: Container<'_>) -> bool
    ensures { result ≡ is_quote (container_view container.entry) }
{
    match container {
        Container::Quote => true,
        Container::Item(_) | Container::Footnote(_) => false,
    }
}

/// What stands before a rest of a text, unless a paragraph goes on there.
fn known_front<'a>(goes_on: bool, text: &'a str, rest: &str) -> Option<&'a str>
    requires boundary { IsCharBoundary text.now (length text.now - length rest.now) }
    requires within { length rest.now ≤ length text.now }
    ensures front { IfSome result (λ front. (goes_on ≡ false) × (front.now ≡ take (length text.now - length rest.now) text.now)) }
    ensures none { IfNone result (goes_on ≡ true) }
{
    if goes_on {
        return None;
    }
    Some(&text[..text.len() - rest.len()])
}

/// The blocks of a text without a byte order mark, after a character of a kind.
pub fn block_rows<'a, A: Allocator + Clone>(
    alloc: A,
    before: Kind,
    text: &'a str,
    on: &Constructs,
) -> Result<BlockRows<'a, A>, AllocError>
    requires fits { length text.now < 2 ^ 61 }
    ensures rows { IfOk result (λ r. rows_value r.rows.items (piece_lines r.pieces.items) ≡ value_with (rows_of (blocks on.now before text.entry.now)) []) }
    ensures enough { IfOk result (λ r. rows_size r.rows.items ≤ length r.pieces.items) }
{
    let (before, text) = without_frontmatter(on, before, text);
    child_rows(alloc, before, text, on)
}

/// The blocks of the lines of a text, after a character of a kind.
fn child_rows<'a, A: Allocator + Clone>(
    alloc: A,
    before: Kind,
    text: &'a str,
    on: &Constructs,
) -> Result<BlockRows<'a, A>, AllocError>
    requires fits { length text.now < 2 ^ 61 }
    ensures rows { IfOk result (λ r.
        rows_value r.rows.items (piece_lines r.pieces.items) ≡ value_with (rows_of (children on.now before (lines text.entry.now))) []) }
    ensures enough { IfOk result (λ r. rows_size r.rows.items ≤ length r.pieces.items) }
{
    let mut parser = Parser {
        leaves: Leaves::new(alloc.clone()?, text)?,
        open: Vec::new(alloc),
        quotes_end: 0,
    };
    let mut here = before;
    let mut left = text;
    while !left.is_empty() {
        left = parser.lines(on, here, left)?;
        here = Kind::Whitespace;
    }
    parser.close_to(on, 0)?;
    let Parser { leaves, .. } = parser;
    let Leaves { rows, pieces, .. } = leaves;
    Ok(BlockRows {
        rows: rows.finish()?,
        pieces,
    })
}
