//! Raw blocks: the chunks and endings of code, math and HTML (CommonMark 4.4 to 4.6).
ghost use Rattle.std.specs.Prelude.{◌≡◌, ◌==◌, ◌&&◌, ◌||◌, ◌++◌, ◌∷◌, [], false, IfOk, OnOk, codes, map, not};
ghost use Rattle.std.specs.List.{repeat};
ghost use Rattle.definition_text.specs.Columns.{code_byte};
ghost use Rattle.definition_text.specs.Encode.{encode};
ghost use Rattle.engine_events.specs.Names.{is_listed};
ghost use Rattle.event_grammar.specs.InGrammar.{node_name};
ghost use Rattle.event_grammar.specs.Trees.{Nodes, events_of};
ghost use Rattle.event_grammar.specs.Trees as tree;
ghost use Rattle.compile_levels.specs.Siblings.{Reads};
ghost use Rattle.event_meaning.specs.Children.{spaced_text_of};
ghost use Rattle.event_meaning.specs.Raw.{Chunk, raw_lines, raw_part, raw_parts};
ghost use Rattle.compile_rows.specs.Columns.{AreCounted};
ghost use Rattle.compile_written.specs.Texts.{IsTextNode};
ghost use Rattle.html_escape.specs.Prints as escape;
ghost use Rattle.html_leaves.specs.CodeLines.{code_of, html_of};
ghost use Rattle.html_leaves.specs.Prints.{KeepsEnding, Prints};
ghost use Rattle.compile_raw.specs.Raw.{has_any, lines_behind, part_bytes, part_view, passed};
ghost use Rattle.compile_raw.specs.Sound.{AreSound, HaveNoChunk, chunk_names};

use crate::line_ending::ending_of;
use crate::piece::{piece_of, text_of};
use compile_levels::node::{Node, first_node};
use compile_rows::Columns;
use engine_events::event::{Event, Name};
use html_escape::{push_encoded, push_html};
use html_leaves::Page;
use markdown_compile_options::CompileOptions;
use markdown_options::LineEnding;
use std::alloc::{AllocError, Allocator};
use text_pieces::push_columns;

/// A piece of code.
#[derive(Clone, Copy)]
pub(crate) enum CodePart<'t> {
    /// A chunk, with the columns of tabs that its ends cut.
    Chunk {
        before: u8,
        text: &'t str,
        after: u8,
    },
    /// A line ending.
    Ending(LineEnding),
    /// Any other event, which prints nothing.
    Nothing,
}

/// What was passed of code.
#[derive(Clone, Copy)]
pub(crate) struct Passed {
    /// Whether an ending that comes next isn't printed: that of an opening fence.
    pub(crate) silent: bool,
    /// Whether there was a chunk or an ending.
    pub(crate) some: bool,
    /// Whether one was printed.
    pub(crate) line: bool,
}

/// Prints chunks and endings as code. The first ending among them isn't printed if it is that of an
/// opening fence.
pub(crate) fn push_code<A: Allocator + Clone>(
    page: &mut Page<A>,
    columns: &mut Columns,
    bytes: &[u8],
    after_fence: bool,
    events: &[Event],
) -> Result<Passed, AllocError>
    requires { AreCounted bytes.now columns.old }
    ensures default { KeepsEnding page.old page.new }
    ensures counted { AreCounted bytes.now columns.new }
    ensures printed { (ns : Nodes) → AreSound bytes.now ns → events.now ≡ events_of ns →
        OnOk result (Prints page.old page.new (code_of (lines_behind after_fence (raw_parts bytes.now ns)))) }
    ensures some { (ns : Nodes) → AreSound bytes.now ns → events.now ≡ events_of ns →
        IfOk result (λ passed. passed.some ≡ has_any (raw_parts bytes.now ns)) }
    ensures line { (ns : Nodes) → AreSound bytes.now ns → events.now ≡ events_of ns →
        IfOk result (λ passed. passed.line ≡ has_any (lines_behind after_fence (raw_parts bytes.now ns))) }
{
    let mut passed = Passed {
        silent: after_fence,
        some: false,
        line: false,
    };
    let mut rest = events;
    while let Some((node, after)) = first_node(rest) {
        let part = CodePart::read(columns, bytes, &node);
        push_part(page, passed, part)?;
        passed = passed.with(part);
        rest = after;
    }
    Ok(passed)
}

impl Passed {
    /// Whether there was a line, also one at the end of which nothing is left.
    pub(crate) fn has_line(self, spaced: bool) -> bool
        ensures { result ≡ (self.line || (spaced && self.some)) }
    {
        self.line || spaced && self.some
    }

    /// One more piece is passed.
    fn with(self, part: CodePart<'_>) -> Passed
        ensures { result ≡ passed self part.entry }
    {
        match part {
            CodePart::Chunk { .. } => Passed {
                silent: self.silent,
                some: true,
                line: true,
            },
            CodePart::Ending(_) => Passed {
                silent: false,
                some: true,
                line: self.line || !self.silent,
            },
            CodePart::Nothing => self,
        }
    }
}

impl<'t> CodePart<'t> {
    /// What an event of code is. The columns are known at its start then.
    fn read(columns: &mut Columns, bytes: &'t [u8], node: &Node<'_>) -> CodePart<'t>
        requires { AreCounted bytes.now columns.old }
        ensures counted { AreCounted bytes.now columns.new }
        ensures part { (n : tree.Node) → Reads node.now n → IsTextNode bytes.now n → part_view result ≡ raw_part bytes.now (node_name n) n }
    {
        if node.name == Name::LineEnding {
            CodePart::Ending(ending_of(bytes, node))
        } else if node.name == Name::CodeFlowChunk || node.name == Name::MathFlowChunk {
            CodePart::chunk(columns, bytes, node)
        } else if node.name == Name::HtmlFlowData {
            CodePart::Chunk {
                before: 0,
                text: text_of(piece_of(bytes, node)),
                after: 0,
            }
        } else {
            CodePart::Nothing
        }
    }

    /// A chunk with the columns of tabs that its ends cut.
    fn chunk(columns: &mut Columns, bytes: &'t [u8], node: &Node<'_>) -> CodePart<'t>
        requires { AreCounted bytes.now columns.old }
        ensures counted { AreCounted bytes.now columns.new }
        ensures part { (n : tree.Node) → Reads node.now n → IsTextNode bytes.now n → part_view result ≡ Chunk (spaced_text_of bytes.now n) ∷ [] }
    {
        if is_in_tab(node) {
            return CodePart::Chunk {
                before: node.end.vs.saturating_sub(node.start.vs),
                text: "",
                after: 0,
            };
        }
        CodePart::Chunk {
            before: columns.after(bytes, node.start),
            text: text_of(piece_of(bytes, node)),
            after: node.end.vs.saturating_sub(1),
        }
    }
}

/// Whether an event is in one tab, some columns of which are before it.
fn is_in_tab(node: &Node<'_>) -> bool
    ensures { result ≡ (not (node.now.start.vs == 0) && (node.now.start.index == node.now.end.index)) }
{
    node.start.vs != 0 && node.start.index == node.end.index
}

/// Prints a piece of code after what was passed.
fn push_part<A: Allocator + Clone>(
    page: &mut Page<A>,
    passed: Passed,
    part: CodePart<'_>,
) -> Result<(), AllocError>
    ensures default { KeepsEnding page.old page.new }
    ensures printed { OnOk result (Prints page.old page.new (part_bytes passed part.entry)) }
{
    match part {
        CodePart::Chunk {
            before,
            text,
            after,
        } => push_chunk(&mut page.out.html, before, text, after),
        CodePart::Ending(ending) => {
            if passed.silent {
                return Ok(());
            }
            page.push_ending(Some(ending))
        }
        CodePart::Nothing => Ok(()),
    }
}

/// Appends a chunk of code between spaces for columns.
fn push_chunk<A: Allocator>(
    out: &mut String<A>,
    before: u8,
    text: &str,
    after: u8,
) -> Result<(), AllocError>
    ensures { escape.Prints result out.old out.new (encode (map code_byte (repeat before (codes " ") ++ text.now ++ repeat after (codes " ")))) }
{
    push_columns(out, before)?;
    push_encoded(out, text)?;
    push_columns(out, after)
}

/// Prints chunks and endings as HTML.
pub(crate) fn push_html_parts<A: Allocator + Clone>(
    page: &mut Page<A>,
    options: &CompileOptions,
    bytes: &[u8],
    events: &[Event],
) -> Result<(), AllocError>
    ensures default { KeepsEnding page.old page.new }
    ensures printed { (ns : Nodes) → AreSound bytes.now ns → HaveNoChunk ns → events.now ≡ events_of ns →
        OnOk result (Prints page.old page.new (html_of options.now (raw_lines (raw_parts bytes.now ns)))) }
{
    let mut rest = events;
    while let Some((node, after)) = first_node(rest) {
        push_html_part(page, options, bytes, &node)?;
        rest = after;
    }
    Ok(())
}

/// Prints a piece of HTML.
fn push_html_part<A: Allocator + Clone>(
    page: &mut Page<A>,
    options: &CompileOptions,
    bytes: &[u8],
    node: &Node<'_>,
) -> Result<(), AllocError>
    ensures default { KeepsEnding page.old page.new }
    ensures printed { (n : tree.Node) → Reads node.now n → IsTextNode bytes.now n → is_listed chunk_names (node_name n) ≡ false →
        OnOk result (Prints page.old page.new (html_of options.now (raw_lines (raw_part bytes.now (node_name n) n)))) }
{
    if node.name == Name::LineEnding {
        page.push_ending(Some(ending_of(bytes, node)))
    } else if node.name == Name::HtmlFlowData {
        push_html_text(&mut page.out.html, options, text_of(piece_of(bytes, node)))
    } else {
        Ok(())
    }
}

/// Appends a text as a chunk of HTML.
fn push_html_text<A: Allocator>(
    out: &mut String<A>,
    options: &CompileOptions,
    text: &str,
) -> Result<(), AllocError>
    ensures { escape.Prints result out.old out.new (html_of options.now (raw_lines (Chunk text.now ∷ []))) }
{
    push_html(out, options, false, text)
}
