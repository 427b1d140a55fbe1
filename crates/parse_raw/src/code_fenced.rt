//! Fenced code (CommonMark 4.5), and math.
//!
//!     fenced ::= fence line* end_of_fence?
//!     fence  ::= marker+ white* (info (white+ meta)?)? white*
ghost use Rattle.std.specs.Prelude.{◌≡◌, ◌==◌, ◌<◌, ◌∷◌, ◌++◌, Bool, [], IfOk, List, OnOk, Option, drop, false, length, slice_index, true, ℕ};
ghost use Rattle.engine_events.specs.declared.event.Name.TheVariants.{SpaceOrTab};
ghost use Rattle.parse_output.specs.Children.{has_string, holds_blocks, may_enter};
ghost use Rattle.parse_output.specs.Open.{Entered};
ghost use Rattle.parse_lines.specs.Open.{still_open};
ghost use Rattle.parse_lines.specs.Standing.{standing};
ghost use Rattle.definition_text.specs.BlockLines.{BlockLine};
ghost use Rattle.definition_block.specs.Tree.{FencedCode};
ghost use Rattle.definition_page.specs.Read.{Reading};
ghost use Rattle.parse_raw.specs.Reads.{WritesReadLeaf};
ghost use Rattle.parse_raw.specs.Laid.{IsFenceRead, WritesReadUnclosed};
ghost use Rattle.event_tokens.specs.Tokens.{is_among};
ghost use Rattle.parse_raw.specs.Bytes.{fence_marks};
ghost use Rattle.parse_raw.specs.Fences.{may_enter_any};
ghost use Rattle.parse_raw.specs.FenceParts.{AreNames, BeginsBare, IsBefore, IsPartName, LeadsTo, WritesClosing, WritesFence, WritesOpening, WritesPart};
ghost use Rattle.parse_raw.specs.FenceParts.{fence_slots, info_in, info_size, info_slots, meta_slots};
ghost use Rattle.std.specs.List.{list_any};
ghost use Rattle.definition_text.specs.Ascii.{dollar};
ghost use Rattle.definition_text.specs.Lines.{ends_line, lines};
ghost use Rattle.markdown_options.specs.declared.line_ending.LineEnding.{LineEnding};
ghost use Rattle.parse_laid.specs.Places.{LineRest};

use crate::code_lines::{line_count, push_code_lines};
use crate::fence_names::FenceNames;
use crate::math_flow::MATH;
use crate::texts::Texts;
use engine_events::event::Name;
use markdown_options::Tables;
use parse_lines::Walk;
use parse_lines::cut::{first, from, up_to};
use parse_strings::push_string;
use std::alloc::{AllocError, Allocator};
use text_bytes::{run, white_size, word_size};
use text_lines::trim;

/// The names of code and its parts.
const CODE: FenceNames = FenceNames {
    block: Name::CodeFenced,
    fence: Name::CodeFencedFence,
    sequence: Name::CodeFencedFenceSequence,
    info: Some(Name::CodeFencedFenceInfo),
    meta: Name::CodeFencedFenceMeta,
    chunk: Name::CodeFlowChunk,
};

/// Fenced code or math that is closed, with so many lines between its fences.
#[tactic(auto, using(parse_output::proofs::Marks::same_self, parse_output::proofs::Classes::enters_in, parse_output::proofs::Classes::lines_in, parse_output::proofs::Classes::lines_may))]
pub fn push_fenced_code<T: Tables, A: Allocator + Clone>(
    walk: &mut Walk<'_, A>,
    texts: &Texts<'_, '_, T, A>,
    count: usize,
) -> Result<(), AllocError>
    requires blocks { holds_blocks (still_open walk.old) ≡ true }
    ensures open { OnOk result (still_open walk.new ≡ still_open walk.old) }
    ensures written { OnOk result ((r : Reading) (first : Bool) (info : List ℕ) (ls : List BlockLine)
        → IsFenceRead r texts.now.options.now.constructs (T.reference_of texts.now.tables.now) count ls
        → WritesReadLeaf r first (FencedCode info true ls) [] walk.old walk.new) }
{
    let names = push_open(walk, texts, count)?;
    walk.next_line()?;
    push_closing_fence(walk, &names)?;
    walk.exit(names.block)
}

/// Fenced code or math that is closed, with the lines of a text between its fences.
pub fn push_whole_code<T: Tables, A: Allocator + Clone>(
    walk: &mut Walk<'_, A>,
    texts: &Texts<'_, '_, T, A>,
    text: &str,
) -> Result<(), AllocError>
    requires blocks { holds_blocks (still_open walk.old) ≡ true }
    ensures open { OnOk result (still_open walk.new ≡ still_open walk.old) }
    ensures written { OnOk result ((r : Reading) (first : Bool) (info : List ℕ) (ls : List BlockLine)
        → IsFenceRead r texts.now.options.now.constructs (T.reference_of texts.now.tables.now) (length (lines text.now)) ls
        → WritesReadLeaf r first (FencedCode info true ls) [] walk.old walk.new) }
{
    push_fenced_code(walk, texts, line_count(text))
}

/// Fenced code or math that isn't closed, with so many lines after its fence. Outside of containers it
/// goes on to the end of the text, so that the last line ending is in it.
#[tactic(auto, using(parse_output::proofs::Marks::same_self, parse_output::proofs::Classes::lines_in, parse_output::proofs::Classes::lines_may))]
pub fn push_unclosed_code<T: Tables, A: Allocator + Clone>(
    walk: &mut Walk<'_, A>,
    texts: &Texts<'_, '_, T, A>,
    count: usize,
) -> Result<(), AllocError>
    requires blocks { holds_blocks (still_open walk.old) ≡ true }
    ensures open { OnOk result (still_open walk.new ≡ still_open walk.old) }
    ensures written { OnOk result ((r : Reading) (first : Bool) (info : List ℕ) (ls : List BlockLine)
        → IsFenceRead r texts.now.options.now.constructs (T.reference_of texts.now.tables.now) count ls
        → WritesReadUnclosed r first (FencedCode info false ls) walk.old walk.new) }
{
    let names = push_open(walk, texts, count)?;
    if walk.is_outside() {
        walk.ending(Name::LineEnding)?;
        return walk.exit(names.block);
    }
    walk.exit(names.block)
}

/// The start of fenced code or math: its fence, and so many lines. Returns the names.
#[tactic(auto, using(crate::proofs::Fences::block_child, parse_output::proofs::Classes::part_blocks, parse_output::proofs::Rows::held_row))]
fn push_open<T: Tables, A: Allocator + Clone>(
    walk: &mut Walk<'_, A>,
    texts: &Texts<'_, '_, T, A>,
    count: usize,
) -> Result<FenceNames, AllocError>
    requires blocks { holds_blocks (still_open walk.old) ≡ true }
    ensures open { IfOk result (λ names. still_open walk.new ≡ Entered names.block ∷ still_open walk.old) }
    ensures written { IfOk result (λ names.
        WritesOpening texts.now.options.now.constructs (T.reference_of texts.now.tables.now) count names walk.old walk.new) }
{
    let indent = walk.rest.indent();
    let bare = walk.white()?;
    let names = names_of(first(bare.as_bytes()));
    walk.enter(names.block)?;
    push_opening_fence(walk, texts, &names, bare)?;
    push_code_lines(walk, names.chunk, indent, count)?;
    Ok(names)
}

/// The opening fence, which this end of the line is.
#[tactic(auto, using(parse_output::proofs::Marks::same_self, parse_output::proofs::Classes::enters_in, crate::proofs::Fences::any_in, parse_output::proofs::Rows::held_row))]
fn push_opening_fence<T: Tables, A: Allocator + Clone>(
    walk: &mut Walk<'_, A>,
    texts: &Texts<'_, '_, T, A>,
    names: &FenceNames,
    bare: &str,
) -> Result<(), AllocError>
    requires child { may_enter (still_open walk.old) names.now.fence ≡ true }
    ensures open { OnOk result (still_open walk.new ≡ still_open walk.old) }
    ensures written { OnOk result ((math : Bool) (byte : ℕ) → AreNames math names.now
        → is_among (fence_marks math) byte ≡ true → byte < 128 → slice_index bare.now 0 ≡ byte
        → WritesFence texts.now.options.now.constructs (T.reference_of texts.now.tables.now) math byte bare.now walk.old walk.new) }
{
    let size = run(first(bare.as_bytes()), bare.as_bytes());
    walk.enter(names.fence)?;
    walk.token(names.sequence, size)?;
    let rest = from(bare, size);
    walk.token(Name::SpaceOrTab, white_size(rest.as_bytes()))?;
    push_info_and_meta(walk, texts, names, trim(rest))?;
    walk.all(Name::SpaceOrTab)?;
    walk.exit(names.fence)
}

/// The info and the meta of a fence, which come next.
fn push_info_and_meta<T: Tables, A: Allocator + Clone>(
    walk: &mut Walk<'_, A>,
    texts: &Texts<'_, '_, T, A>,
    names: &FenceNames,
    text: &str,
) -> Result<(), AllocError>
    requires space { may_enter (still_open walk.old) SpaceOrTab ≡ true }
    requires info { may_enter_any (still_open walk.old) names.now.info ≡ true }
    requires meta { may_enter (still_open walk.old) names.now.meta ≡ true }
    ensures open { OnOk result (still_open walk.new ≡ still_open walk.old) }
    ensures written { OnOk result ((math : Bool) (tail : List ℕ) → AreNames math names.now → list_any ends_line text.now ≡ false → BeginsBare text.now
        → LeadsTo texts.now.options.now.constructs (T.reference_of texts.now.tables.now)
        (info_in math texts.now.options.now.constructs (T.reference_of texts.now.tables.now) text.now) (fence_slots math) (meta_slots math text.now)
        (text.now ++ tail) tail walk.old walk.new) }
{
    let rest = from(text, push_info(walk, texts, names, text)?);
    let white = white_size(rest.as_bytes());
    walk.token(Name::SpaceOrTab, white)?;
    push_part(walk, texts, names.meta, from(rest, white))
}

/// The info that a text begins with, if there may be one. Returns its size.
fn push_info<T: Tables, A: Allocator + Clone>(
    walk: &mut Walk<'_, A>,
    texts: &Texts<'_, '_, T, A>,
    names: &FenceNames,
    text: &str,
) -> Result<usize, AllocError>
    requires info { may_enter_any (still_open walk.old) names.now.info ≡ true }
    ensures open { OnOk result (still_open walk.new ≡ still_open walk.old) }
    ensures size { IfOk result (λ size. (math : Bool) → AreNames math names.now → list_any ends_line text.now ≡ false → size ≡ info_size math text.now) }
    ensures written { OnOk result ((math : Bool) (tail : List ℕ) → AreNames math names.now → list_any ends_line text.now ≡ false
        → LeadsTo texts.now.options.now.constructs (T.reference_of texts.now.tables.now)
        (info_in math texts.now.options.now.constructs (T.reference_of texts.now.tables.now) text.now) (fence_slots math) (info_slots math text.now)
        (text.now ++ tail) (drop (info_size math text.now) text.now ++ tail) walk.old walk.new) }
{
    let Some(info) = names.info else {
        return Ok(0);
    };
    let size = word_size(text.as_bytes());
    push_part(walk, texts, info, up_to(text, size))?;
    Ok(size)
}

/// A string that comes next on the line, by a name. Nothing of no size.
#[tactic(auto, using(parse_output::proofs::Marks::same_self, parse_output::proofs::Classes::string_in, parse_output::proofs::Rows::string_row))]
fn push_part<T: Tables, A: Allocator + Clone>(
    walk: &mut Walk<'_, A>,
    texts: &Texts<'_, '_, T, A>,
    name: Name,
    string: &str,
) -> Result<(), AllocError>
    requires child { may_enter (still_open walk.old) name ≡ true }
    requires parts { has_string name ≡ true }
    ensures open { OnOk result (still_open walk.new ≡ still_open walk.old) }
    ensures written { OnOk result ((text rest : List ℕ) (ending : Option LineEnding) (left : List LineRest) → IsPartName name
        → IsBefore text ending left (string.now ++ rest) walk.old
        → WritesPart texts.now.options.now.constructs (T.reference_of texts.now.tables.now) text ending left name string.now rest walk.old walk.new) }
{
    if string.is_empty() {
        return Ok(());
    }
    walk.begin_here();
    walk.enter(name)?;
    push_string(walk, &texts.options.constructs, texts.tables, string)?;
    walk.exit(name)
}

/// The closing fence: the rest of the line.
#[tactic(auto, using(parse_output::proofs::Marks::same_self, parse_output::proofs::Classes::enters_in, parse_output::proofs::Rows::held_row))]
fn push_closing_fence<A: Allocator>(
    walk: &mut Walk<'_, A>,
    names: &FenceNames,
) -> Result<(), AllocError>
    requires child { may_enter (still_open walk.old) names.now.fence ≡ true }
    requires space { may_enter (still_open walk.old) SpaceOrTab ≡ true }
    ensures open { OnOk result (still_open walk.new ≡ still_open walk.old) }
    ensures written { OnOk result (WritesClosing names.now walk.old walk.new) }
{
    let bytes = walk.white()?.as_bytes();
    walk.enter(names.fence)?;
    walk.token(names.sequence, run(first(bytes), bytes))?;
    walk.all(Name::SpaceOrTab)?;
    walk.exit(names.fence)
}

/// The names by the marker of a fence: a backtick, a tilde or, where it is math, a dollar.
#[tactic(auto, unfolding(parse_output::specs::Children::may_hold, parse_output::specs::Children::has_lines, parse_output::specs::Children::has_string))]
fn names_of(marker: u8) -> FenceNames
    ensures { AreNames (marker == dollar) result }
{
    if marker == b'$' { MATH } else { CODE }
}
