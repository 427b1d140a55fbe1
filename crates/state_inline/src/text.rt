//! Texts: of paragraphs, headings, cells, labels and what is emphasized.
//!
//! ```text
//! text ::= *(character_escape | character_reference | raw_text | attention | autolink | html_text
//!     | hard_break_escape | label_start_image | label_start_link | gfm_label_start_footnote
//!     | label_end | gfm_autolink_literal | data)
//! ```
//!
//! A byte says which construct is tried first; where that isn't there, the next, and data last.
ghost use Rattle.engine_programs.specs.Stacks.{Does};
ghost use Rattle.state_inline.specs.Text.{text_before, text_before_html, text_before_hard_break_escape, text_before_label_start_link, text_before_data};

use engine_programs::steps::attempt_to;
use markdown_engine::resolve;
use markdown_engine::state::{Inline, State};
use markdown_engine::tokenizer::Tokenizer;
use state_table::{next, retry};
use std::alloc::Allocator;

/// Before each part.
pub fn before<M, T, A: Allocator>(tokenizer: &mut Tokenizer<'_, M, T, A>) -> State
    ensures { Does text_before tokenizer.old tokenizer.new result }
{
    match tokenizer.current {
        None => {
            if tokenizer.register_resolver(resolve::Name::Data).is_err() {
                return State::out_of_memory();
            }
            if tokenizer.register_resolver(resolve::Name::Text).is_err() {
                return State::out_of_memory();
            }
            State::Ok
        },
        Some(b'!') => attempt_to(
            tokenizer,
            next(Inline::TextBefore),
            next(Inline::TextBeforeData),
            retry(Inline::LabelStartImageStart),
        ),
        Some(b'$' | b'`') => attempt_to(
            tokenizer,
            next(Inline::TextBefore),
            next(Inline::TextBeforeData),
            retry(Inline::RawTextStart),
        ),
        Some(b'&') => attempt_to(
            tokenizer,
            next(Inline::TextBefore),
            next(Inline::TextBeforeData),
            retry(Inline::CharacterReferenceStart),
        ),
        Some(b'*' | b'_' | b'~' | b'=') => attempt_to(
            tokenizer,
            next(Inline::TextBefore),
            next(Inline::TextBeforeData),
            retry(Inline::AttentionStart),
        ),
        Some(b'<') => attempt_to(
            tokenizer,
            next(Inline::TextBefore),
            next(Inline::TextBeforeHtml),
            retry(Inline::AutolinkStart),
        ),
        Some(b'H' | b'h') => attempt_to(
            tokenizer,
            next(Inline::TextBefore),
            next(Inline::TextBeforeData),
            retry(Inline::GfmAutolinkLiteralProtocolStart),
        ),
        Some(b'W' | b'w') => attempt_to(
            tokenizer,
            next(Inline::TextBefore),
            next(Inline::TextBeforeData),
            retry(Inline::GfmAutolinkLiteralWwwStart),
        ),
        Some(b'[') => attempt_to(
            tokenizer,
            next(Inline::TextBefore),
            next(Inline::TextBeforeLabelStartLink),
            retry(Inline::GfmLabelStartFootnoteStart),
        ),
        Some(b'\\') => attempt_to(
            tokenizer,
            next(Inline::TextBefore),
            next(Inline::TextBeforeHardBreakEscape),
            retry(Inline::CharacterEscapeStart),
        ),
        Some(b']') => attempt_to(
            tokenizer,
            next(Inline::TextBefore),
            next(Inline::TextBeforeData),
            retry(Inline::LabelEndStart),
        ),
        Some(_) => retry(Inline::TextBeforeData),
    }
}

/// At a `<` that begins no autolink.
pub fn before_html<M, T, A: Allocator>(tokenizer: &mut Tokenizer<'_, M, T, A>) -> State
    ensures { Does text_before_html tokenizer.old tokenizer.new result }
{
    attempt_to(
        tokenizer,
        next(Inline::TextBefore),
        next(Inline::TextBeforeData),
        retry(Inline::HtmlTextStart),
    )
}

/// At a backslash that escapes nothing.
pub fn before_hard_break_escape<M, T, A: Allocator>(tokenizer: &mut Tokenizer<'_, M, T, A>) -> State
    ensures { Does text_before_hard_break_escape tokenizer.old tokenizer.new result }
{
    attempt_to(
        tokenizer,
        next(Inline::TextBefore),
        next(Inline::TextBeforeData),
        retry(Inline::HardBreakEscapeStart),
    )
}

/// At a `[` that begins no footnote call.
pub fn before_label_start_link<M, T, A: Allocator>(tokenizer: &mut Tokenizer<'_, M, T, A>) -> State
    ensures { Does text_before_label_start_link tokenizer.old tokenizer.new result }
{
    attempt_to(
        tokenizer,
        next(Inline::TextBefore),
        next(Inline::TextBeforeData),
        retry(Inline::LabelStartLinkStart),
    )
}

/// Where no construct is.
pub fn before_data<M, T, A: Allocator>(tokenizer: &mut Tokenizer<'_, M, T, A>) -> State
    ensures { Does text_before_data tokenizer.old tokenizer.new result }
{
    if tokenizer.current.is_none() {
        return State::Ok;
    }
    tokenizer.tokenize_state.seen = true;
    attempt_to(
        tokenizer,
        next(Inline::TextBefore),
        State::Nok,
        retry(Inline::DataStart),
    )
}
