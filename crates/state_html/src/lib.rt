//! Autolinks, and HTML among text.
#![tactic(auto)]

ghost use Rattle.markdown_engine.specs.Machine.{read_with};
ghost use Rattle.engine_states.specs.declared.state.Name.TheVariants as any_states;
ghost use Rattle.engine_programs.specs.Stacks.{Does, IsOpen};
ghost use Rattle.state_table.specs.Table.{sorts};
ghost use Rattle.state_html.specs.HtmlStates.{html_body};

pub mod autolink;
pub mod html_text;

use markdown_engine::state::{Inline, State};
use markdown_engine::tokenizer::Tokenizer;
use std::alloc::Allocator;

/// Calls a state of this crate. Any other state fails (`Nok`).
pub fn call<M, T, A: Allocator>(tokenizer: &mut Tokenizer<'_, M, T, A>, state: Inline) -> State
    requires { IsOpen (sorts (any_states.Inline state)).open_tokens tokenizer.old }
    ensures { Does (html_body (read_with tokenizer.old) state) tokenizer.old tokenizer.new result }
{
    match state {
        Inline::AutolinkStart => autolink::start(tokenizer),
        Inline::AutolinkOpen => autolink::open(tokenizer),
        Inline::AutolinkSchemeOrEmailAtext => autolink::scheme_or_email_atext(tokenizer),
        Inline::AutolinkSchemeInsideOrEmailAtext => autolink::scheme_inside_or_email_atext(
            tokenizer,
        ),
        Inline::AutolinkUrlInside => autolink::url_inside(tokenizer),
        Inline::AutolinkEmailAtext => autolink::email_atext(tokenizer),
        Inline::AutolinkEmailAtSignOrDot => autolink::email_at_sign_or_dot(tokenizer),
        Inline::AutolinkEmailLabel => autolink::email_label(tokenizer),
        Inline::AutolinkEmailValue => autolink::email_value(tokenizer),
        Inline::HtmlTextStart => html_text::start(tokenizer),
        Inline::HtmlTextOpen => html_text::open(tokenizer),
        Inline::HtmlTextDeclarationOpen => html_text::declaration_open(tokenizer),
        Inline::HtmlTextCommentOpenInside => html_text::comment_open_inside(tokenizer),
        Inline::HtmlTextComment => html_text::comment(tokenizer),
        Inline::HtmlTextCommentClose => html_text::comment_close(tokenizer),
        Inline::HtmlTextCommentEnd => html_text::comment_end(tokenizer),
        Inline::HtmlTextCdataOpenInside => html_text::cdata_open_inside(tokenizer),
        Inline::HtmlTextCdata => html_text::cdata(tokenizer),
        Inline::HtmlTextCdataClose => html_text::cdata_close(tokenizer),
        Inline::HtmlTextCdataEnd => html_text::cdata_end(tokenizer),
        Inline::HtmlTextDeclaration => html_text::declaration(tokenizer),
        Inline::HtmlTextInstruction => html_text::instruction(tokenizer),
        Inline::HtmlTextInstructionClose => html_text::instruction_close(tokenizer),
        Inline::HtmlTextTagCloseStart => html_text::tag_close_start(tokenizer),
        Inline::HtmlTextTagClose => html_text::tag_close(tokenizer),
        Inline::HtmlTextTagCloseBetween => html_text::tag_close_between(tokenizer),
        Inline::HtmlTextTagOpen => html_text::tag_open(tokenizer),
        Inline::HtmlTextTagOpenBetween => html_text::tag_open_between(tokenizer),
        Inline::HtmlTextTagOpenAttributeName => html_text::tag_open_attribute_name(tokenizer),
        Inline::HtmlTextTagOpenAttributeNameAfter => html_text::tag_open_attribute_name_after(
            tokenizer,
        ),
        Inline::HtmlTextTagOpenAttributeValueBefore => html_text::tag_open_attribute_value_before(
            tokenizer,
        ),
        Inline::HtmlTextTagOpenAttributeValueQuoted => html_text::tag_open_attribute_value_quoted(
            tokenizer,
        ),
        Inline::HtmlTextTagOpenAttributeValueUnquoted =>
            html_text::tag_open_attribute_value_unquoted(tokenizer),
        Inline::HtmlTextTagOpenAttributeValueQuotedAfter =>
            html_text::tag_open_attribute_value_quoted_after(tokenizer),
        Inline::HtmlTextEnd => html_text::end(tokenizer),
        Inline::HtmlTextLineEndingBefore => html_text::line_ending_before(tokenizer),
        Inline::HtmlTextLineEndingAfter => html_text::line_ending_after(tokenizer),
        Inline::HtmlTextLineEndingAfterPrefix => html_text::line_ending_after_prefix(tokenizer),
        _ => State::Nok,
    }
}
