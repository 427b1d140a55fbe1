//! What a content begins with (CommonMark 6).
ghost use Rattle.std.specs.Prelude.{◌≡◌, IfOk};
ghost use Rattle.definition_text.specs.Content.{content_codes};
ghost use Rattle.inline_links.specs.Codes.{IsRest};
ghost use Rattle.inline_leaves.specs.Leaves.{found_leaf, LeavesRest};
ghost use Rattle.inline_leaves.specs.Scanned.{leaf_in};

use crate::autolink::autolink_at;
use crate::code_text::code_text_at;
use crate::math_text::math_text_at;
use crate::searches::Searches;
use inline_leaves::Leaf;
use inline_leaves::character_escape::escape_at;
use inline_leaves::character_reference::reference_at;
use inline_leaves::hard_break_escape::escaped_break_at;
use inline_leaves::hard_break_trailing::line_spaces_at;
use inline_leaves::line_ending::line_end_at;
use markdown_options::{ParseOptions, Tables};
use std::alloc::{AllocError, Allocator};

/// The construct that a rest of a content begins with, if it holds no other (CommonMark 6): its first
/// byte says which it may be. What is searched for in vain is kept for later rests.
pub fn leaf_at<'a, T: Tables, A: Allocator + Clone>(
    options: &ParseOptions,
    tables: &'a T,
    searches: &mut Searches<'a, A>,
    rest: &'a str,
) -> Result<Option<Leaf<'a>>, AllocError>
    requires { IsRest searches.old.content.now rest.now }
    ensures content { searches.new.content ≡ searches.old.content }
    ensures read { IfOk result (λ found. found_leaf rest.now found ≡ leaf_in options.now (T.reference_of tables.now) (content_codes rest.now)) }
    ensures place { IfOk result (LeavesRest rest.now) }
{
    if rest.is_empty() {
        return Ok(None);
    }
    let on = &options.constructs;
    match rest.as_bytes()[0] {
        b'\\' => match escape_at(on, rest) {
            Some(found) => Ok(Some(found)),
            None => Ok(escaped_break_at(on, rest)),
        },
        b'&' => Ok(reference_at(on, tables, rest)),
        b'`' => code_text_at(on, searches, rest),
        b'$' => math_text_at(options, searches, rest),
        b'<' => match autolink_at(on, rest) {
            Some(found) => Ok(Some(found)),
            None => Ok(searches.html_text_at(on, rest)),
        },
        b'\n' | b'\r' => Ok(line_end_at(rest)),
        b' ' | b'\t' => Ok(line_spaces_at(on, rest)),
        _ => Ok(None),
    }
}
