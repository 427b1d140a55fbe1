//! The runs of a content, by what stands beside them (CommonMark 6.2 and GFM 6.5).
//!
//!     run ::= '*'+ | '_'+ | '~'+ | '='+, as long as it gets
ghost use Rattle.std.specs.Prelude.{◌≡◌, ◌<◌, ℕ, List, IfSome, MatchOption, length, slice_index};
ghost use Rattle.definition_inline.specs.Attention.{is_marker};
ghost use Rattle.definition_text.specs.Content.{content_codes};
ghost use Rattle.definition_text.specs.InlineCode.{character_kind, first_kind};
ghost use Rattle.std.specs.Option.{option_map};
ghost use Rattle.std.specs.Str.{IsCharBoundary};
ghost use Rattle.definition_inline.specs.Attention.{run_at};
ghost use Rattle.inline_links.specs.Codes.{IsRest};
ghost use Rattle.inline_runs.specs.View.{run_view};
ghost use Rattle.inline_content.specs.Ends.{EndsWith};
ghost use Rattle.inline_content.specs.Fronts.{StartsRun};
ghost use Rattle.inline_content.specs.View.{line_rest, kind_at_place, view_at};

use crate::content::Content;
use inline_runs::{Run, run_between};
use markdown_options::{Kind, ParseOptions, Tables};

impl<'a> Content<'a> {
    /// The run that a rest of the content begins with (CommonMark 6.2).
    pub fn run_at<T: Tables>(self, options: &ParseOptions, tables: &T, rest: &str) -> Option<Run>
        requires { IsRest self.text.now rest.now }
        ensures read { option_map run_view result ≡ run_at options.now (view_at (T.punctuation_of tables.now) self.entry rest.now) }
        ensures front { IfSome result (λ run. StartsRun options.now rest.now run) }
    {
        let bytes = rest.as_bytes();
        if bytes.is_empty() || !is_marker(options, bytes[0]) {
            return None;
        }
        let marker = bytes[0];
        let size = text_bytes::run(marker, bytes);
        let before = self.kind_before(tables, self.text.len() - rest.len());
        let after = first_kind(tables, self.after, &rest[size..]);
        Some(run_between(options, marker, size, before, after))
    }

    /// The kind of the character before a place.
    fn kind_before<T: Tables>(self, tables: &T, place: usize) -> Kind
        requires { IsCharBoundary self.text.now place }
        ensures { (others : List ℕ) → result ≡ kind_at_place (T.punctuation_of tables.now) self.entry place others }
    {
        match last_character(&self.text[..place]) {
            None => self.kind_at(place),
            Some(character) => {
                if character == '\n' || character == '\r' {
                    return self.kind_at(place);
                }
                character_kind(tables, character)
            }
        }
    }
}

/// A byte whose runs may form spans.
pub(crate) fn is_marker(options: &ParseOptions, byte: u8) -> bool
    ensures { result ≡ is_marker options.now byte }
{
    (options.constructs.attention && (byte == b'*' || byte == b'_'))
        || (options.constructs.gfm_strikethrough && byte == b'~')
        || (options.constructs.mark && byte == b'=')
}

/// The kind of a character.
pub(crate) fn character_kind<T: Tables>(tables: &T, character: char) -> Kind
    ensures kind { result ≡ character_kind (T.punctuation_of tables.now) character }
    ensures scalar { character < 1114112 }
{
    if character.is_whitespace() {
        return Kind::Whitespace;
    }
    if tables.is_punctuation(character) {
        Kind::Punctuation
    } else {
        Kind::Other
    }
}

/// The last character of a text.
fn last_character(text: &str) -> Option<char>
    ensures last { MatchOption result (length text.now ≡ 0) (EndsWith text.now) }
    ensures bytes { (k : ℕ) → slice_index text.now k < 256 }
{
    text.chars().next_back()
}

/// The kind of the character that a rest of a content begins with, given that after the content.
pub fn first_kind<T: Tables>(tables: &T, after: Kind, rest: &str) -> Kind
    ensures { result ≡ first_kind (T.punctuation_of tables.now) after (line_rest (content_codes rest.now)) }
{
    match rest.chars().next() {
        None => after,
        Some(character) => character_kind(tables, character),
    }
}
