//! The codes of a content (CommonMark 2.1): a byte, or the one code of a line ending.
//!
//!     ending ::= CR LF | CR | LF
ghost use Rattle.std.specs.Prelude.{◌≡◌, [], MatchOption, drop};
ghost use Rattle.definition_text.specs.Columns.{is_white};
ghost use Rattle.definition_text.specs.Content.{content_codes, is_eol, is_space, may_escape, at_line_start};
ghost use Rattle.inline_links.specs.Codes.{ReadsCode};

const TAB: u16 = b'\t' as u16;

const LINE_FEED: u16 = b'\n' as u16;

const CARRIAGE_RETURN: u16 = b'\r' as u16;

const SPACE: u16 = b' ' as u16;

const BACKSLASH: u16 = b'\\' as u16;
/// A column that is left of a tab which a container's prefix ended in.
const TAB_COLUMN: u16 = 256;
/// The line ending CR LF.
const RETURN_AND_FEED: u16 = 257;

/// A code of a content, and where the next one begins.
#[derive(Clone, Copy)]
pub struct Code {
    /// The byte, or 257 for CR LF.
    pub code: u16,
    /// The byte offset of the next code.
    pub next: usize,
}

/// The code that begins at a place of a content; at its end there is none (CommonMark 2.1).
pub fn next_code(content: &[u8], at: usize) -> Option<Code>
    ensures { MatchOption result (content_codes (drop at content.now) ≡ []) (λ read. ReadsCode content.now at read) }
{
    if at >= content.len() {
        return None;
    }
    let byte = content[at];
    if byte == b'\r' && at + 1 < content.len() && content[at + 1] == b'\n' {
        return Some(Code {
            code: RETURN_AND_FEED,
            next: at + 2,
        });
    }
    Some(Code {
        code: u16::from(byte),
        next: at + 1,
    })
}

/// A space or a tab (CommonMark 2.1).
pub fn is_white(code: u16) -> bool
    ensures { result ≡ is_white code }
{
    code == SPACE || code == TAB || code == TAB_COLUMN
}

/// A line ending (CommonMark 2.1).
pub fn is_eol(code: u16) -> bool
    ensures { result ≡ is_eol code }
{
    code == LINE_FEED || code == CARRIAGE_RETURN || code == RETURN_AND_FEED
}

/// A space, a tab or a line ending (CommonMark 2.1).
pub fn is_space(code: u16) -> bool
    ensures { result ≡ is_space code }
{
    is_white(code) || is_eol(code)
}

/// Whether a code is a backslash that may escape the next one (CommonMark 2.4), given whether the
/// code before it was.
pub fn may_escape(escaped: bool, code: u16) -> bool
    ensures { result ≡ may_escape escaped code }
{
    code == BACKSLASH && !escaped
}

/// Whether only spaces and tabs stand between the last line ending and the place after a code,
/// given the same for the place before it (CommonMark 4.9).
pub fn at_line_start(start: bool, code: u16) -> bool
    ensures { result ≡ at_line_start start code }
{
    is_eol(code) || (start && is_white(code))
}
