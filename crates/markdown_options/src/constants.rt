//! Limits and names that the constructs share. Sizes are in bytes.

/// The maximum size of an autolink's scheme (CommonMark 6.5).
pub const AUTOLINK_SCHEME_SIZE_MAX: usize = 32;

/// The maximum size of a label between the dots of an email autolink's domain (CommonMark 6.5).
pub const AUTOLINK_DOMAIN_SIZE_MAX: usize = 63;

/// The maximum number of digits of a decimal character reference, such as `&#35;` (CommonMark 2.5).
pub const CHARACTER_REFERENCE_DECIMAL_SIZE_MAX: usize = 7;

/// The maximum number of digits of a hexadecimal character reference, such as `&#x22;`
/// (CommonMark 2.5).
pub const CHARACTER_REFERENCE_HEXADECIMAL_SIZE_MAX: usize = 6;

/// The maximum size of the name of a character reference, such as `&amp;` (CommonMark 2.5).
pub const CHARACTER_REFERENCE_NAMED_SIZE_MAX: usize = 31;

/// The fewest backticks or tildes of a code fence (CommonMark 4.5).
pub const CODE_FENCED_SEQUENCE_SIZE_MIN: usize = 3;

/// The columns of indentation that make a line indented code, and that the content of a footnote
/// definition has (CommonMark 4.4).
pub const CODE_INDENT: usize = 4;

/// The number of markers of a frontmatter fence.
pub const FRONTMATTER_SEQUENCE_SIZE: usize = 3;

/// The maximum size of a name in [`GFM_HTML_TAGFILTER_NAMES`] (GFM 6.11).
pub const GFM_HTML_TAGFILTER_SIZE_MAX: usize = 9;

/// The fewest trailing spaces of a hard line break (CommonMark 6.7).
pub const HARD_BREAK_PREFIX_SIZE_MIN: usize = 2;

/// The maximum number of `#` that open an ATX heading (CommonMark 4.2).
pub const HEADING_ATX_OPENING_FENCE_SIZE_MAX: usize = 6;

/// The maximum size of a name in [`HTML_RAW_NAMES`] (CommonMark 4.6).
pub const HTML_RAW_SIZE_MAX: usize = 8;

/// The maximum size of a link label, without line endings and the spaces and tabs right after one
/// (CommonMark 6.3).
pub const LINK_REFERENCE_SIZE_MAX: usize = 999;

/// The maximum number of digits of an ordered item's number (CommonMark 5.2).
pub const LIST_ITEM_VALUE_SIZE_MAX: usize = 9;

/// The fewest dollars of a fence of math.
pub const MATH_FLOW_SEQUENCE_SIZE_MIN: usize = 2;

/// The maximum number of parentheses that may be open at once in a link's destination, if no
/// angle brackets are around it (CommonMark 6.3).
pub const RESOURCE_DESTINATION_BALANCE_MAX: usize = 32;

/// The columns between two tab stops (CommonMark 2.2).
pub const TAB_SIZE: usize = 4;

/// The fewest markers of a thematic break (CommonMark 4.1).
pub const THEMATIC_BREAK_MARKER_COUNT_MIN: usize = 3;

/// The bytes after `<![` at the start of CDATA (CommonMark 4.6 and 6.6).
pub const HTML_CDATA_PREFIX: [u8; 6] = *b"CDATA[";

/// The elements whose HTML block runs to a closing tag, in lower case (CommonMark 4.6, kind 1).
pub const HTML_RAW_NAMES: [&str; 4] = ["pre", "script", "style", "textarea"];

/// The names before which the tag filter prints `<` as `&lt;`, in lower case (GFM 6.11).
pub const GFM_HTML_TAGFILTER_NAMES: [&str; 9] = [
    "title",
    "textarea",
    "style",
    "xmp",
    "iframe",
    "noembed",
    "noframes",
    "script",
    "plaintext",
];

/// The protocols of links that are permitted by default, in lower case.
pub const SAFE_PROTOCOL_HREF: [&str; 6] = ["http", "https", "irc", "ircs", "mailto", "xmpp"];

/// The protocols of images that are permitted by default, in lower case.
pub const SAFE_PROTOCOL_SRC: [&str; 2] = ["http", "https"];

/// The elements whose HTML block runs to a blank line, in lower case (CommonMark 4.6, kind 6).
pub const HTML_BLOCK_NAMES: [&str; 62] = [
    "address",
    "article",
    "aside",
    "base",
    "basefont",
    "blockquote",
    "body",
    "caption",
    "center",
    "col",
    "colgroup",
    "dd",
    "details",
    "dialog",
    "dir",
    "div",
    "dl",
    "dt",
    "fieldset",
    "figcaption",
    "figure",
    "footer",
    "form",
    "frame",
    "frameset",
    "h1",
    "h2",
    "h3",
    "h4",
    "h5",
    "h6",
    "head",
    "header",
    "hr",
    "html",
    "iframe",
    "legend",
    "li",
    "link",
    "main",
    "menu",
    "menuitem",
    "nav",
    "noframes",
    "ol",
    "optgroup",
    "option",
    "p",
    "param",
    "search",
    "section",
    "summary",
    "table",
    "tbody",
    "td",
    "tfoot",
    "th",
    "thead",
    "title",
    "tr",
    "track",
    "ul",
];
