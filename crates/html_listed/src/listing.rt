//! The names of the list, in lower case.
ghost use Rattle.std.specs.Prelude.{◌≡◌};
ghost use Rattle.definition_html.specs.Listing.{is_in, is_listed, heading_names};
ghost use Rattle.html_safe_page.specs.Views.{names_of};

/// Elements that may stand anywhere.
pub const FREE_NAMES: [&str; 39] = [
    "a",
    "abbr",
    "b",
    "bdo",
    "blockquote",
    "cite",
    "code",
    "del",
    "details",
    "dfn",
    "div",
    "dl",
    "em",
    "figcaption",
    "figure",
    "i",
    "ins",
    "kbd",
    "mark",
    "ol",
    "p",
    "picture",
    "pre",
    "q",
    "ruby",
    "s",
    "samp",
    "small",
    "span",
    "strike",
    "strong",
    "sub",
    "summary",
    "sup",
    "table",
    "time",
    "tt",
    "ul",
    "var",
];

/// The headings, which hold no heading.
pub const HEADING_NAMES: [&str; 6] = ["h1", "h2", "h3", "h4", "h5", "h6"];

/// Elements that hold nothing.
pub const VOID_NAMES: [&str; 5] = ["br", "hr", "img", "source", "wbr"];

/// Elements that stand only right in some others.
pub const PART_NAMES: [&str; 12] = [
    "li", "dt", "dd", "rt", "rp", "caption", "thead", "tbody", "tfoot", "tr", "td", "th",
];

/// Attributes without a URL, in the order in which they are printed.
pub const LISTED_ATTRIBUTES: [&str; 17] = [
    "alt", "title", "align", "valign", "width", "height", "colspan", "rowspan", "dir", "lang",
    "start", "reversed", "type", "value", "open", "datetime", "media",
];

/// Whether a name is one of these.
pub fn is_in(names: &[&str], name: &str) -> bool
    ensures { result ≡ is_in (names_of names.now) name.now }
{
    for n in names {
        if *n == name {
            return true;
        }
    }
    false
}

/// Whether a name is that of a heading.
pub fn is_heading(name: &str) -> bool
    ensures { result ≡ is_in heading_names name.now }
{
    name.as_bytes().starts_with(b"h") && is_in(&HEADING_NAMES, name)
}

/// Whether the list has an element of this name.
pub fn is_listed(name: &str) -> bool
    ensures { result ≡ is_listed name.now }
{
    let free = is_in(&FREE_NAMES, name);
    if free {
        return true;
    }
    let heading = is_heading(name);
    if heading {
        return true;
    }
    let void = is_in(&VOID_NAMES, name);
    if void {
        return true;
    }
    is_in(&PART_NAMES, name)
}
