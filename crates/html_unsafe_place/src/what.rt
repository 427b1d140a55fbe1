//! What isn't safe.
ghost use Rattle.std.specs.Prelude.{◌≡◌};
ghost use Rattle.std.specs.List.{list_any, take_while};
ghost use Rattle.std.specs.Str.{bytes_eq};
ghost use Rattle.html_unsafe_place.specs.What.{unsafe_at, unsafe_tag, is_name_byte, is_tag_name};

/// What is in a page that isn't safe, at the first such place.
#[derive(Clone, Copy)]
pub enum Unsafe {
    /// A `"` outside tags.
    QuotationMark,
    /// A `>` outside tags.
    GreaterThan,
    /// An `&` that begins none of the four references.
    Ampersand,
    /// A `<` before neither a letter, a digit nor `/`, as that of a comment or a declaration.
    LessThan,
    /// An end tag that doesn't end the innermost open element.
    EndTag,
    /// A tag with a name that no tag of a safe page has.
    TagName,
    /// A tag with other attributes, other values or other spaces than in a safe page.
    Attributes,
    /// The end of the page, where elements are open.
    OpenElements,
}

impl Unsafe {
    /// Words for a reader.
    pub fn words(self) -> &'static str {
        match self {
            Unsafe::QuotationMark => "a quotation mark that isn't written as &quot;",
            Unsafe::GreaterThan => "a > that isn't written as &gt;",
            Unsafe::Ampersand => "an & that begins none of &amp; &quot; &lt; &gt;",
            Unsafe::LessThan => "a < that begins no tag",
            Unsafe::EndTag => "an end tag that doesn't end the innermost open element",
            Unsafe::TagName => "a tag that no safe page has",
            Unsafe::Attributes =>
                "a tag with attributes, values or spaces that it has in no safe page",
            Unsafe::OpenElements => "the end of the page, where elements are open",
        }
    }
}

/// What is at the first place that isn't safe, by the bytes from there on.
pub(crate) fn unsafe_at(bytes: &[u8]) -> Unsafe
    ensures { result ≡ unsafe_at bytes.now }
{
    match bytes {
        [] => Unsafe::OpenElements,
        [b'"', ..] => Unsafe::QuotationMark,
        [b'>', ..] => Unsafe::GreaterThan,
        [b'<', tag @ ..] => unsafe_tag(tag),
        _ => Unsafe::Ampersand,
    }
}

/// What isn't safe of a tag, by the bytes after its `<`.
fn unsafe_tag(bytes: &[u8]) -> Unsafe
    ensures { result ≡ unsafe_tag bytes.now }
{
    if bytes.starts_with(b"/") {
        return Unsafe::EndTag;
    }
    let name = name_of(bytes);
    if name.is_empty() {
        Unsafe::LessThan
    } else if is_tag_name(name) {
        Unsafe::Attributes
    } else {
        Unsafe::TagName
    }
}

/// The letters and digits that come first.
fn name_of(bytes: &[u8]) -> &[u8]
    ensures { result.now ≡ take_while is_name_byte bytes.now }
{
    for (i, byte) in bytes.iter().enumerate() {
        if !byte.is_ascii_alphanumeric() {
            return &bytes[..i];
        }
    }
    bytes
}

/// The names of the tags of safe pages.
const TAG_NAMES: [&str; 30] = [
    "a",
    "blockquote",
    "br",
    "code",
    "del",
    "em",
    "h1",
    "h2",
    "h3",
    "h4",
    "h5",
    "h6",
    "hr",
    "img",
    "input",
    "li",
    "mark",
    "ol",
    "p",
    "pre",
    "section",
    "strong",
    "sup",
    "table",
    "tbody",
    "td",
    "th",
    "thead",
    "tr",
    "ul",
];

/// Whether a safe page may have tags of this name.
fn is_tag_name(name: &[u8]) -> bool
    ensures { result ≡ is_tag_name name.now }
{
    is_one_of(&TAG_NAMES, name)
}

fn is_one_of(names: &[&str], name: &[u8]) -> bool
    ensures { result ≡ list_any (λ n. bytes_eq n.now name.now) names.now }
{
    for one in names {
        if one.as_bytes() == name {
            return true;
        }
    }
    false
}
