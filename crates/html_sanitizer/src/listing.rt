//! Names of the list as they are written, parts of elements, and what holds nothing but parts.
ghost use Rattle.std.specs.Prelude.{◌≡◌, map};
ghost use Rattle.std.specs.Char.{is_ascii_uppercase};
ghost use Rattle.std.specs.List.{list_any};
ghost use Rattle.std.specs.Option.{option_copied};
ghost use Rattle.std.specs.Str.{bytes_eq};
ghost use Rattle.definition_text.specs.Bytes.{lower};
ghost use Rattle.definition_html.specs.Listing.{parents_by, parents_of};
ghost use Rattle.html_safe_page.specs.Views.{names_of};
ghost use Rattle.html_sanitizer.specs.Listing.{found_name, listed_name, row_of};

use html_listed::listing::{FREE_NAMES, HEADING_NAMES, PART_NAMES, VOID_NAMES, is_in};

/// Parts of elements, and the elements that they stand right in.
struct PartRow {
    names: &'static [&'static str],
    parents: &'static [&'static str],
}

const PART_ROWS: [PartRow; 6] = [
    PartRow {
        names: &["li"],
        parents: &["ul", "ol"],
    },
    PartRow {
        names: &["dt", "dd"],
        parents: &["dl"],
    },
    PartRow {
        names: &["rt", "rp"],
        parents: &["ruby"],
    },
    PartRow {
        names: &["caption", "thead", "tbody", "tfoot"],
        parents: &["table"],
    },
    PartRow {
        names: &["tr"],
        parents: &["table", "thead", "tbody", "tfoot"],
    },
    PartRow {
        names: &["td", "th"],
        parents: &["tr"],
    },
];

/// Elements that hold nothing but their parts and text.
pub(crate) const FRAME_NAMES: [&str; 5] = ["table", "thead", "tbody", "tfoot", "tr"];

/// How many raw elements may be open.
pub(crate) const DEEPEST: usize = 50;

/// Whether a written name, in lower case, is this one, which then has no letter in upper case.
pub(crate) fn is_lower(name: &str, written: &str) -> bool
    ensures { result ≡ bytes_eq name.now (lower written.now) }
{
    name.eq_ignore_ascii_case(written) && !has_uppercase(name.as_bytes())
}

fn has_uppercase(bytes: &[u8]) -> bool
    ensures { result ≡ list_any is_ascii_uppercase bytes.now }
{
    bytes.iter().any(|b| b.is_ascii_uppercase())
}

/// The one of these names that a written name is in lower case.
fn find_name(names: &[&'static str], written: &str) -> Option<&'static str>
    ensures { option_copied result ≡ found_name (names_of names.now) written.now }
{
    for name in names {
        if is_lower(name, written) {
            return Some(*name);
        }
    }
    None
}

/// The listed name that a written name is in lower case.
pub(crate) fn listed_name(written: &str) -> Option<&'static str>
    ensures { option_copied result ≡ listed_name written.now }
{
    find_name(&FREE_NAMES, written)
        .or(find_name(&HEADING_NAMES, written))
        .or(find_name(&VOID_NAMES, written))
        .or(find_name(&PART_NAMES, written))
}

/// The elements that a part stands right in; none if it is no part.
pub(crate) fn parents_of(name: &str) -> &'static [&'static str]
    ensures { names_of result.now ≡ parents_of name.now }
{
    parents_by(&PART_ROWS, name)
}

/// The elements that a part stands right in, by these rows.
fn parents_by(rows: &'static [PartRow], name: &str) -> &'static [&'static str]
    ensures { names_of result.now ≡ parents_by (map row_of rows.now) name.now }
{
    for row in rows {
        if is_in(row.names, name) {
            return row.parents;
        }
    }
    &[]
}
