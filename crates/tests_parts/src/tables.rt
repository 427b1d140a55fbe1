//! Names and characters on both sides of the tables.
use markdown_options::Tables;
use markdown_tables::Builtin;

/// Names, and what they stand for.
const NAMES: &[(&str, Option<&str>)] = &[
    ("amp", Some("&")),
    ("ngE", Some("\u{2267}\u{338}")),
    ("amp;", None),
    ("Amp", None),
    ("AMp", None),
    ("", None),
];

/// The first of these names that stands for something else.
fn first_other_name(cases: &[(&'static str, Option<&str>)]) -> Option<&'static str> {
    for (name, want) in cases {
        if Builtin.reference(name) != *want {
            return Some(name);
        }
    }
    None
}

/// Characters, and whether they are punctuation.
const CHARACTERS: &[(char, bool)] = &[
    ('_', true),
    ('$', true),
    ('+', true),
    ('€', true),
    ('£', true),
    ('„', true),
    ('𝄞', true),
    ('a', false),
    (' ', false),
    ('²', false),
    ('é', false),
    ('\u{A0}', false),
];

/// The first of these characters of which the tables say something else.
fn first_other_character(cases: &[(char, bool)]) -> Option<char> {
    for (character, want) in cases {
        if Builtin.is_punctuation(*character) != *want {
            return Some(*character);
        }
    }
    None
}

/// Whether tables know a name by a text.
fn knows<T: Tables>(tables: &T, name: &str, text: &str) -> bool {
    tables.reference(name) == Some(text)
}

#[test]
fn tables(rt: HostRuntime) {
    let other = first_other_name(NAMES);
    assert!(rt; other.is_none(), "NAMES: {other:?}");
    let other = first_other_character(CHARACTERS);
    assert!(rt; other.is_none(), "CHARACTERS: {other:?}");
    assert!(rt;
        knows(&Builtin, "amp", "&") && !knows(&Builtin, "amp", "<"),
        "the trait"
    );
}
