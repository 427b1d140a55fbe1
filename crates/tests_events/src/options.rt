//! Options of printing by letters.
use html_safe_page::TagTable;
use markdown_compile_options::CompileOptions;
use markdown_options::LineEnding;
use std::alloc::Global;

/// The options that letters stand for, which the README lists.
pub fn options_of(alloc: Global, letters: &str) -> CompileOptions {
    CompileOptions {
        allow_dangerous_html: letters.contains('h'),
        allow_dangerous_protocol: letters.contains('p'),
        allow_any_img_src: letters.contains('i'),
        allow_listed_html: letters.contains('l'),
        gfm_tagfilter: letters.contains('t'),
        gfm_task_list_item_checkable: letters.contains('c'),
        default_line_ending: ending_of(letters),
        heading_ids: letters.contains('d'),
        heading_id_prefix: text(alloc, letters, 'x', "x-"),
        lazy_images: letters.contains('z'),
        link_base: text(alloc, letters, 'b', "/b/"),
        link_rel: text(alloc, letters, 'e', "nofollow ugc"),
        ..CompileOptions::default()
    }
}

/// The text of an option, if its letter is given. Without memory there is none, and the pages are then wrong.
fn text(alloc: Global, letters: &str, letter: char, text: &str) -> Option<String> {
    if letters.contains(letter) {
        String::from_str(alloc, text).ok()
    } else {
        None
    }
}

fn ending_of(letters: &str) -> LineEnding {
    if letters.contains('r') {
        LineEnding::CarriageReturn
    } else if letters.contains('w') {
        LineEnding::CarriageReturnLineFeed
    } else {
        LineEnding::LineFeed
    }
}

/// Whether all pages by these letters are safe.
pub fn are_safe(letters: &str) -> bool {
    !letters.contains('h')
        && !letters.contains('p')
        && !letters.contains('i')
        && !letters.contains('l')
}

/// The table of tags by which pages by these letters are safe.
pub fn table_of(letters: &str) -> TagTable {
    if letters.contains('d') || letters.contains('z') || letters.contains('e') {
        TagTable::Extended
    } else {
        TagTable::Basic
    }
}
