//! Labels in the form in which they match (CommonMark 6.3).
//!
//! Two labels match if they have the same words after their case is folded.
ghost use Rattle.std.specs.Prelude.{◌≡◌, ◌++◌, IfErr, IfOk, IsAscii, OnOk, string_bytes};
ghost use Rattle.markdown_options.specs.Messages.{IsOutOfMemory};
ghost use Rattle.definition_text.specs.Content.{content_codes};
ghost use Rattle.definition_inline.specs.LabelMatch.{case_fold, fold_word, normal_label};
ghost use Rattle.inline_labels.specs.Chunks.{replacement_of};

use crate::words::Words;
use caseless::Caseless;
use markdown_options::Message;
use std::alloc::{AllocError, Allocator};

/// Sets `normal` to the form in which a label matches (CommonMark 6.3): its case folded in full, no
/// white space at the ends, and one space for white space inside. The label is the bytes between
/// its brackets.
pub fn normalize_label<A: Allocator>(normal: &mut String<A>, label: &[u8]) -> Result<(), AllocError>
    ensures { OnOk result (string_bytes normal.new ≡ normal_label (content_codes label.now)) }
{
    normal.clear();
    let mut separator = "";
    for word in Words::new(label) {
        normal.push_str(separator)?;
        push_word(normal, word)?;
        separator = " ";
    }
    Ok(())
}

/// Returns the form in which a label matches (CommonMark 6.3): its case folded in full, no white
/// space at the ends, and one space for white space inside. The value is the text between its
/// brackets. The only error is `out of memory`.
pub fn normalize_identifier<A: Allocator>(alloc: A, value: &str) -> Result<String<A>, Message>
    ensures text { IfOk result (λ text. string_bytes text ≡ normal_label (content_codes value.now)) }
    ensures memory { IfErr result IsOutOfMemory }
{
    let mut normal = String::with_capacity(alloc, value.len())?;
    normalize_label(&mut normal, value.as_bytes())?;
    Ok(normal)
}

/// Appends a word with its case folded, and U+FFFD for bytes that aren't UTF-8.
fn push_word<A: Allocator>(normal: &mut String<A>, word: &[u8]) -> Result<(), AllocError>
    ensures { OnOk result (string_bytes normal.new ≡ string_bytes normal.old ++ fold_word word.now) }
{
    if word.is_ascii() {
        return push_ascii(normal, word);
    }
    for chunk in word.utf8_chunks() {
        push_chunk(normal, chunk.valid(), chunk.invalid())?;
    }
    Ok(())
}

/// Appends an ASCII word with its case folded.
fn push_ascii<A: Allocator>(normal: &mut String<A>, word: &[u8]) -> Result<(), AllocError>
    requires { IsAscii word.now }
    ensures { OnOk result (string_bytes normal.new ≡ string_bytes normal.old ++ fold_word word.now) }
{
    for byte in word {
        normal.push(char::from(byte.to_ascii_lowercase()))?;
    }
    Ok(())
}

/// Appends a text with its case folded, and U+FFFD for the bytes after it that aren't UTF-8.
fn push_chunk<A: Allocator>(
    normal: &mut String<A>,
    text: &str,
    no_text: &[u8],
) -> Result<(), AllocError>
    ensures { OnOk result (string_bytes normal.new ≡ string_bytes normal.old ++ (case_fold text.now ++ replacement_of no_text.now)) }
{
    push_folded(normal, text)?;
    if no_text.is_empty() {
        Ok(())
    } else {
        normal.push(char::REPLACEMENT_CHARACTER)
    }
}

/// Appends a text with its case folded in full.
fn push_folded<A: Allocator>(normal: &mut String<A>, text: &str) -> Result<(), AllocError>
    ensures { OnOk result (string_bytes normal.new ≡ string_bytes normal.old ++ case_fold text.now) }
{
    normal.extend(text.chars().default_case_fold())
}
