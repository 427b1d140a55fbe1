//! Characters of a text: what kind they are, and how they are shown in messages.
ghost use Rattle.std.specs.Prelude.{◌≡◌, ◌<◌, ◌^◌, ◌++◌, [], ◌∷◌, take, drop, slice_get, IsUtf8, IfErr, IfOk, OnOk, string_bytes};
ghost use Rattle.std.specs.Str.{IsCharBoundary, chars};
ghost use Rattle.markdown_options.specs.Messages.{IsOutOfMemory};
ghost use Rattle.definition_text.specs.InlineCode.{character_kind};
ghost use Rattle.engine_text.specs.Characters.{IsLast, kind_of_any};
ghost use Rattle.engine_text.specs.CharacterTexts.{hex_digit, code_text, character_text, text_or_end};

pub use markdown_options::Kind;
use markdown_options::{Message, Tables};
use std::alloc::{AllocError, Allocator};

/// The character that ends at an index.
pub fn before_index(bytes: &[u8], index: usize) -> Option<char>
    requires text { IsUtf8 bytes.now }
    requires boundary { IsCharBoundary bytes.now index }
    ensures { IsLast (take index bytes.now) result }
{
    let text = unsafe { str::from_utf8_unchecked(bytes) };
    text[..index].chars().next_back()
}

/// The character that begins at an index.
pub fn after_index(bytes: &[u8], index: usize) -> Option<char>
    requires text { IsUtf8 bytes.now }
    requires boundary { IsCharBoundary bytes.now index }
    ensures { result ≡ slice_get (chars (drop index bytes.now)) 0 }
{
    let text = unsafe { str::from_utf8_unchecked(bytes) };
    text[index..].chars().next()
}

/// The kind of the character that begins at an index.
pub fn kind_after_index<T: Tables>(bytes: &[u8], index: usize, tables: &T) -> Kind
    requires text { IsUtf8 bytes.now }
    requires boundary { IsCharBoundary bytes.now index }
    ensures { result ≡ kind_of_any (T.punctuation_of tables.now) (slice_get (chars (drop index bytes.now)) 0) }
{
    classify_opt(after_index(bytes, index), tables)
}

/// The kind of a character (CommonMark 2.1).
pub fn classify<T: Tables>(character: char, tables: &T) -> Kind
    ensures { result ≡ character_kind (T.punctuation_of tables.now) character }
{
    if character.is_whitespace() {
        Kind::Whitespace
    } else if tables.is_punctuation(character) {
        Kind::Punctuation
    } else {
        Kind::Other
    }
}

/// The kind of a character; no character counts as white space (CommonMark 6.2).
pub fn classify_opt<T: Tables>(character: Option<char>, tables: &T) -> Kind
    ensures { result ≡ kind_of_any (T.punctuation_of tables.now) character }
{
    match character {
        Some(character) => classify(character, tables),
        None => Kind::Whitespace,
    }
}

/// Shows a character by its code, and by itself if it can be seen, as `` `a` (U+0061) ``.
pub fn format<A: Allocator>(alloc: A, character: char) -> Result<String<A>, Message>
    ensures text { IfOk result (λ text. string_bytes text ≡ character_text character) }
    ensures memory { IfErr result IsOutOfMemory }
{
    Ok(character_text(alloc, character as u32)?)
}

/// Shows a character, or `end of file`.
pub fn format_opt<A: Allocator>(alloc: A, character: Option<char>) -> Result<String<A>, Message>
    ensures text { IfOk result (λ text. string_bytes text ≡ text_or_end character) }
    ensures memory { IfErr result IsOutOfMemory }
{
    match character {
        Some(character) => format(alloc, character),
        None => Ok(String::from_str(alloc, END)?),
    }
}

/// Shows a byte as the character of that code.
pub fn format_byte<A: Allocator>(alloc: A, byte: u8) -> Result<String<A>, Message>
    ensures text { IfOk result (λ text. string_bytes text ≡ character_text byte) }
    ensures memory { IfErr result IsOutOfMemory }
{
    Ok(character_text(alloc, u32::from(byte))?)
}

/// Shows a byte, or `end of file`.
pub fn format_byte_opt<A: Allocator>(alloc: A, byte: Option<u8>) -> Result<String<A>, Message>
    ensures text { IfOk result (λ text. string_bytes text ≡ text_or_end byte) }
    ensures memory { IfErr result IsOutOfMemory }
{
    match byte {
        Some(byte) => format_byte(alloc, byte),
        None => Ok(String::from_str(alloc, END)?),
    }
}

const END: &str = "end of file";

/// A code, and the character itself between backticks if it can be seen.
fn character_text<A: Allocator>(alloc: A, code: u32) -> Result<String<A>, AllocError>
    requires { code < 2 ^ 24 }
    ensures { IfOk result (λ text. string_bytes text ≡ character_text code) }
{
    let mut text = String::new(alloc);
    if code < 33 || code > 126 {
        push_code(&mut text, code)?;
        return Ok(text);
    }
    if code == 96 {
        text.push_str("`` ` `` (")?;
    } else {
        text.push_str("`")?;
        text.push(code as u8 as char)?;
        text.push_str("` (")?;
    }
    push_code(&mut text, code)?;
    text.push_str(")")?;
    Ok(text)
}

/// Adds `U+` and a code in hexadecimal, of at least four digits.
fn push_code<A: Allocator>(text: &mut String<A>, code: u32) -> Result<(), AllocError>
    requires { code < 2 ^ 24 }
    ensures { OnOk result (string_bytes text.new ≡ string_bytes text.old ++ code_text code) }
{
    text.push_str("U+")?;
    if code >= 0x10_0000 {
        push_digit(text, code / 0x10_0000)?;
    }
    if code >= 0x1_0000 {
        push_digit(text, code / 0x1_0000)?;
    }
    push_digit(text, code / 0x1000)?;
    push_digit(text, code / 0x100)?;
    push_digit(text, code / 0x10)?;
    push_digit(text, code)
}

/// Adds the last hexadecimal digit of a number.
fn push_digit<A: Allocator>(text: &mut String<A>, number: u32) -> Result<(), AllocError>
    ensures { OnOk result (string_bytes text.new ≡ string_bytes text.old ++ hex_digit number ∷ []) }
{
    let digit = (number % 16) as u8;
    let byte = if digit < 10 {
        b'0' + digit
    } else {
        b'A' + (digit - 10)
    };
    text.push(byte as char)
}
