//! Texts as they are written in files: control characters, and spaces before line endings, have pictures.
use std::alloc::AllocError;

/// The picture of ESC, which begins the number of a character.
const ESCAPE: char = '\u{241B}';

/// Adds a file, with the characters that its pictures and numbers stand for. Returns whether each
/// number is one.
pub fn add_decoded(file: &mut String, source: &str) -> Result<bool, AllocError> {
    for (place, part) in source.split(ESCAPE).enumerate() {
        let plain = if place == 0 {
            part
        } else {
            let Some((character, plain)) = character_of(part) else {
                return Ok(false);
            };
            file.push(character)?;
            plain
        };
        add_pictured(file, plain)?;
    }
    Ok(true)
}

/// The character whose hexadecimal number a text begins with, and what follows the semicolon.
fn character_of(text: &str) -> Option<(char, &str)> {
    let (digits, rest) = text.split_once(';')?;
    let number = u32::from_str_radix(digits, 16).ok()?;
    Some((char::from_u32(number)?, rest))
}

/// Adds a text, with the characters that its pictures stand for.
fn add_pictured(file: &mut String, text: &str) -> Result<(), AllocError> {
    for character in text.chars() {
        file.push(of_picture(character))?;
    }
    Ok(())
}

/// The control character or the space that a picture stands for (U+2400 to U+2421), or the character
/// itself.
fn of_picture(character: char) -> char {
    let code = u32::from(character);
    if code == 0x2421 {
        '\u{7F}'
    } else if code >= 0x2400 && code <= 0x2420 {
        char::from_u32(code - 0x2400).unwrap_or(character)
    } else {
        character
    }
}
