//! Characters by their number (CommonMark 2.5).
ghost use Rattle.std.specs.Prelude.{◌≡◌, ◌^◌, ◌-◌, min};
ghost use Rattle.std.specs.Char.{digit_value};
ghost use Rattle.definition_inline.specs.CharacterReference.{character_of, number_of};

use inline_references::character_of;

/// The character whose number these digits spell, with U+FFFD in place of one that a text may not
/// have (CommonMark 2.5).
#[tactic(auto, using(crate::proofs::Numbers::same_character))]
pub(crate) fn numbered(radix: u32, digits: &[u8]) -> char
    ensures { result ≡ character_of (number_of radix digits.now) }
{
    character_of(number_of(radix, digits))
}

/// The number that digits spell, or the greatest one that fits.
#[tactic(auto, using(crate::proofs::Numbers::stopped_step))]
fn number_of(radix: u32, digits: &[u8]) -> u32
    ensures { result ≡ min (number_of radix digits.now) (2 ^ 32 - 1) }
{
    let mut number: u32 = 0;
    for digit in digits {
        number = number
            .saturating_mul(radix)
            .saturating_add(digit_value(*digit));
    }
    number
}

/// The value of a digit or a letter, and 36 for any other byte.
fn digit_value(byte: u8) -> u32
    ensures { result ≡ digit_value byte }
{
    char::from(byte).to_digit(36).unwrap_or(36)
}
