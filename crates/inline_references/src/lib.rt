//! Character references (CommonMark 2.5).
//!
//!     reference ::= '&' name ';' | '&#' digit{1,7} ';' | '&#' ('x' | 'X') hexadecimal{1,6} ';'
//!     name      ::= (letter | digit){1,31}
//!
//! The caller's tables have the names. The marker, a byte, tells how a value is written: `&` for a
//! name, `#` for decimal digits, `x` for hexadecimal digits.
#![tactic(auto)]

pub mod builtin;
pub mod decode;
pub mod laws;
pub mod parse;
pub mod reference;
pub mod value;

pub use builtin::builtin_reference;
pub use decode::{decode_named, decode_numeric, push_value};
pub use parse::push_decoded;
pub use reference::{CharacterReference, Reference, character_reference, reference_at};
pub use value::{character_of, numeric_character, value_max, value_test};
