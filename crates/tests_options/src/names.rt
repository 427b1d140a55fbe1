//! Tables of a caller.
ghost use Rattle.tests_options.specs.Names.{stands_for};
ghost use Rattle.std.specs.Char.{is_ascii_punctuation};
ghost use Rattle.std.proofs.Common.{rules};
ghost use Rattle.std.proofs.lemmas.Grind.{common_steps};
ghost use Rattle.std.proofs.lemmas.Slice.Eq.{bytes_eq-Decides};
ghost use Rattle.std.proofs.lemmas.Str.{IsUtf8-from_ascii};

use markdown_options::Tables;

/// Tables with the names `and`, `q` and `j`, for `&`, `"` and `ja`, and ASCII punctuation.
pub struct Names;

impl Tables for Names {
    ghost reference_of = { λ _ name. stands_for name };

    ghost punctuation_of = { λ _ code. is_ascii_punctuation code };

    fn reference(&self, name: &str) -> Option<&str> {
        if name == "and" {
            Some("&")
        } else if name == "q" {
            Some("\"")
        } else if name == "j" {
            Some("ja")
        } else {
            None
        }
    }

    fn is_punctuation(&self, character: char) -> bool {
        character.is_ascii_punctuation()
    }

    ghost reference_named = { Prim.search (rules, common_steps, bytes_eq-Decides) };

    ghost reference_nonempty = { Prim.search (rules, common_steps, bytes_eq-Decides) };

    ghost reference_utf8 = { Prim.search (rules, common_steps, bytes_eq-Decides, IsUtf8-from_ascii) };

    ghost punctuation_ascii = { λ _ _ given. given };

    ghost alphanumeric_ascii = { Prim.search (rules, common_steps) };
}
