//! Runs of one byte at the front of a text.
ghost use Rattle.std.specs.Prelude.{◌≡◌, ◌==◌, ◌<◌, not};
ghost use Rattle.std.specs.List.{list_all};
ghost use Rattle.definition_text.specs.Runs.{run as run_of, after_run, is_run as is_run_of};

use crate::bytes::is_blank;
use crate::front::run;

/// Returns whether a text is a run of at least `least` of a byte, followed only by spaces and tabs.
pub fn is_run(least: usize, byte: u8, bytes: &[u8]) -> bool
    ensures { result ≡ is_run_of least byte bytes.now }
{
    let count = run(byte, bytes);
    count >= least && is_blank(&bytes[count..])
}

/// How many of a byte a text begins with, and what follows them.
pub fn split_run(byte: u8, text: &str) -> (usize, &str)
    requires { byte < 128 }
    ensures count { result.0 ≡ run_of byte text.now }
    ensures rest { result.1.now ≡ after_run byte text.now }
{
    let count = run(byte, text.as_bytes());
    (count, &text[count..])
}

/// Returns whether a text doesn't contain a byte.
pub fn lacks(byte: u8, bytes: &[u8]) -> bool
    ensures { result ≡ list_all (λ b. not (b == byte)) bytes.now }
{
    bytes.iter().all(|b| *b != byte)
}
