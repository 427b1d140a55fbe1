//! The program, with the words of the process.
ghost use Rattle.std.specs.Prelude.{◌≡◌, IfErr, IfOk, drop, false};
ghost use Rattle.std.specs.IoError.{error_kind};
ghost use Rattle.markdown_settings.specs.Settings.{word_texts};
ghost use Rattle.markdown_devices.specs.Program.{Complains, Runs};
ghost use Rattle.markdown_devices.specs.Statuses.{unread_fault};
ghost use Rattle.markdown_devices.specs.Watched.{has_failed};

use crate::command::program;
use markdown_devices::words::{after_name, unread_fault};
use markdown_devices::{Watched, end};
use std::io::{self, Read, Write};
use std::rt::Files;

/// Runs [`program`] with the words of the process, and returns its exit status. The first word is
/// the program's name.
///
/// If the system gives no words, nothing is read or written. The fault is then a wrong command
/// line, or `out of memory`.
pub fn start<S: Files + AllocGlobal, R: Read, W: Write, F: Write>(
    rt: &S,
    words: io::Result<Vec<String>>,
    reader: &mut Watched<R>,
    writer: &mut Watched<W>,
    faults: &mut Watched<F>,
) -> u8
    requires reader { has_failed reader.old ≡ false }
    requires writer { has_failed writer.old ≡ false }
    requires faults { has_failed faults.old ≡ false }
    ensures runs { IfOk words (λ words. Runs (word_texts (drop 1 words.items)) S.File.Read.remaining R.remaining W.contents F.contents
        reader.old reader.new writer.old writer.new faults.old faults.new result) }
    ensures refused { IfErr words (λ error. (reader.new ≡ reader.old) × (writer.new ≡ writer.old)
        × Complains F.contents faults.old faults.new result (unread_fault (error_kind error))) }
{
    match words {
        Ok(words) => program(rt, after_name(&words), reader, writer, faults),
        Err(error) => end(faults, &Err(unread_fault(error.kind()))),
    }
}
