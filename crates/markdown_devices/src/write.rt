//! What is written to a writer.
ghost use Rattle.std.specs.Prelude.{◌≡◌, ◌||◌, IfErr, OnOk, is_ok, is_err, true, false};
ghost use Rattle.std.specs.Io.KnownBytes.{Appends, Keeps};
ghost use Rattle.markdown_devices.specs.Watched.{device, has_failed, has_stopped, has_flushed, has_flush_failed};
ghost use Rattle.markdown_devices.specs.Faults.{is_write_error, write_stopped};
ghost use Rattle.markdown_devices.specs.Program.{WritesText};
ghost use Rattle.markdown_devices.specs.Statuses.{is_write_fault};
ghost use Rattle.markdown_devices.specs.Transfer.{AppendsBeginning};

use crate::fault::Fault;
use crate::run_error::RunError;
use crate::watched::Watched;
use std::io::Write;

/// Writes all of these bytes.
pub fn write_all<W: Write>(writer: &mut Watched<W>, bytes: &[u8]) -> Result<(), RunError>
    requires { has_failed writer.old ≡ false }
    ensures ok { OnOk result (Appends (W.contents (device writer.old)) (W.contents (device writer.new)) bytes.now) }
    ensures beginning { AppendsBeginning (W.contents (device writer.old)) (W.contents (device writer.new)) bytes.now }
    ensures write { has_failed writer.new ≡ is_err result }
    ensures stopped { has_stopped writer.new ≡ (has_stopped writer.old || write_stopped result) }
    ensures unflushed { has_flushed writer.old ≡ false → has_flushed writer.new ≡ false }
    ensures flush_failed { has_flush_failed writer.new ≡ has_flush_failed writer.old }
    ensures only { IfErr result (λ e. is_write_error e ≡ true) }
{
    let mut at = 0;
    while at < bytes.len() {
        match writer.write(&bytes[at..]) {
            Ok(0) => return Err(RunError::Stopped),
            Ok(n) => at += n,
            Err(error) => return Err(RunError::Write(error)),
        }
    }
    Ok(())
}

/// Prints a text, and flushes it.
pub fn answer<W: Write>(writer: &mut Watched<W>, text: &str) -> Result<(), Fault>
    requires { has_failed writer.old ≡ false }
    ensures text { WritesText W.contents writer.old writer.new (is_ok result) text.now }
    ensures fault { IfErr result (λ fault. is_write_fault fault ≡ true) }
{
    write_all(writer, text.as_bytes()).map_err(Fault::Run)?;
    flush(writer)
}

/// Flushes a writer.
pub fn flush<W: Write>(writer: &mut Watched<W>) -> Result<(), Fault>
    ensures bytes { Keeps (W.contents (device writer.old)) (W.contents (device writer.new)) }
    ensures failed { has_failed writer.new ≡ has_failed writer.old }
    ensures flushed { has_flushed writer.new ≡ is_ok result }
    ensures flush_failed { has_flush_failed writer.new ≡ is_err result }
    ensures fault { IfErr result (λ fault. is_write_fault fault ≡ true) }
{
    writer
        .flush()
        .map_err(|error| Fault::Run(RunError::Write(error)))
}
