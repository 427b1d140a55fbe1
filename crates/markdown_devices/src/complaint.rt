//! What is printed of a fault.
ghost use Rattle.std.specs.Prelude.{◌≡◌, [], OnOk, MatchResult, is_err, false, decimal};
ghost use Rattle.std.specs.Option.{option_map_or};
ghost use Rattle.std.specs.Io.KnownBytes.{Appends};
ghost use Rattle.markdown_devices.specs.Complaints.{complaint};
ghost use Rattle.markdown_devices.specs.Program.{Complains};
ghost use Rattle.markdown_devices.specs.Watched.{device, has_failed};

use crate::fault::Fault;
use crate::run_error::RunError;
use crate::watched::Watched;
use crate::write::write_all;
use itoa::Buffer;
use std::io::Write;

/// Returns the status of an outcome, and prints a fault as one line to `faults`.
pub fn end<F: Write>(faults: &mut Watched<F>, outcome: &Result<(), Fault>) -> u8
    requires { has_failed faults.old ≡ false }
    ensures { MatchResult outcome.now (λ _. (result ≡ 0) × (faults.new ≡ faults.old)) (Complains F.contents faults.old faults.new result) }
{
    match outcome {
        Ok(()) => 0,
        Err(fault) => {
            let _ = complain(faults, fault);
            fault.status()
        }
    }
}

/// Prints a fault in one line.
fn complain<F: Write>(faults: &mut Watched<F>, fault: &Fault) -> Result<(), RunError>
    requires { has_failed faults.old ≡ false }
    ensures line { OnOk result (Appends (F.contents (device faults.old)) (F.contents (device faults.new)) (complaint fault.now)) }
    ensures failed { has_failed faults.new ≡ is_err result }
{
    write_all(faults, b"markdown: ")?;
    write_all(faults, fault.words().as_bytes())?;
    write_number(faults, fault.line())?;
    write_all(faults, b"\n")
}

/// Writes a number, if there is one.
fn write_number<F: Write>(faults: &mut Watched<F>, number: Option<usize>) -> Result<(), RunError>
    requires { has_failed faults.old ≡ false }
    ensures digits { OnOk result (Appends (F.contents (device faults.old)) (F.contents (device faults.new)) (option_map_or decimal number [])) }
    ensures failed { has_failed faults.new ≡ is_err result }
{
    match number {
        Some(number) => write_all(faults, Buffer::new().format(number).as_bytes()),
        None => Ok(()),
    }
}
