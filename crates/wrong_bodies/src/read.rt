//! What is read of a reader.
ghost use Rattle.std.specs.Prelude.{◌≡◌, ◌≤◌, ◌||◌, IfOk, IfErr, IfSome, is_ok, false, vec_len};
ghost use Rattle.markdown_devices.specs.Watched.{device, has_failed, has_ended};
ghost use Rattle.markdown_devices.specs.Faults.{is_write_error, is_utf8_error};
ghost use Rattle.markdown_devices.specs.Faults.{read_failed, size_failed};
ghost use Rattle.markdown_devices.specs.Transfer.{RefusesPast};

use markdown_devices::{RunError, SIZE_MAX, Watched};
use std::alloc::Allocator;
use std::io::Read;

/// `markdown_devices::read_all`: a reader that fails is an error, and not the end of the text.
pub fn read_all<A: Allocator + Clone, R: Read>(
    alloc: A,
    reader: &mut Watched<R>,
) -> Result<Vec<u8, A>, RunError>
    requires { has_failed reader.old ≡ false }
    ensures ok { IfOk result (λ bytes. IfSome (R.remaining (device reader.old)) (λ text. bytes.items ≡ text)) }
    ensures fits { IfOk result (λ bytes. vec_len bytes ≤ SIZE_MAX) }
    ensures read { has_failed reader.new ≡ read_failed result }
    ensures end { has_ended reader.new ≡ (has_ended reader.old || is_ok result) }
    ensures size { RefusesPast SIZE_MAX (R.remaining (device reader.old)) (R.remaining (device reader.new)) (size_failed result) }
    ensures others { IfErr result (λ e. (is_write_error e ≡ false) × (is_utf8_error e ≡ false)) }
{
    markdown_devices::read_all(alloc, reader)
}
