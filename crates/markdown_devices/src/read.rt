//! What is read of a reader.
ghost use Rattle.std.specs.Prelude.{◌≡◌, ◌≤◌, ◌<◌, ◌+◌, ◌-◌, ◌||◌};
ghost use Rattle.std.specs.Prelude.{IfOk, IfErr, OnOk, IfSome, is_ok, false, length, vec_len};
ghost use Rattle.std.specs.Io.{appended_bytes, StartsWith};
ghost use Rattle.std.specs.Io.KnownBytes.{Consumes, IsAtEnd};
ghost use Rattle.markdown_devices.specs.Watched.{device, has_failed, has_ended};
ghost use Rattle.markdown_devices.specs.Faults.{is_write_error, is_utf8_error};
ghost use Rattle.markdown_devices.specs.Faults.{read_failed, size_failed, gave_none};
ghost use Rattle.markdown_devices.specs.Transfer.{RefusesPast};

use crate::run_error::RunError;
use crate::watched::Watched;
use std::alloc::Allocator;
use std::io::Read;

/// The largest size of a text, in bytes.
pub const SIZE_MAX: usize = usize::MAX / 8;

/// The size of a read, in bytes. The buffer is touched whole at each start, so a larger one costs
/// more page faults than it saves calls.
const CHUNK: usize = 16384;

/// Reads to the end.
pub fn read_all<A: Allocator + Clone, R: Read>(
    alloc: A,
    reader: &mut Watched<R>,
) -> Result<Vec<u8, A>, RunError>
    requires { has_failed reader.old ≡ false }
    ensures ok { IfOk result (λ bytes. IfSome (R.remaining (device reader.old)) (λ text. bytes.items ≡ text)) }
    ensures fits { IfOk result (λ bytes. vec_len bytes ≤ SIZE_MAX) }
    ensures read { has_failed reader.new ≡ read_failed result }
    ensures end { has_ended reader.new ≡ (has_ended reader.old || is_ok result) }
    ensures size { RefusesPast SIZE_MAX (R.remaining (device reader.old)) (R.remaining (device reader.new)) (size_failed result) }
    ensures others { IfErr result (λ e. (is_write_error e ≡ false) × (is_utf8_error e ≡ false)) }
{
    let mut chunk = Vec::with_capacity(alloc.clone()?, CHUNK)?;
    chunk.resize(CHUNK, 0)?;
    let mut bytes = Vec::new(alloc);
    read_chunks(reader, &mut chunk, &mut bytes)?;
    Ok(bytes)
}

/// Reads to the end, by chunks.
fn read_chunks<A: Allocator, R: Read>(
    reader: &mut Watched<R>,
    chunk: &mut [u8],
    bytes: &mut Vec<u8, A>,
) -> Result<(), RunError>
    requires working { has_failed reader.old ≡ false }
    requires room { 0 < length chunk.old }
    requires empty { vec_len bytes.old ≡ 0 }
    ensures ok { OnOk result (IfSome (R.remaining (device reader.old)) (λ text. bytes.new.items ≡ text)) }
    ensures fits { OnOk result (vec_len bytes.new ≤ SIZE_MAX) }
    ensures read { has_failed reader.new ≡ read_failed result }
    ensures end { has_ended reader.new ≡ (has_ended reader.old || is_ok result) }
    ensures size { RefusesPast SIZE_MAX (R.remaining (device reader.old)) (R.remaining (device reader.new)) (size_failed result) }
    ensures others { IfErr result (λ e. (is_write_error e ≡ false) × (is_utf8_error e ≡ false)) }
{
    for _ in 0..u64::MAX {
        if read_chunk(reader, chunk, bytes)? == 0 {
            return Ok(());
        }
    }
    unreachable!()
}

/// Reads once, and returns how many bytes were read: 0 at the end.
fn read_chunk<A: Allocator, R: Read>(
    reader: &mut Watched<R>,
    chunk: &mut [u8],
    bytes: &mut Vec<u8, A>,
) -> Result<usize, RunError>
    requires working { has_failed reader.old ≡ false }
    requires room { 0 < length chunk.old }
    requires fits { vec_len bytes.old ≤ SIZE_MAX }
    ensures grows { IfOk result (λ n. vec_len bytes.new ≡ vec_len bytes.old + n) }
    ensures appends { OnOk result (StartsWith bytes.new.items bytes.old.items) }
    ensures fits { OnOk result (vec_len bytes.new ≤ SIZE_MAX) }
    ensures known { OnOk result
        (Consumes (R.remaining (device reader.old)) (R.remaining (device reader.new)) (appended_bytes bytes.old.items bytes.new.items)) }
    ensures last { IfOk result (λ n. n ≡ 0 → IsAtEnd (R.remaining (device reader.new))) }
    ensures read { has_failed reader.new ≡ read_failed result }
    ensures end { has_ended reader.new ≡ (has_ended reader.old || gave_none result) }
    ensures size { RefusesPast (SIZE_MAX - vec_len bytes.old) (R.remaining (device reader.old)) (R.remaining (device reader.new)) (size_failed result) }
    ensures others { IfErr result (λ e. (is_write_error e ≡ false) × (is_utf8_error e ≡ false)) }
{
    let n = reader.read(chunk).map_err(RunError::Read)?;
    if n == 0 {
        return Ok(0);
    }
    if n > SIZE_MAX - bytes.len() {
        return Err(RunError::Size);
    }
    bytes.extend_from_slice(&chunk[..n])?;
    Ok(n)
}
