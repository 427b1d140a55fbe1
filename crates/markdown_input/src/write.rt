//! Files, replaced whole or not at all.
use crate::fault::Fault;
use std::fs::{self, File, Metadata, OpenOptions};
use std::io::{Error, ErrorKind, Write};
use std::os::unix::fs::{MetadataExt, OpenOptionsExt, fchown};
use std::path::{Path, PathBuf};
use std::process;

/// How many names of new files are tried. Kills may have left files of this process's number.
const NAMES: u32 = 100;

/// Puts a new text in the place of the one that was read from a file.
///
/// If this fails, the file is as it was. The new text is written to a file beside it, which has the mode and
/// the owner of the old one. It is synced, and then takes the place of the old one at once. Symlinks are
/// followed. Access control lists and extended attributes aren't kept. If the program is killed, the file
/// beside it may be left: it is named `.markdown-PROCESS-NUMBER.new`, and may be removed.
///
/// Fails with
///
/// - `ReadOnly`, if nobody or not this user may write the file;
/// - `Links`, if the file has another name, which would keep the old text;
/// - `Folder`, if its folder takes no new file;
/// - `Owner`, if the new file can't have the owner and the group of the old one;
/// - `Changed`, if the file hasn't the old text any more;
/// - `Write`, if it is no file, or something else can't be written, as on a full disk;
/// - `Read`, if it can't be read again, or `Memory`.
pub fn replace(rt: &HostRuntime, name: &str, old: &str, new: &str) -> Result<(), Fault> {
    let path = match fs::canonicalize(rt, name) {
        Ok(path) => path,
        Err(error) => return Err(Fault::writing(&error)),
    };
    let path = path.as_path();
    let metadata = replaceable(rt, path)?;
    let (beside, file) = new_file(rt, path)?;
    let replaced = match write_new(file, &metadata, new) {
        Ok(()) => take_place(rt, beside.as_path(), path, old),
        Err(fault) => Err(fault),
    };
    if replaced.is_err() {
        // If this fails too, the file beside it is left.
        let _ = fs::remove_file(rt, beside.as_path());
    }
    replaced
}

/// The metadata of a file, if it may be replaced.
fn replaceable(rt: &HostRuntime, path: Path<'_>) -> Result<Metadata, Fault> {
    let metadata = match fs::metadata(rt, path) {
        Ok(metadata) => metadata,
        Err(error) => return Err(Fault::writing(&error)),
    };
    if !metadata.is_file() {
        return Err(Fault::Write);
    }
    // A user who may do all may open a file that nobody may write.
    if metadata.permissions().readonly() {
        return Err(Fault::ReadOnly);
    }
    if metadata.nlink() > 1 {
        return Err(Fault::Links);
    }
    match OpenOptions::new().write(true).open(rt, path) {
        Ok(_) => Ok(metadata),
        Err(error) => Err(refused(&error, Fault::ReadOnly)),
    }
}

/// A fault if a right is missing, or else that of writing.
fn refused(error: &Error, fault: Fault) -> Fault {
    match error.kind() {
        ErrorKind::PermissionDenied | ErrorKind::ReadOnlyFilesystem => fault,
        _ => Fault::writing(error),
    }
}

/// A new file in the folder of another, with its path. Only its owner may read it.
fn new_file(rt: &HostRuntime, path: Path<'_>) -> Result<(PathBuf, File), Fault> {
    let process = process::id(rt.process());
    for number in 0..NAMES {
        let name = format!(in rt.alloc(); ".markdown-{process}-{number}.new")?;
        let beside = path.with_file_name(rt.alloc(), name.as_str())?;
        let mut options = OpenOptions::new();
        options.write(true).create_new(true).mode(0o600);
        match options.open(rt, beside.as_path()) {
            Ok(file) => return Ok((beside, file)),
            Err(error) if error.kind() == ErrorKind::AlreadyExists => {}
            Err(error) => return Err(refused(&error, Fault::Folder)),
        }
    }
    Err(Fault::Folder)
}

/// Writes a new file down to the disk, with the owner and the mode of another.
fn write_new(mut file: File, metadata: &Metadata, text: &str) -> Result<(), Fault> {
    set_owner(&file, metadata)?;
    let written = match file.set_permissions(metadata.permissions()) {
        Ok(()) => file.write_all(text.as_bytes()),
        Err(error) => Err(error),
    };
    let synced = match written {
        Ok(()) => file.sync_all(),
        Err(error) => Err(error),
    };
    synced.map_err(|error| Fault::writing(&error))
}

/// Gives a file the owner and the group of another.
fn set_owner(file: &File, metadata: &Metadata) -> Result<(), Fault> {
    let new = match file.metadata() {
        Ok(new) => new,
        Err(error) => return Err(Fault::writing(&error)),
    };
    if new.uid() == metadata.uid() && new.gid() == metadata.gid() {
        return Ok(());
    }
    match fchown(file, Some(metadata.uid()), Some(metadata.gid())) {
        Ok(()) => Ok(()),
        Err(error) => Err(refused(&error, Fault::Owner)),
    }
}

/// Moves the new file to the place of the old one, if that has the old text.
fn take_place(rt: &HostRuntime, new: Path<'_>, path: Path<'_>, old: &str) -> Result<(), Fault> {
    let bytes = match fs::read(rt, path) {
        Ok(bytes) => bytes,
        Err(error) => return Err(Fault::Read.unless_memory(&error)),
    };
    if bytes.as_slice() != old.as_bytes() {
        return Err(Fault::Changed);
    }
    match fs::rename(rt, new, path) {
        Ok(()) => Ok(()),
        Err(error) => Err(refused(&error, Fault::Folder)),
    }
}
