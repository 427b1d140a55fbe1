//! The files of Markdown below a folder.
use std::alloc::Global;
use std::fs::{self, DirEntry};
use std::io;
use std::rt::Files;

/// The folder that isn't looked at below another, beside those that are hidden or to be ignored.
const NODE_MODULES: &str = "node_modules";

/// The files `.md` and `.markdown` below a folder, by their paths, sorted.
///
/// Files and folders aren't looked at if their names begin with `.`, if they are named `node_modules`, or if
/// they are ignored. `ignored` has names, or ends of paths, such as `vendor` or `docs/old`. Links to folders
/// aren't followed.
pub fn markdown_files<R: Files + AllocGlobal + Clone + Drop>(
    rt: &R,
    folder: &str,
    ignored: &[String],
) -> io::Result<Vec<String>> {
    let mut found = Found {
        files: Vec::new(rt.alloc()),
        folders: Vec::new(rt.alloc()),
    };
    found.read(rt, folder, ignored)?;
    // Each folder is read once, and there are fewer than this.
    for _ in 0..u64::MAX {
        let Some(folder) = found.folders.pop() else {
            break;
        };
        found.read(rt, folder.as_str(), ignored)?;
    }
    let Found { mut files, .. } = found;
    files.sort()?;
    Ok(files)
}

/// What was found so far.
#[derive(Drop)]
struct Found {
    files: Vec<String>,
    /// The folders that are still to be read.
    folders: Vec<String>,
}

impl Found {
    /// Reads the names in a folder.
    fn read<R: Files + AllocGlobal + Clone + Drop>(
        &mut self,
        rt: &R,
        folder: &str,
        ignored: &[String],
    ) -> io::Result<()> {
        for entry in fs::read_dir(rt, folder)? {
            self.add(rt.alloc(), &entry?, ignored)?;
        }
        Ok(())
    }

    /// Adds a file or a folder.
    fn add<R: Files>(
        &mut self,
        alloc: Global,
        entry: &DirEntry<R>,
        ignored: &[String],
    ) -> io::Result<()> {
        let name = entry.file_name();
        let path = String::from_str(alloc, entry.path().as_str())?;
        if is_left_out(name, &path, ignored) {
            return Ok(());
        }
        if entry.file_type()?.is_dir() {
            self.folders.push(path)?;
        } else if name.ends_with(".md") || name.ends_with(".markdown") {
            self.files.push(path)?;
        }
        Ok(())
    }
}

/// Whether a file or a folder isn't looked at, by its name and its path.
fn is_left_out(name: &str, path: &str, ignored: &[String]) -> bool {
    name.starts_with('.')
        || name == NODE_MODULES
        || ignored.iter().any(|ignored| ends_with_path(path, ignored))
}

/// Whether a path ends with a name or with another path.
fn ends_with_path(path: &str, end: &str) -> bool {
    match path.strip_suffix(end.trim_end_matches('/')) {
        Some(before) => before.is_empty() || before.ends_with('/'),
        None => false,
    }
}
