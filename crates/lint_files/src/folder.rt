//! The folder that a file is in.
use crate::known::KnownFragments;
use lint_rules::Folder;
use std::alloc::AllocError;
use std::path::{Path, PathBuf};
use std::rt::Files;

/// The folder that a file is in. That of standard input is the one that the program runs in.
#[derive(Drop)]
pub struct FolderOf<'a, R: Files> {
    /// What reaches files.
    pub rt: &'a R,
    /// The name of the file.
    pub file: &'a str,
    /// The fragments of the files that links led to so far.
    pub known: &'a mut KnownFragments,
}

impl<'a, R: Files + AllocGlobal> FolderOf<'a, R> {
    /// A path from the folder, as one that the program can use.
    fn path_to(&self, path: &str) -> Result<PathBuf, AllocError> {
        match Path::new(self.file).parent() {
            Some(folder) => folder.join(self.rt.alloc(), path),
            None => Path::new(path).to_path_buf(self.rt.alloc()),
        }
    }
}

impl<'a, R: Files + AllocGlobal> Folder for FolderOf<'a, R> {
    fn has(&self, path: &str) -> Result<bool, AllocError> {
        let path = self.path_to(path)?;
        Ok(path.exists(self.rt))
    }

    fn has_fragment(&mut self, path: &str, fragment: &str) -> Result<bool, AllocError> {
        if !path.ends_with(".md") && !path.ends_with(".markdown") {
            return Ok(true);
        }
        let path = self.path_to(path)?;
        self.known.has(self.rt, path.as_path(), fragment)
    }
}
