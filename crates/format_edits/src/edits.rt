//! Edits of a text.
use crate::window::Window;
use std::alloc::{AllocError, Global};

/// A replacement of bytes of a text.
#[derive(Clone, Copy, Debug)]
pub(crate) struct Edit {
    /// The bytes that are replaced: from this index, up to but without the other.
    pub(crate) start: usize,
    pub(crate) end: usize,
    /// What comes in their place: such a range of the new bytes.
    new_start: usize,
    new_end: usize,
    /// The number of its group, from 0.
    group: usize,
}

impl Edit {
    /// Whether the edit is in the bytes from an index to another.
    fn fits(&self, start: usize, end: usize) -> bool {
        start <= self.start && self.start <= self.end && self.end <= end
    }

    /// Whether the edit changes something in one of these windows, which are in order and apart. Bytes that
    /// it puts where a window starts or ends are outside.
    fn is_in_any(&self, windows: &[Window]) -> bool {
        let first = windows.partition_point(|window| window.end <= self.start);
        match windows.get(first) {
            Some(window) => window.start < self.end,
            None => false,
        }
    }
}

/// Edits of a text, in groups. The edits of a group only make sense together, such as those of the
/// two markers of an emphasis.
///
/// If memory runs out while edits are added, `finish` fails. So who adds edits has no error to pass on.
#[derive(Drop)]
pub struct Edits {
    edits: Vec<Edit>,
    /// The new bytes of all edits, one after the other.
    bytes: Vec<u8>,
    /// The number of groups.
    groups: usize,
    /// Whether the next edit begins a group.
    begins: bool,
    /// Whether memory ran out while edits were added.
    is_out_of_memory: bool,
    /// The window of each group, once the edits are finished.
    windows: Vec<Window>,
}

impl Edits {
    /// No edits.
    pub fn new(alloc: Global) -> Edits {
        Edits {
            edits: Vec::new(alloc),
            bytes: Vec::new(alloc),
            groups: 0,
            begins: true,
            is_out_of_memory: false,
            windows: Vec::new(alloc),
        }
    }

    /// Whether there are no edits.
    pub fn is_empty(&self) -> bool {
        self.edits.is_empty()
    }

    /// The number of groups. Groups are numbered from 0.
    pub fn groups(&self) -> usize {
        self.groups
    }

    /// Begins a group: the edits from here on belong to it.
    pub fn begin_group(&mut self) {
        self.begins = true;
    }

    /// Notes that memory ran out while edits were added.
    pub fn fail(&mut self) {
        self.is_out_of_memory = true;
    }

    /// Adds an edit that removes the bytes from an index to another. What is written next comes in
    /// their place.
    pub fn edit(&mut self, start: usize, end: usize) {
        if self.begins {
            self.groups = self.groups.saturating_add(1);
            self.begins = false;
        }
        let size = self.bytes.len();
        let edit = Edit {
            start,
            end,
            new_start: size,
            new_end: size,
            group: self.groups.saturating_sub(1),
        };
        if self.edits.push(edit).is_err() {
            self.fail();
        }
    }

    /// Adds bytes to what the last edit puts in place of the text's. Without an edit does nothing.
    pub fn write(&mut self, bytes: &[u8]) {
        if self.bytes.extend_from_slice(bytes).is_err() {
            self.fail();
        }
        self.end_edit();
    }

    /// Adds a byte to what the last edit puts in place of the text's, a number of times.
    pub fn write_times(&mut self, byte: u8, times: usize) {
        let size = self.bytes.len().saturating_add(times);
        if self.bytes.resize(size, byte).is_err() {
            self.fail();
        }
        self.end_edit();
    }

    /// Adds white space that takes the columns of bytes: a tab for a tab, and otherwise a space.
    pub fn write_blank(&mut self, bytes: &[u8]) {
        for byte in bytes {
            self.write_times(if *byte == b'\t' { b'\t' } else { b' ' }, 1);
        }
    }

    /// Ends the new bytes of the last edit.
    fn end_edit(&mut self) {
        if let Some(edit) = self.edits.last_mut() {
            edit.new_end = self.bytes.len();
        }
    }

    /// Adds an edit that puts bytes in place of those from an index to another.
    pub fn replace(&mut self, start: usize, end: usize, new: &[u8]) {
        self.edit(start, end);
        self.write(new);
    }

    /// Removes edits that change nothing, groups without edits, and groups with an edit in a closed part of
    /// the text. Sorts the others by place. Groups are numbered by the places of their first edits.
    ///
    /// `blocks` are the places where the blocks of the text start, in order. A window of a group begins
    /// and ends at such places. `closed` are the parts of the text that stay as they are, in order and
    /// apart. Fails if memory ran out while edits were added, or runs out now.
    pub fn finish(
        &mut self,
        alloc: Global,
        text: &[u8],
        blocks: &[usize],
        closed: &[Window],
    ) -> Result<(), AllocError> {
        if self.is_out_of_memory {
            return Err(AllocError);
        }
        if !closed.is_empty() {
            self.edits = self.outside(alloc, closed)?;
        }
        self.edits = self.changes(alloc, text)?;
        self.edits.sort_by_key(|edit| (edit.start, edit.end))?;
        self.number_groups(alloc)?;
        self.find_windows(alloc, blocks, text.len())?;
        self.begins = true;
        Ok(())
    }

    /// The edits of those groups that have no edit in a closed part.
    fn outside(&self, alloc: Global, closed: &[Window]) -> Result<Vec<Edit>, AllocError> {
        let mut is_open = vec![in alloc; true; self.groups]?;
        for edit in &self.edits {
            if edit.is_in_any(closed) {
                if let Some(of_group) = is_open.get_mut(edit.group) {
                    *of_group = false;
                }
            }
        }
        let mut edits = Vec::new(alloc);
        for edit in &self.edits {
            if is_kept(&is_open, edit.group) {
                edits.push(*edit)?;
            }
        }
        Ok(edits)
    }

    /// The edits that change something.
    fn changes(&self, alloc: Global, text: &[u8]) -> Result<Vec<Edit>, AllocError> {
        let mut edits = Vec::new(alloc);
        for edit in &self.edits {
            if between(text, edit.start, edit.end) != self.new_bytes(edit) {
                edits.push(*edit)?;
            }
        }
        Ok(edits)
    }

    /// Numbers the groups in the order of their first edits.
    fn number_groups(&mut self, alloc: Global) -> Result<(), AllocError> {
        let mut numbers: Vec<Option<usize>> = vec![in alloc; None; self.groups]?;
        let mut groups: usize = 0;
        for edit in self.edits.iter_mut() {
            if let Some(number) = numbers.get_mut(edit.group) {
                edit.group = number.unwrap_or(groups);
                groups = groups.max(edit.group.saturating_add(1));
                *number = Some(edit.group);
            }
        }
        self.groups = groups;
        Ok(())
    }

    /// Finds the window of each group: the blocks that its edits are in.
    fn find_windows(
        &mut self,
        alloc: Global,
        blocks: &[usize],
        size: usize,
    ) -> Result<(), AllocError> {
        let mut windows: Vec<Window> = Vec::new(alloc);
        for edit in &self.edits {
            let window = Window::around(edit, blocks, size);
            match windows.get_mut(edit.group) {
                Some(known) => *known = known.with(window),
                None => windows.push(window)?,
            }
        }
        self.windows = windows;
        Ok(())
    }

    /// The blocks that the groups of a range are in: from a group, up to but without another.
    pub fn window(&self, first: usize, past: usize) -> Window {
        let windows = self.windows.as_slice();
        if first >= past || past > windows.len() {
            return Window { start: 0, end: 0 };
        }
        let mut all = windows[first];
        for window in &windows[first..past] {
            all = all.with(*window);
        }
        all
    }

    /// The bytes that an edit puts in place of the text's.
    fn new_bytes(&self, edit: &Edit) -> &[u8] {
        between(&self.bytes, edit.new_start, edit.new_end)
    }

    /// The part of a text in a window after the edits of the groups that are kept. Edits must be
    /// finished. An edit that overlaps one before it is left out, and so is one that isn't in the window.
    /// Returns none if the edits cut a character.
    pub fn apply(
        &self,
        alloc: Global,
        text: &str,
        window: Window,
        kept: &[bool],
    ) -> Result<Option<String>, AllocError> {
        let text = text.as_bytes();
        let mut bytes = Vec::with_capacity(alloc, window.end.saturating_sub(window.start))?;
        let mut at = window.start;
        for edit in self.edits_from(window.start) {
            if edit.start > window.end {
                break;
            }
            if edit.fits(at, window.end) && is_kept(kept, edit.group) {
                bytes.extend_from_slice(between(text, at, edit.start))?;
                bytes.extend_from_slice(self.new_bytes(edit))?;
                at = edit.end;
            }
        }
        bytes.extend_from_slice(between(text, at, window.end))?;
        Ok(String::from_utf8(bytes).ok())
    }

    /// The edits that start at an index or after it.
    fn edits_from(&self, index: usize) -> &[Edit] {
        let edits = self.edits.as_slice();
        let at = edits.partition_point(|edit| edit.start < index);
        if at <= edits.len() { &edits[at..] } else { &[] }
    }
}

/// Whether a group is kept.
fn is_kept(kept: &[bool], group: usize) -> bool {
    kept.get(group).copied().unwrap_or(false)
}

/// The bytes from an index to another, or none where there are no such bytes.
fn between(bytes: &[u8], start: usize, end: usize) -> &[u8] {
    if start <= end && end <= bytes.len() {
        &bytes[start..end]
    } else {
        &bytes[..0]
    }
}
