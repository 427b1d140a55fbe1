//! Labels, as findings name them.
use inline_labels::normalize_label;
use std::alloc::{AllocError, Global};

/// A label in the form in which labels match: on one line, with its case folded.
pub(crate) fn normal_label(alloc: Global, label: &[u8]) -> Result<String, AllocError> {
    let mut normal = String::new(alloc);
    normalize_label(&mut normal, label)?;
    Ok(normal)
}
