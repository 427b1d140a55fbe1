//! The tables of tags.

/// Which tags a safe page may have. `specs/Table.antt` lists them.
#[derive(Clone, Copy)]
pub enum TagTable {
    /// The tags of most pages.
    Basic,
    /// Also headings with an `id`, links with a `rel`, and images with `loading="lazy"`.
    Extended,
}
