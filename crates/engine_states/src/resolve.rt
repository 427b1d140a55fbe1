//! Resolvers: what is done with events after a text is read.

/// A resolver: it rewrites the events once all are there.
#[derive(Clone, Copy, Debug, PartialEq, Eq)]
pub enum Name {
    /// Labels, which become links, images and calls.
    Label,
    /// Runs, which become emphasis, strong emphasis, strikethrough and marked text.
    Attention,
    /// Rows and cells of a table.
    GfmTable,
    /// The text of a heading that begins with `#`.
    HeadingAtx,
    /// A heading with a line below it.
    HeadingSetext,
    /// Items, which become lists.
    ListItem,
    /// A paragraph and the definitions at its front.
    Content,
    /// Data side by side, which is joined.
    Data,
    /// White space at the ends of strings.
    String,
    /// White space at the ends of lines, and email addresses.
    Text,
}
