//! What `--help` and `--version` print.

/// What `--help` prints.
pub(crate) const HELP: &str = "\
Formats Markdown. The page that a text stands for stays the same, to the byte.

Usage: markdown-fmt [OPTIONS] [FILE..]

It formats the files, and the files .md and .markdown below the folders, in
place, and writes only those that change. Standard input, whose name is -, is
formatted to standard output.

Options:
      --check         Write nothing; print the names of files that would change
      --diff          Write nothing; print what would change as a unified diff
      --padded-tables Pad the cells of tables, so that bars stand in columns
      --hard-breaks=spaces, --hard-breaks=backslash
                      End lines with hard breaks so (otherwise they stay)
      --disable RULE  Turn a rule off; may be repeated
      --enable RULE   Turn a rule on; may be repeated
      --ignore NAME   Leave out files and folders with this name, or with a path
                      that ends with it, below folders; may be repeated
      --config FILE   Read settings from a file, and not from the first
                      .markdown-fmt.toml in this folder and those around it
      --gfm           Read GitHub Flavored Markdown
      --frontmatter   Read frontmatter at the start of a text
      --math          Read $a$, and blocks between lines of $$
      --mark          Read ==text== as marked text
      --all           All four
  -h, --help          Print help
  -V, --version       Print version
      --              What follows are names of files

Rules:
  trailing-spaces, file-ends, blank-lines, code-indented (off by default),
  code-fenced, heading-setext, heading-atx, blank-around, thematic-break,
  bullet-marker, marker-space, list-indent, list-number, attention, hard-break,
  gfm-table, definition.

<!-- markdown-fmt-ignore --> keeps the next block as it is. From
<!-- markdown-fmt-disable --> on, up to <!-- markdown-fmt-enable -->, all blocks
stay as they are.

Exit status:
  0  all files are formatted
  1  with --check or --diff: files would change
  2  the command line or the settings are wrong, or a file can't be read or
     written; such a file is as it was
";

/// What `--version` prints.
pub(crate) const VERSION: &str = "markdown-fmt 0.1.0\n";
