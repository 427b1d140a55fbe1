//! What `--help` and `--version` print.

/// What `--help` prints.
pub(crate) const HELP: &str = "\
Prints what it finds in Markdown, one finding a line: FILE:LINE:COLUMN: WHAT (RULE).

Usage: markdown-lint [OPTIONS] [FILE..]

It reads the files, the files .md and .markdown below the folders, or standard
input, whose name is -.

Options:
      --gfm              Read GitHub Flavored Markdown
      --frontmatter      Read frontmatter at the start of a text
      --math             Read $a$, and blocks between lines of $$
      --mark             Read ==text== as marked text
      --all              All four
      --disable RULE     Turn a rule off; may be repeated
      --only RULE        Check this rule alone; may be repeated
      --siblings         Let headings of different sections have the same text
      --line-length NUMBER
                         Find lines of more characters than this
      --columns WHAT     Count bytes, with tab stops (the default), or characters
      --ignore NAME      Leave out folders and files of this name, or with this end
                         of their path, below folders; may be repeated. Names
                         with a dot first and node_modules are always left out
      --config FILE      Read settings from a file, and not from the first
                         .markdown-lint.toml in this folder and those around it
      --fix              Mend what can be mended with the same page, and print
                         what is left; of standard input print the text
      --json             Print each finding as an object of JSON
  -h, --help             Print help
  -V, --version          Print version
      --                 Read the words after this as names of files

Rules, which markdownlint's numbers name, too:
  heading-increment (MD001), list-marker (MD004), list-indent (MD005),
  nested-list-indent (MD007), trailing-spaces (MD009), tab-indent (MD010),
  reversed-link (MD011), blank-lines (MD012), line-length (MD013, off unless
  asked for), heading-space (MD018), heading-blank-lines (MD022),
  duplicate-heading (MD024), second-title (MD025), heading-punctuation (MD026),
  list-numbers (MD029), fence-blank-lines (MD031), list-blank-lines (MD032),
  raw-html (MD033), bare-url (MD034), emphasis-spaces (MD037),
  code-language (MD040), empty-link (MD042), no-alt-text (MD045),
  final-newline (MD047), missing-fragment (MD051), undefined-reference (MD052),
  unused-definition (MD053), table-cells (MD056), missing-file.

<!-- markdown-lint-disable RULE.. --> in a text turns rules off from there on, and
<!-- markdown-lint-enable RULE.. --> on again; with no rule it is all of them.
-disable-line, -disable-next-line and -disable-file turn them off in one place;
-restore goes back to the start of the text, or to the last -capture.

Exit status:
  0  nothing was found
  1  there are findings
  2  the command line or the settings are wrong, or a file can't be read
";

/// What `--version` prints.
pub(crate) const VERSION: &str = "markdown-lint 0.1.0\n";
