//! What the help and the version are printed as.

/// What `--version` prints.
pub const VERSION: &str = "markdown 0.1.0\n";

/// What `--help` prints.
pub const HELP: &str = "\
Converts Markdown to safe HTML on standard output.

Usage: markdown [OPTIONS] [FILE] > page.html

It reads the file, or standard input, whose name is -.

Options:
      --gfm                Read GitHub Flavored Markdown: tables, task lists,
                           strikethrough, footnotes and bare links. With
                           --dangerous, escape GitHub's filtered tags
      --mark               Read ==text== as marked text
      --math               Read $a$, and blocks between lines of $$, as math
      --frontmatter        Leave out metadata at the start of the input,
                           between lines of --- or +++
      --heading-ids        Print ids of headings, as GitHub makes them
      --heading-id-prefix <TEXT>
                           Print a text before these ids, and in links to them
      --link-base <URL>    Print a URL before links that are relative paths
      --image-base <URL>   Print a URL before images that are relative paths.
                           Without this option that of --link-base is printed
      --link-rel <TEXT>    Print rel=\"TEXT\" in links
      --lazy-images        Print loading=\"lazy\" in images
      --listed-html        Keep raw HTML by a list of elements and attributes,
                           and escape the rest. --dangerous keeps all of it
      --dangerous          Keep raw HTML and URLs with any protocol. Only for
                           input from trusted authors
      --plain              Turn every construct off, also with other options
      --references <PATH>  Read more names of character references from a file,
                           NAME=HEX or NAME=HEX+HEX on each line
  -h, --help               Print help
  -V, --version            Print version

Exit status:
  0  the whole page was written
  1  it was not; standard error has the reason
  2  the command line is wrong

Examples:
  markdown page.md > page.html
  markdown --gfm --frontmatter README.md > readme.html
  markdown --heading-ids --link-base=https://example.com/docs/ a.md > a.html
  markdown --references names.txt < page.md > page.html
";
