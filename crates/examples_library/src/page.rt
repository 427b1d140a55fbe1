//! A page with each feature.
ghost use Rattle.markdown_compile_options.specs.Mdx.{HasNoMdx};

use markdown::{Builtin, Options, RunError, Watched, run};
use std::io::Write;

/// Prints the HTML of standard input.
pub(crate) fn print_page(rt: &HostRuntime) -> Result<(), RunError> {
    let mut reader = Watched::new(rt.stdin());
    let mut writer = Watched::new(rt.stdout());
    run(rt.alloc(), &mut reader, &mut writer, &options(), &Builtin)?;
    writer.flush().map_err(RunError::Write)
}

/// All that can be read.
fn options() -> Options
    ensures { HasNoMdx result }
{
    let mut options = Options::gfm();
    options.parse.constructs.mark = true;
    options.parse.constructs.math_text = true;
    options.parse.constructs.math_flow = true;
    options.parse.constructs.frontmatter = true;
    options
}
