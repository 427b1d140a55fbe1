//! The events of a text, as the linter reads them.
ghost use Rattle.std.specs.Prelude.{◌≡◌, false};
ghost use Rattle.markdown_options.specs.Mdx.{has_mdx};

use engine_events::Event;
use markdown_input::Fault;
use markdown_options::{ParseOptions, Tables};
use parse_events::{SIZE_MAX, parse};
use std::alloc::Global;

/// The events of a text. Fails with `Size` or `Memory`.
///
/// No construct of MDX may be on, which `Constructs::has_mdx` tests.
pub fn events_of<T: Tables>(
    alloc: Global,
    text: &str,
    options: &ParseOptions,
    tables: &T,
) -> Result<Vec<Event>, Fault>
    requires without_mdx { has_mdx options.now.constructs ≡ false }
{
    if text.len() > SIZE_MAX {
        return Err(Fault::Size);
    }
    let Ok((events, _)) = parse(alloc, text, options, tables) else {
        return Err(Fault::Memory);
    };
    Ok(events)
}
