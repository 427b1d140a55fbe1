//! Files, mended.
use lint_fix::fix_source;
use lint_settings::Options;
use markdown_input::{Fault, replace};

/// The text of a file after its findings are mended as far as that can be done. It is written to the file if
/// it differs.
pub(crate) fn mended_file(
    rt: &HostRuntime,
    options: &Options,
    name: &str,
    text: &str,
) -> Result<String, Fault> {
    let mended = mended_text(rt, options, text)?;
    if mended.as_str() == text {
        return Ok(mended);
    }
    replace(rt, name, text, mended.as_str())?;
    Ok(mended)
}

/// A text after its findings are mended as far as that can be done. Fails with `Size` or `Memory`.
pub(crate) fn mended_text(
    rt: &HostRuntime,
    options: &Options,
    text: &str,
) -> Result<String, Fault> {
    fix_source(rt.alloc(), text, &options.rules(), options.flags)
}
