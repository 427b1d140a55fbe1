//! Texts of files, mended.
use crate::entry::fix;
use crate::rules::Rules;
use lint_rules::RuleSet;
use markdown::SIZE_MAX;
use markdown_compile_options::{CompileOptions, Options};
use markdown_input::{Fault, Flags};
use std::alloc::Global;

/// Mends what these rules find in a text, by [`fix`]. The pages that are compared keep raw HTML and all URLs,
/// so that each change of them is seen. Fails with `Size` or `Memory`.
pub fn fix_source(
    alloc: Global,
    text: &str,
    rules: &RuleSet,
    flags: Flags,
) -> Result<String, Fault> {
    if text.len() > SIZE_MAX {
        return Err(Fault::Size);
    }
    let options = Options {
        parse: flags.options(),
        compile: CompileOptions {
            allow_any_img_src: true,
            allow_dangerous_html: true,
            allow_dangerous_protocol: true,
            ..CompileOptions::default()
        },
    };
    match fix(alloc, text, &Rules { alloc }, rules, &options) {
        Ok(fixed) => Ok(fixed),
        Err(_) => Err(Fault::Memory),
    }
}
