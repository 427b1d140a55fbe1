//! The file of settings.
use lint_settings::{Options, options_of_config};
use markdown_input::{ConfigFault, Fault, config_file, text};

/// The name of a file of settings.
const CONFIG_NAME: &str = ".markdown-lint.toml";

/// What the file of settings asks for: the one that is named, or the first one around. None if it can't be
/// used; then standard error says why.
pub(crate) fn options(rt: &HostRuntime, named: Option<&str>) -> Result<Option<Options>, Fault> {
    if let Some(path) = named {
        return options_of_file(rt, path);
    }
    match config_file(rt, CONFIG_NAME) {
        Ok(Some(path)) => options_of_file(rt, path.as_path().as_str()),
        Ok(None) => Ok(Some(Options::new(rt.alloc()))),
        Err(error) => Err(Fault::reading(&error)),
    }
}

/// What a file of settings asks for.
fn options_of_file(rt: &HostRuntime, path: &str) -> Result<Option<Options>, Fault> {
    let text = match text(rt, path) {
        Ok(text) => text,
        Err(fault) => {
            let _ = eprintln!(rt; "markdown-lint: {path}: {}", fault.words());
            return Ok(None);
        }
    };
    match options_of_config(rt.alloc(), text.as_str()) {
        Ok(options) => Ok(Some(options)),
        Err(ConfigFault::Line(line, what)) => {
            let _ = eprintln!(rt; "markdown-lint: {path}:{line}: {what}");
            Ok(None)
        }
        Err(ConfigFault::Memory) => Err(Fault::Memory),
    }
}
