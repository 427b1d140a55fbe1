//! The file of settings, which is TOML.
//!
//!     gfm = true
//!     frontmatter = true
//!     padded-tables = true
//!     hard-breaks = "backslash"
//!     disable = ["list-number"]
//!     enable = ["code-indented"]
//!     ignore = ["vendor", "docs/old"]
//!
//! Other keys are `math` and `mark`.
use crate::options::{Options, hard_breaks_of};
use markdown_format::BreakStyle;
use markdown_input::{Config, ConfigFault, Fault, config_file, text};
use std::alloc::Global;
use toml::Value;

/// The name of a file of settings.
const CONFIG_NAME: &str = ".markdown-fmt.toml";

/// What the file of settings asks for: the one that is named, or the first one around. None if it can't be
/// used; then standard error says why.
pub fn options(rt: &HostRuntime, named: Option<&str>) -> Result<Option<Options>, Fault> {
    if let Some(path) = named {
        return options_of_file(rt, path);
    }
    match config_file(rt, CONFIG_NAME) {
        Ok(Some(path)) => options_of_file(rt, path.as_path().as_str()),
        Ok(None) => Ok(Some(Options::new(rt.alloc()))),
        Err(error) => Err(Fault::reading(&error)),
    }
}

/// What a file of settings asks for.
fn options_of_file(rt: &HostRuntime, path: &str) -> Result<Option<Options>, Fault> {
    let text = match text(rt, path) {
        Ok(text) => text,
        Err(fault) => {
            let _ = eprintln!(rt; "markdown-fmt: {path}: {}", fault.words());
            return Ok(None);
        }
    };
    match options_of_config(rt.alloc(), text.as_str()) {
        Ok(options) => Ok(Some(options)),
        Err(ConfigFault::Line(line, what)) => {
            let _ = eprintln!(rt; "markdown-fmt: {path}:{line}: {what}");
            Ok(None)
        }
        Err(ConfigFault::Memory) => Err(Fault::Memory),
    }
}

/// Reads a file of settings. Fails with `Line` if it isn't TOML, or has an unknown key or a wrong value, or
/// with `Memory`.
fn options_of_config(alloc: Global, text: &str) -> Result<Options, ConfigFault> {
    let config = Config { alloc, text };
    let table = config.table()?;
    let mut options = Options::new(alloc);
    for (key, value) in table.iter() {
        set(&config, &mut options, key.as_str(), value)?;
    }
    Ok(options)
}

/// Sets what a key asks for.
fn set(
    config: &Config<'_>,
    options: &mut Options,
    key: &str,
    value: &Value,
) -> Result<(), ConfigFault> {
    match key {
        "padded-tables" => options.set_padded(config.switch(key, value)?),
        "hard-breaks" => options.style.hard_breaks = hard_breaks(config, key, value)?,
        "disable" | "enable" | "ignore" => return set_list(config, options, key, value),
        _ => match options.flags.with_key(key, false) {
            Some(_) => set_flag(config, options, key, value)?,
            None => return Err(config.key_fault(key, "unknown key")),
        },
    }
    Ok(())
}

/// Turns a construct on or off.
fn set_flag(
    config: &Config<'_>,
    options: &mut Options,
    key: &str,
    value: &Value,
) -> Result<(), ConfigFault> {
    let is_on = config.switch(key, value)?;
    if let Some(flags) = options.flags.with_key(key, is_on) {
        options.flags = flags;
    }
    Ok(())
}

/// How hard breaks are written.
fn hard_breaks(config: &Config<'_>, key: &str, value: &Value) -> Result<BreakStyle, ConfigFault> {
    match value.as_str().and_then(hard_breaks_of) {
        Some(hard_breaks) => Ok(hard_breaks),
        None => Err(config.key_fault(key, "wants \"spaces\" or \"backslash\"")),
    }
}

/// Sets what the words of a list ask for.
fn set_list(
    config: &Config<'_>,
    options: &mut Options,
    key: &str,
    value: &Value,
) -> Result<(), ConfigFault> {
    let Some(words) = value.as_array() else {
        return Err(config.key_fault(key, "wants a list of names"));
    };
    for word in words {
        let Some(word) = word.as_str() else {
            return Err(config.key_fault(key, "wants a list of names"));
        };
        if key == "ignore" {
            options.ignore(config.alloc, word)?;
        } else if !options.style.rules.set(word, key == "enable") {
            return Err(config.item_fault(key, word, "unknown rule"));
        }
    }
    Ok(())
}
