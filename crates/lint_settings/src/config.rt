//! The file of settings, which is TOML.
//!
//!     gfm = true
//!     frontmatter = true
//!     siblings = true
//!     columns = "characters"
//!     disable = ["raw-html", "MD026"]
//!     ignore = ["vendor", "docs/old"]
//!     line-length = 100
//!     nested-list-indent = 4
//!
//! Other keys are `math`, `mark`, and `only`, which is a list of rules as `disable` is.
use crate::options::{Options, columns_of, length_of};
use lint_document::{Columns, Rule};
use markdown_input::{Config, ConfigFault};
use std::alloc::Global;
use toml::Value;

/// Reads a file of settings. Fails with `Line` if it isn't TOML, or has an unknown key or a wrong value, or
/// with `Memory`.
pub fn options_of_config(alloc: Global, text: &str) -> Result<Options, ConfigFault> {
    let config = Config { alloc, text };
    let table = config.table()?;
    let mut options = Options::new(alloc);
    for (key, value) in table.iter() {
        set(&config, &mut options, key.as_str(), value)?;
    }
    Ok(options)
}

/// Sets what a key asks for.
fn set(
    config: &Config<'_>,
    options: &mut Options,
    key: &str,
    value: &Value,
) -> Result<(), ConfigFault> {
    match key {
        "siblings" => options.siblings = config.switch(key, value)?,
        "columns" => options.columns = columns(config, key, value)?,
        "line-length" => options.line_length = Some(length(config, key, value)?),
        "nested-list-indent" => options.level_indent = Some(length(config, key, value)?),
        "disable" | "only" | "ignore" => return set_list(config, options, key, value),
        _ => return set_flag(config, options, key, value),
    }
    Ok(())
}

/// Turns a construct on or off.
fn set_flag(
    config: &Config<'_>,
    options: &mut Options,
    key: &str,
    value: &Value,
) -> Result<(), ConfigFault> {
    let Some(flags) = options.flags.with_key(key, true) else {
        return Err(config.key_fault(key, "unknown key"));
    };
    if config.switch(key, value)? {
        options.flags = flags;
    }
    Ok(())
}

fn columns(config: &Config<'_>, key: &str, value: &Value) -> Result<Columns, ConfigFault> {
    match value.as_str().and_then(columns_of) {
        Some(columns) => Ok(columns),
        None => Err(config.key_fault(key, "wants \"bytes\" or \"characters\"")),
    }
}

fn length(config: &Config<'_>, key: &str, value: &Value) -> Result<usize, ConfigFault> {
    match value.as_integer().and_then(length_of) {
        Some(length) => Ok(length),
        None => Err(config.key_fault(key, "wants a number from 1 on")),
    }
}

/// Turns the rules of a list off, asks for them alone, or leaves out the folders of a list.
fn set_list(
    config: &Config<'_>,
    options: &mut Options,
    key: &str,
    value: &Value,
) -> Result<(), ConfigFault> {
    let Some(words) = value.as_array() else {
        return Err(list_fault(config, key));
    };
    for word in words {
        let Some(word) = word.as_str() else {
            return Err(list_fault(config, key));
        };
        match key {
            "ignore" => options.ignore(config.alloc, word)?,
            "only" => options.add_only(rule(config, key, word)?),
            _ => options.disabled.insert(rule(config, key, word)?),
        }
    }
    Ok(())
}

/// The fault where a key wants a list.
fn list_fault(config: &Config<'_>, key: &str) -> ConfigFault {
    let what = match key {
        "ignore" => "wants a list of folders",
        _ => "wants a list of rules",
    };
    config.key_fault(key, what)
}

/// The rule of a word in a list.
fn rule(config: &Config<'_>, key: &str, word: &str) -> Result<Rule, ConfigFault> {
    match Rule::of_word(word) {
        Some(rule) => Ok(rule),
        None => {
            let what = format!(in config.alloc; "no rule {word:?}")?;
            Err(config.item_fault(key, word, what.as_str()))
        }
    }
}
