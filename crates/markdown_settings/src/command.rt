//! The command line.
//!
//!     markdown [--gfm] [--mark] [--math] [--frontmatter] [--heading-ids] [--heading-id-prefix TEXT]
//!         [--link-base URL] [--image-base URL] [--link-rel TEXT] [--lazy-images] [--listed-html]
//!         [--dangerous] [--plain] [--references PATH] [--help] [--version] [FILE]
ghost use Rattle.std.specs.Prelude.{◌≡◌, IfOk, false};
ghost use Rattle.clap.specs.Words.{app_of, rule_of};
ghost use Rattle.markdown_settings.specs.Command.{file_rule, flag, markdown_command, valued};

use crate::help::VERSION;
use clap::{Arg, ArgAction, Command};
use std::alloc::{AllocError, Global};

/// The command. `help.rt` holds what is printed for it.
pub(crate) fn command<'a>(alloc: Global) -> Result<Command<'a>, AllocError>
    ensures { IfOk result (λ c. app_of c ≡ markdown_command) }
{
    let command = Command::new(alloc, "markdown")
        .no_binary_name(true)
        .version(VERSION)
        .arg(flag(alloc, "gfm"))?
        .arg(flag(alloc, "mark"))?
        .arg(flag(alloc, "math"))?
        .arg(flag(alloc, "frontmatter"))?
        .arg(flag(alloc, "heading-ids"))?
        .arg(valued(alloc, "heading-id-prefix", "TEXT"))?
        .arg(valued(alloc, "link-base", "URL"))?
        .arg(valued(alloc, "image-base", "URL"))?
        .arg(valued(alloc, "link-rel", "TEXT"))?
        .arg(flag(alloc, "lazy-images"))?
        .arg(flag(alloc, "listed-html"))?
        .arg(flag(alloc, "dangerous"))?
        .arg(flag(alloc, "plain"))?
        .arg(valued(alloc, "references", "PATH"))?
        .arg(file(alloc))?;
    Ok(command)
}

/// A flag without a value.
fn flag<'a>(alloc: Global, name: &'a str) -> Arg<'a>
    ensures rule { rule_of result ≡ flag name.now }
    ensures local { result.global ≡ false }
{
    Arg::new(alloc, name).long(name).action(ArgAction::SetTrue)
}

/// A flag with a value.
fn valued<'a>(alloc: Global, name: &'a str, value: &'a str) -> Arg<'a>
    ensures rule { rule_of result ≡ valued name.now }
    ensures local { result.global ≡ false }
{
    Arg::new(alloc, name).long(name).value_name(value)
}

/// The word that is no flag.
fn file<'a>(alloc: Global) -> Arg<'a>
    ensures rule { rule_of result ≡ file_rule }
    ensures local { result.global ≡ false }
{
    Arg::new(alloc, "file").value_name("FILE")
}
