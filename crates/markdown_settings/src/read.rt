//! Reads the command line.
ghost use Rattle.std.specs.Prelude.{◌≡◌, IfOk, IfErr, OnOk, [], true, codes, option_map, string_bytes};
ghost use Rattle.clap.specs.Words.{first_of, found_of, kind_of, rows_of, Kinds, IsAmong};
ghost use Rattle.markdown_compile_options.specs.Mdx.{HasNoMdx};
ghost use Rattle.markdown_settings.specs.Flags.{flags_in, is_true_text, MeanRows};
ghost use Rattle.markdown_settings.specs.Settings.{faults_of, file_of, path_of, takes_words, MeanWords};
ghost use Rattle.markdown_settings.specs.Settings.{named_file, HasFault, Refuses, word_texts};

use crate::command::command;
use crate::flags::{Flags, Settings};
use crate::help::{HELP, VERSION};
use crate::settings_error::SettingsError;
use clap::error::ErrorKind;
use clap::{ArgMatches, Error};
use markdown_compile_options::Options;
use std::alloc::{AllocError, Global};

/// Reads the words of the command line, without the program's name.
///
/// `--gfm` reads and prints GitHub Flavored Markdown. `--mark`, `--math` and `--frontmatter` read marked text, math and
/// frontmatter. `--heading-ids` and `--lazy-images` turn the options of these names on; `--heading-id-prefix`, `--link-base`,
/// `--image-base` and `--link-rel` are followed by the text of the option. `--listed-html` keeps raw HTML by the list of elements
/// and attributes. `--dangerous` keeps all raw HTML and every URL protocol, also with `--listed-html`. `--plain` turns all
/// constructs off. `--references` is followed by the path of a file. One word that is no flag may be the
/// path of the file to read; `-` is standard input.
pub fn settings(alloc: Global, words: &[String]) -> Result<Settings, SettingsError>
    // The options and the paths are those of the command's matches for the words.
    ensures options { IfOk result (λ s. MeanWords (word_texts words.now) s.options) }
    ensures file { IfOk result (λ s. option_map string_bytes s.file ≡ file_of (word_texts words.now)) }
    ensures references { IfOk result (λ s. option_map string_bytes s.references ≡ path_of (word_texts words.now)) }
    ensures without_mdx { IfOk result (λ s. HasNoMdx s.options) }

    // The words are refused only where the command finds a fault in them.
    ensures faultless { OnOk result (faults_of (word_texts words.now) ≡ []) }
    ensures refused { IfErr result (λ e. Refuses (faults_of (word_texts words.now)) e) }
    ensures taken { takes_words (word_texts words.now) ≡ true → IfErr result (λ e. e ≡ SettingsError.Memory) }
{
    let command = command(alloc)?;
    match command.try_get_matches_from(words) {
        Ok(matches) => settings_of(alloc, &matches),
        Err(error) => Err(refusal(&error)),
    }
}

/// The settings of the command's matches.
fn settings_of(alloc: Global, matches: &ArgMatches<'_>) -> Result<Settings, SettingsError>
    ensures options { IfOk result (λ s. MeanRows (rows_of (found_of matches.now)) s.options) }
    ensures file { IfOk result (λ s. option_map string_bytes s.file ≡ named_file (first_of (codes "file") (rows_of (found_of matches.now)))) }
    ensures references { IfOk result (λ s. option_map string_bytes s.references ≡ first_of (codes "references") (rows_of (found_of matches.now))) }
    ensures without_mdx { IfOk result (λ s. HasNoMdx s.options) }
    ensures memory { IfErr result (λ e. e ≡ SettingsError.Memory) }
{
    let file = copied(alloc, named_file(value(matches, "file")))?;
    let references = copied(alloc, value(matches, "references"))?;
    Ok(Settings {
        options: options_of(alloc, matches)?,
        file,
        references,
    })
}

/// The options of the command's matches.
#[tactic(auto, using(crate::proofs::Options::mean))]
fn options_of(alloc: Global, matches: &ArgMatches<'_>) -> Result<Options, AllocError>
    ensures options { IfOk result (λ options. MeanRows (rows_of (found_of matches.now)) options) }
    ensures without_mdx { IfOk result HasNoMdx }
{
    let mut options = flags(matches).options();
    let compile = &mut options.compile;
    compile.heading_id_prefix = copied(alloc, value(matches, "heading-id-prefix"))?;
    compile.link_base = copied(alloc, value(matches, "link-base"))?;
    compile.image_base = copied(alloc, value(matches, "image-base"))?;
    compile.link_rel = copied(alloc, value(matches, "link-rel"))?;
    Ok(options)
}

/// The flags that are set.
fn flags(matches: &ArgMatches<'_>) -> Flags
    ensures { result ≡ flags_in (rows_of (found_of matches.now)) }
{
    Flags {
        gfm: is_set(matches, "gfm"),
        mark: is_set(matches, "mark"),
        math: is_set(matches, "math"),
        frontmatter: is_set(matches, "frontmatter"),
        heading_ids: is_set(matches, "heading-ids"),
        lazy_images: is_set(matches, "lazy-images"),
        listed_html: is_set(matches, "listed-html"),
        dangerous: is_set(matches, "dangerous"),
        plain: is_set(matches, "plain"),
    }
}

/// Whether a flag is set.
fn is_set(matches: &ArgMatches<'_>, id: &str) -> bool
    ensures { result ≡ is_true_text (first_of id.now (rows_of (found_of matches.now))) }
{
    match value(matches, id) {
        Some(text) => text == "true",
        None => false,
    }
}

/// The first value of an argument.
fn value<'a>(matches: &ArgMatches<'a>, id: &str) -> Option<&'a str>
    ensures { option_map (λ s. s.now) result ≡ first_of id.now (rows_of (found_of matches.now)) }
{
    matches.get_str(id)
}

/// The file of this name, or none if the name is that of standard input.
fn named_file<'a>(name: Option<&'a str>) -> Option<&'a str>
    ensures { option_map (λ s. s.now) result ≡ named_file (option_map (λ s. s.now) name.entry) }
{
    match name {
        Some("-") => None,
        other => other,
    }
}

/// An owned copy of a value.
fn copied(alloc: Global, value: Option<&str>) -> Result<Option<String>, AllocError>
    ensures { IfOk result (λ copy. option_map string_bytes copy ≡ option_map (λ s. s.now) value.entry) }
{
    match value {
        Some(text) => Ok(Some(String::from_str(alloc, text)?)),
        None => Ok(None),
    }
}

/// The error for an error of the command.
fn refusal(error: &Error) -> SettingsError
    ensures memory { kind_of error.now ≡ ErrorKind.OutOfMemory → result ≡ SettingsError.Memory }
    ensures refused { (faults : Kinds) → IsAmong (kind_of error.now) faults → Refuses faults result }
{
    match error.kind() {
        ErrorKind::OutOfMemory => SettingsError::Memory,
        ErrorKind::DisplayHelp => SettingsError::Help(HELP),
        ErrorKind::DisplayVersion => SettingsError::Help(VERSION),
        _ => SettingsError::Words,
    }
}
