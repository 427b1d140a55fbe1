//! The command line of the program `markdown`.
ghost use Rattle.std.specs.Prelude.{◌≡◌, IfOk, IfErr, OnOk, [], true, option_map, string_bytes};
ghost use Rattle.markdown_compile_options.specs.Mdx.{HasNoMdx};
ghost use Rattle.markdown_settings.specs.Settings.{faults_of, file_of, path_of, takes_words, MeanWords};
ghost use Rattle.markdown_settings.specs.Settings.{Refuses, word_texts};

use markdown_settings::{Settings, SettingsError};
use std::alloc::Global;

/// `markdown_settings::settings`: each word has its meaning, and wrong words are refused.
pub fn settings(alloc: Global, words: &[String]) -> Result<Settings, SettingsError>
    // The options and the paths are those of the command's matches for the words.
    ensures options { IfOk result (λ s. MeanWords (word_texts words.now) s.options) }
    ensures file { IfOk result (λ s. option_map string_bytes s.file ≡ file_of (word_texts words.now)) }
    ensures references { IfOk result (λ s. option_map string_bytes s.references ≡ path_of (word_texts words.now)) }
    ensures without_mdx { IfOk result (λ s. HasNoMdx s.options) }

    // The words are refused only where the command finds a fault in them.
    ensures faultless { OnOk result (faults_of (word_texts words.now) ≡ []) }
    ensures refused { IfErr result (λ e. Refuses (faults_of (word_texts words.now)) e) }
    ensures taken { takes_words (word_texts words.now) ≡ true → IfErr result (λ e. e ≡ SettingsError.Memory) }
{
    markdown_settings::settings(alloc, words)
}
