//! Why a command line gives no settings.
use std::alloc::AllocError;

/// Why a command line gives no settings.
#[derive(Debug, Drop)]
pub enum SettingsError {
    /// The command line has `--help` or `--version`. This is the text to print.
    Help(&'static str),
    /// The command line is wrong.
    Words,
    /// Out of memory.
    Memory,
}

impl From<AllocError> for SettingsError {
    ghost use Rattle.std.specs.Prelude.{◌≡◌};
    ghost use Rattle.markdown_settings.specs.declared.settings_error.SettingsError.TheVariants.{Memory};

    ghost from_gives = { λ _ error. error ≡ Memory };

    fn from(_error: AllocError) -> SettingsError {
        SettingsError::Memory
    }
}
