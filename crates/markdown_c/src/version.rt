//! The version of the library.
ghost use Rattle.std.specs.Prelude.{◌≡◌};

/// Major, minor and patch version, a byte each, as in `0x010203` for 1.2.3.
const VERSION: u32 = 0x000100;

/// Returns the version of the library, to be compared with `MARKDOWN_VERSION` of the header.
#[unsafe(no_mangle)]
pub extern "C" fn markdown_version() -> u32
    ensures version { result ≡ VERSION }
{
    VERSION
}
