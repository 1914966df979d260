//! C function that returns the version of the library.

ghost use Rattle.std.specs.Prelude.{◌≡◌};

/// Ten thousand times the first number of the version, a hundred times the second one, and the third
/// one.
const VERSION_NUMBER: u32 = 900;

/// Returns the version of the library as a number.
#[unsafe(no_mangle)]
pub extern "C" fn gix_version() -> u32
    // The result is 900.
    ensures { result ≡ 900 }
{
    VERSION_NUMBER
}
