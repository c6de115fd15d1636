//! The version of the static library: a constant, and the C call that returns it.
ghost use Rattle.std.specs.Prelude.{◌≡◌};

/// The version: major times 65,536, minor times 256, patch. It is `TILG_VERSION` in C's header and `VERSION` in the
/// Rust crate.
pub const VERSION: u32 = 1024;

/// The version of the linked library. Compare it with the version of the header that your code was compiled with.
#[unsafe(no_mangle)]
pub extern "C" fn tilg_version_0_4() -> u32
    ensures { result ≡ VERSION }
{
    VERSION
}
