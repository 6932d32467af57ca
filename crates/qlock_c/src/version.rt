//! The version of the library.
ghost use Rattle.std.specs.Prelude.{◌≡◌, ◌+◌, ◌*◌};

/// The version, as in `CHANGELOG.md`.
const MAJOR: u32 = 0;

const MINOR: u32 = 2;

const PATCH: u32 = 0;

/// Returns the version as a number: the major version times 10,000, the minor one times 100, and the
/// patch. Of 0.2.0 it is 200.
#[unsafe(no_mangle)]
pub extern "C" fn qlock_version() -> u32
    ensures { result ≡ 200 }
{
    MAJOR * 10_000 + MINOR * 100 + PATCH
}
