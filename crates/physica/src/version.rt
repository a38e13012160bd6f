// The library's version.
ghost use Rattle.std.specs.Prelude.{◌≡◌};
ghost use Rattle.physica.specs.Version.{version};

const MAJOR: u32 = 0;

const MINOR: u32 = 2;

// 100 times the first number and the second.
#[unsafe(no_mangle)]
#[tactic(auto, unfolding(crate::specs::Version::version))]
pub extern "C" fn physica_version() -> u32
    ensures { result ≡ version }
{
    100 * MAJOR + MINOR
}
