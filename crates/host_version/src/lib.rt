// The version of the core, so that a host can compare the archive that it runs with the header that it was
// compiled with.
#![tactic(auto)]

ghost use Rattle.std.specs.Prelude.{◌≡◌};
ghost use Rattle.host_version.specs.Version.{version};

// Version 0.5.0.
const VERSION: u64 = 5000;

// The version as one number: major * 1,000,000 + minor * 1,000 + patch.
pub fn scopes_version() -> u64
    ensures { result ≡ version }
{
    VERSION
}
