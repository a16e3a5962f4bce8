//! `tfmset_version`: the version of the library.
ghost use Rattle.std.specs.Prelude.{◌≡◌};
ghost use Rattle.tfmset_c.specs.Version.{version_number};

/// Returns the version of the library: for version X.Y.Z it is 1,000,000 * X + 1,000 * Y + Z.
#[unsafe(no_mangle)]
pub extern "C" fn tfmset_version() -> u32
    ensures { result ≡ version_number 0 2 0 }
{
    2_000
}
