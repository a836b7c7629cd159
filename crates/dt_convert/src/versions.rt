ghost use Rattle.std.specs.Prelude.{◌≡◌};
ghost use Rattle.dt_record.specs.ProbeFile.{version_number};
ghost use Rattle.dt_convert.specs.Convert.{version_of};

/// A version of the probe file.
#[derive(Clone, Copy, Debug, PartialEq, Eq)]
pub enum FileVersion {
    /// Each field in its full width.
    One,
    /// Numbers in groups of seven bits, and no byte for a number that is 0.
    Two,
}

/// The number in a file's header.
pub fn number_of(version: FileVersion) -> u8
    ensures { result ≡ version_number (version_of version) }
{
    match version {
        FileVersion::One => 1,
        FileVersion::Two => 2,
    }
}
