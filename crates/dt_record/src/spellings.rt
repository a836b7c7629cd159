ghost use Rattle.std.specs.Prelude.{◌≡◌};
ghost use Rattle.dt_record.specs.ProbeFile.{version_number};
ghost use Rattle.dt_record.specs.Versions.{version_of};

/// Which spelling the records of a probe file have.
#[derive(Clone, Copy, Debug, PartialEq, Eq)]
pub enum Version {
    One,
    Two,
}

impl Version {
    /// The number in the header of a file.
    pub fn number(self) -> u16
        ensures { result ≡ version_number (version_of self) }
    {
        match self {
            Version::One => 1,
            Version::Two => 2,
        }
    }
}
