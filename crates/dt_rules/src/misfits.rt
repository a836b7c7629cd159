ghost use Rattle.std.specs.Prelude.{◌≡◌, length, IsOk};
ghost use Rattle.dt_rules.specs.Checks.{first_difference, none_left};

use dt_record::{Letters, Origin, Reason, Sources};

/// Why a record is not allowed: the first check that it fails, what that check expected and what it
/// found. docs/JUDGEMENT.md says for each reason what the two numbers are.
#[derive(Clone, Copy, Debug, PartialEq, Eq)]
pub struct Misfit {
    pub reason: Reason,
    pub expected: u64,
    pub found: u64,
}

/// What is told of a record that is allowed: the letters of the rules that settled it, and where the
/// bytes come from that it read from RAM.
#[derive(Clone, Copy, Debug, PartialEq, Eq)]
pub struct Passed {
    pub letters: Letters,
    pub sources: Sources,
}

/// What stands in a misfit in the place of a number that there is not. This project's own.
pub const NO_NUMBER: u64 = 0xffff_ffff_ffff_ffff;

/// The letters of a record that no rule had to settle.
pub const NO_LETTERS: Letters = Letters {
    l: false,
    s: false,
    p: false,
    i: false,
    d: false,
    c: false,
    z: false,
};

/// The sources of a record that read nothing from RAM.
pub const NO_SOURCES: Sources = Sources {
    count: 0,
    from: [Origin::Image; 8],
};

/// Whether no store is left of those that a record waits for. A misfit expects the number of the
/// oldest among the records of its hart; what it found is for the caller to say.
pub fn none_left(reason: Reason, oldest: Option<u32>, found: u64) -> Result<(), Misfit>
    ensures { result ≡ none_left reason oldest found }
{
    match oldest {
        None => Ok(()),
        Some(oldest) => Err(Misfit {
            reason,
            expected: u64::from(oldest),
            found,
        }),
    }
}

/// Whether bytes are those that are due. A misfit has the first two that differ.
pub fn same_bytes(reason: Reason, dues: &[u8], found: &[u8]) -> Result<(), Misfit>
    requires { length dues.now ≡ length found.now }
    ensures checks { result ≡ first_difference reason dues.now found.now }
    ensures same { IsOk result → dues.now ≡ found.now }
{
    for i in 0..dues.len() {
        if dues[i] != found[i] {
            return Err(Misfit {
                reason,
                expected: u64::from(dues[i]),
                found: u64::from(found[i]),
            });
        }
    }
    Ok(())
}
