ghost use Rattle.std.specs.Prelude.{◌≡◌, ◌≢◌, ◌↔◌, ℕ, ◌+◌, ◌^◌, ◌<◌, Some, None, true, false, IsTrue, IsOk, IfErr};
ghost use Rattle.std.specs.Int.{bit_at};
ghost use Rattle.dt_csr.specs.Traps.{enabled_codes};
ghost use Rattle.dt_rules.specs.Interrupts.{IsEnabledInterrupt};

use dt_csr::{Csrs, interrupt_enabled};

/// The cause of the interrupt with code 0.
const INTERRUPT: u64 = 1 << 63;

/// Whether an interrupt with this cause may be taken in this mode: `Ok`, or the mask of the enabled
/// codes. What is pending is not known, so priority is not checked.
pub fn interrupt(c: &Csrs, mode: u8, cause: u64) -> Result<(), u64>
    ensures taken { IsOk result ↔ IsEnabledInterrupt c.now mode cause }
    ensures mask { IfErr result (λ mask. mask ≡ enabled_codes c.now mode) }
{
    let enabled = interrupt_enabled(c, mode);
    if has_code_of(enabled, cause) {
        Ok(())
    } else {
        Err(enabled)
    }
}

fn has_code_of(mask: u64, cause: u64) -> bool
    ensures { IsTrue result ↔ ((code : ℕ) × (cause ≡ 2 ^ 63 + code) × (bit_at mask code ≡ 1)) }
{
    if cause < INTERRUPT {
        return false;
    }
    let code = cause - INTERRUPT;
    code < 64 && (mask >> code) & 1 == 1
}

/// Whether a trap may be entered with the tval `found`: it is the expected value or 0. Gives whether
/// 0 stands in place of another value.
pub fn tval(expected: u64, found: u64) -> Option<bool>
    ensures as_expected { (result ≡ Some false) ↔ (found ≡ expected) }
    ensures zero_instead { (result ≡ Some true) ↔ ((found ≡ 0) × (expected ≢ 0)) }
    ensures refused { (result ≡ None) ↔ ((found ≢ expected) × (found ≢ 0)) }
{
    if found == expected {
        Some(false)
    } else if found == 0 {
        Some(true)
    } else {
        None
    }
}
