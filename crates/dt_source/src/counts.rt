ghost use Rattle.std.specs.Prelude.{◌≡◌, ◌≤◌};
ghost use Rattle.dt_source.specs.Faults.{counted};

use crate::traits::Failed;

/// Counts one more fault.
pub fn failed(faults: &mut u64) -> Failed
    ensures counts { faults.new ≡ counted faults.old }
    ensures never_falls { faults.old ≤ faults.new }
{
    *faults = faults.saturating_add(1);
    Failed
}
