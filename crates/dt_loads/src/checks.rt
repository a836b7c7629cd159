ghost use Rattle.std.specs.Prelude.{◌≡◌, List};
ghost use Rattle.dt_alu.specs.Extend.{IsAccessWidth};
ghost use Rattle.dt_record.specs.Actions.{Action, order_floor};
ghost use Rattle.dt_stores.specs.Standing.{StoresStand};
ghost use Rattle.dt_loads.specs.Checks.{device_check, order_check};

use dt_alu::extend;
use dt_rules::{Misfit, Reason, device, none_left};
use dt_stores::{Stores, Which};

/// Checks the value that a load of this many bytes (1, 2, 4 or 8) has from a device. A misfit
/// expects the extension of the value's low bytes.
pub fn device_value(width: u8, signed: bool, value: u64) -> Result<(), Misfit>
    requires { IsAccessWidth width }
    ensures { result ≡ device_check width signed value }
{
    if device(width, signed, value) {
        Ok(())
    } else {
        Err(Misfit {
            reason: Reason::Adopt,
            expected: extend(width, signed, value),
            found: value,
        })
    }
}

/// Checks the cycle of a load from RAM against the order floor of its hart, and then against the
/// stores before the last write-before-read fence. A misfit expects the floor or the seq of the
/// oldest store that is still undrained, and found the cycle.
pub fn order(s: &Stores, floor: u64, at: u64) -> Result<(), Misfit>
    ensures { (actions : List Action) → StoresStand s.now actions → floor ≡ order_floor actions → result ≡ order_check actions at }
{
    if at < floor {
        return Err(Misfit {
            reason: Reason::Order,
            expected: floor,
            found: at,
        });
    }
    none_left(Reason::Order, s.oldest(Which::BeforeWr, at), at)
}
