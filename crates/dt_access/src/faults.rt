ghost use Rattle.std.specs.Prelude.{◌≡◌};
ghost use Rattle.dt_access.specs.Faults.{access_cause, fault_cause, page_cause};

use dt_csr::cause::{FETCH_ACCESS, FETCH_PAGE, LOAD_ACCESS, LOAD_PAGE, STORE_ACCESS, STORE_PAGE};
use dt_walk::{Access, WalkAnswer};

/// The cause of a page fault.
pub fn page_cause(access: Access) -> u64
    ensures { result ≡ page_cause access }
{
    match access {
        Access::Fetch => FETCH_PAGE,
        Access::Load => LOAD_PAGE,
        Access::Store => STORE_PAGE,
    }
}

/// The cause of an access fault.
pub fn access_cause(access: Access) -> u64
    ensures { result ≡ access_cause access }
{
    match access {
        Access::Fetch => FETCH_ACCESS,
        Access::Load => LOAD_ACCESS,
        Access::Store => STORE_ACCESS,
    }
}

/// The cause that the outcome of a translation raises, if it is a fault.
pub fn fault_cause(access: Access, outcome: WalkAnswer) -> Option<u64>
    ensures { result ≡ fault_cause access outcome }
{
    match outcome {
        WalkAnswer::Page(_) => None,
        WalkAnswer::PageFault => Some(page_cause(access)),
        WalkAnswer::AccessFault => Some(access_cause(access)),
    }
}
