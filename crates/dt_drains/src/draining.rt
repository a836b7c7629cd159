ghost use Rattle.std.specs.Prelude.{◌≡◌, ◌==◌, List, IsOk, Ok};
ghost use Rattle.dt_record.specs.declared.reasons.Reason.TheVariants.{DrainData};
ghost use Rattle.dt_record.specs.Actions.{Action};
ghost use Rattle.dt_stores.specs.Standing.{StoresStand};
ghost use Rattle.dt_stores.specs.Draining.{drain_answer};
ghost use Rattle.dt_rules.specs.Checks.{misfit, check, first_difference};
ghost use Rattle.dt_drains.specs.Draining.{store_data_check, answer_check, drain_check};

use dt_rules::{Misfit, Reason, same_bytes};
use dt_stores::{DrainAnswer, Stores};

/// Whether a store has the low bytes that its instruction stores, with zeros above them. A misfit
/// is of StoreData and has both numbers.
pub fn store_data(due: u64, found: u64) -> Result<(), Misfit>
    ensures { result ≡ store_data_check due found }
{
    if due == found {
        Ok(())
    } else {
        Err(misfit(Reason::StoreData, due, found))
    }
}

/// Whether a drain may take the `count` oldest waiting stores of a line, and writes them: the bytes
/// with a mask bit (bit i for byte i), and 0 at the others. `seq` is the number of the record among
/// those of its hart.
///
/// The first misfit counts: of DrainCount, which expects as many stores as wait and found `count`;
/// of Barrier, which expects the number of the store that has to drain first and found `seq`; of
/// DrainData, which has the two masks, or else the first two bytes that differ.
pub fn drains(
    s: &Stores,
    line: u64,
    mask: u64,
    count: u16,
    bytes: &[u8; 64],
    seq: u32,
) -> Result<(), Misfit>
    ensures checks { (actions : List Action) → StoresStand s.now actions → result ≡ drain_check actions line mask count bytes.now seq }
    ensures took { IsOk result → (actions : List Action) → StoresStand s.now actions
        → drain_answer actions line count ≡ DrainAnswer.Took mask bytes.now }
{
    is_answer(s.would_drain(line, count), mask, count, bytes, seq)
}

/// Whether a drain is as the answer says that it is due.
fn is_answer(
    answer: DrainAnswer,
    mask: u64,
    count: u16,
    bytes: &[u8; 64],
    seq: u32,
) -> Result<(), Misfit>
    ensures checks { result ≡ answer_check answer mask count bytes.now seq }
    ensures took { IsOk result → answer ≡ DrainAnswer.Took mask bytes.now }
{
    match answer {
        DrainAnswer::Few { held } => Err(misfit(
            Reason::DrainCount,
            u64::from(held),
            u64::from(count),
        )),
        DrainAnswer::Barred { seq: oldest } => {
            Err(misfit(Reason::Barrier, u64::from(oldest), u64::from(seq)))
        }
        DrainAnswer::Took {
            mask: due,
            bytes: dues,
        } => is_data(due, &dues, mask, bytes),
        DrainAnswer::OutOfMemory => Err(misfit(Reason::DrainCount, 0, u64::from(count))),
    }
}

/// Whether a mask and the bytes of a line are those that are due.
fn is_data(due: u64, dues: &[u8; 64], mask: u64, bytes: &[u8; 64]) -> Result<(), Misfit>
    ensures checks { result ≡ check (due == mask) (misfit DrainData due mask) (first_difference DrainData dues.now bytes.now) }
    ensures mask { IsOk result → due ≡ mask }
    ensures bytes { IsOk result → dues.now ≡ bytes.now }
{
    if due != mask {
        return Err(misfit(Reason::DrainData, due, mask));
    }
    same_bytes(Reason::DrainData, dues, bytes)
}

fn misfit(reason: Reason, expected: u64, found: u64) -> Misfit
    ensures { result ≡ misfit reason expected found }
{
    Misfit {
        reason,
        expected,
        found,
    }
}
