ghost use Rattle.std.specs.Prelude.{◌≡◌, ◌<◌, ◌≤◌, [], Some, length, if◌then◌else◌, IsTrue, IfOk, OnOk};
ghost use Rattle.std.specs.List.{list_all};
ghost use Rattle.dt_record.specs.declared.limits.TheConstants.{RECORD_LIMIT};
ghost use Rattle.dt_record.specs.Keys.{key_of};
ghost use Rattle.dt_record.specs.Lawful.{IsLawful, is_lawful};
ghost use Rattle.dt_reference.specs.HartActions.{action_of};
ghost use Rattle.dt_step.specs.State.{IsArch};
ghost use Rattle.dt_hart.specs.Counting.{IsCounted, key_after};
ghost use Rattle.dt_hart.specs.OwnWrites.{are_of, are_rising};
ghost use Rattle.dt_hart.specs.Replaying.{IsReplayed, Replays, ReplaysOn, is_fence_i};
ghost use Rattle.dt_hart.specs.Taking.{is_placed};

use crate::accesses::Accesses;
use crate::atomics::reserved_by;
use crate::effects::ordering_plan;
use crate::places::is_placed;
use dt_decode::Instr;
use dt_local::Local;
use dt_record::{Body, Key, Origin, Record, Sources, key_of};
use dt_reference::{actions_go_on, meaning};
use dt_step::{Arch, Planned};
use dt_stores::{Stores, drains_stay_below};
use std::alloc::{AllocError, Global};

const NO_SOURCES: Sources = Sources {
    count: 0,
    from: [Origin::Image; 8],
};

/// What the records of a hart leave that needs neither its registers nor memory over time: of the
/// accesses its stores and its last read.
#[derive(Debug, Drop)]
pub struct Replayed {
    pub accesses: Accesses,
    pub reserved: Option<(u64, Key)>,
    /// The key of the last fence of instructions.
    pub instructions: Option<Key>,
    pub seq: u32,
    pub stamp: u64,
}

/// Takes the first records of a hart again, in any state of it: a FENCE orders the same in all. What
/// no hart could have done is left out.
pub fn replay(alloc: Global, a: &Arch, before: &[Record]) -> Result<Replayed, AllocError>
    requires arch { IsArch a.now }
    requires lawful { IsTrue (list_all is_lawful before.now) }
    requires its { IsTrue (are_of a.now.hart before.now) }
    requires rising { IsTrue (are_rising before.now) }
    requires room { length before.now ≤ RECORD_LIMIT }
    ensures { IfOk result (λ v. IsReplayed a.now.hart v before.now) }
{
    actions_go_on();
    let mut replayed = Replayed::new(alloc, a);
    for event in before {
        replayed.take(a, event)?;
    }
    Ok(replayed)
}

impl Replayed {
    fn new(alloc: Global, a: &Arch) -> Replayed
        ensures { IsReplayed a.now.hart result [] }
    {
        let _hart = a.hart;
        Replayed {
            accesses: Accesses {
                stores: Stores::new(alloc),
                local: Local::new(alloc),
                floor: 0,
                last_read: 0,
            },
            reserved: None,
            instructions: None,
            seq: 0,
            stamp: 0,
        }
    }

    fn take(&mut self, a: &Arch, event: &Record) -> Result<(), AllocError>
        requires arch { IsArch a.now }
        requires lawful { IsLawful event.now }
        requires counted { IsCounted self.old.accesses.stores (key_of self.old.seq event.now) }
        requires room { self.old.seq < RECORD_LIMIT }
        ensures { OnOk result (ReplaysOn self.old self.new event.now) }
    {
        let key = key_of(event, self.seq);
        self.reserved = reserved_by(key, event, self.reserved);
        self.instructions = last_fence_i(key, event, self.instructions);
        take_placed(&mut self.accesses, a, self.seq, event)?;
        self.seq += 1;
        self.stamp = event.stamp;
        Ok(())
    }
}

/// The key of the last fence of instructions, after the record with this key.
fn last_fence_i(key: Key, event: &Record, old: Option<Key>) -> Option<Key>
    requires { IsLawful event.now }
    ensures { result ≡ (if is_fence_i event.now.body then Some key else old) }
{
    match event.body {
        Body::Commit { retire } => match meaning(retire.bits) {
            Some(Instr::FenceI) => Some(key),
            _ => old,
        },
        _ => old,
    }
}

/// Takes what the record does to the accesses, unless its place is one that no access has.
fn take_placed(
    accesses: &mut Accesses,
    a: &Arch,
    seq: u32,
    event: &Record,
) -> Result<(), AllocError>
    requires arch { IsArch a.now }
    requires lawful { IsLawful event.now }
    requires counted { IsCounted accesses.old.stores (key_of seq event.now) }
    requires room { seq < RECORD_LIMIT }
    ensures replays { OnOk result (IsTrue (is_placed (action_of seq event.now))
        → Replays accesses.old accesses.new (key_of seq event.now) event.now.body) }
    ensures counted { OnOk result (IsCounted accesses.new.stores (key_after (key_of seq event.now))) }
{
    if is_placed(event) {
        take_access(accesses, a, seq, event)?;
    }
    Ok(())
}

fn take_access(
    accesses: &mut Accesses,
    a: &Arch,
    seq: u32,
    event: &Record,
) -> Result<(), AllocError>
    requires arch { IsArch a.now }
    requires lawful { IsLawful event.now }
    requires placed { IsTrue (is_placed (action_of seq event.now)) }
    requires counted { IsCounted accesses.old.stores (key_of seq event.now) }
    requires room { seq < RECORD_LIMIT }
    ensures replays { OnOk result (Replays accesses.old accesses.new (key_of seq event.now) event.now.body) }
    ensures counted { OnOk result (IsCounted accesses.new.stores (key_after (key_of seq event.now))) }
{
    drains_stay_below();
    match ordering_plan(a, event) {
        None => accesses.take(seq, event, NO_SOURCES),
        Some(fence) => {
            if let Planned::Fences { ww, wr, rr } = fence {
                accesses.take_fence(ww, wr, rr);
            }
            Ok(())
        }
    }
}
