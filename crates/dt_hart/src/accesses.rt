ghost use Rattle.std.specs.Prelude.{◌≡◌, ◌<◌, ℕ, max, if◌then◌else◌, IsFalse, IsTrue, IfSome, OnOk, OnErr, List, [], ◌∷◌, ◌++◌, take};
ghost use Rattle.std.specs.Option.{option_map_or};
ghost use Rattle.dt_local.specs.LocalMemory.{newest_of, is_noted, greater};
ghost use Rattle.dt_record.specs.declared.limits.TheConstants.{RECORD_LIMIT};
ghost use Rattle.dt_record.specs.Actions.{Action, Drained, Fenced};
ghost use Rattle.dt_record.specs.Lawful.{IsLawful, is_atomic_place, is_ram_line};
ghost use Rattle.dt_record.specs.Keys.{key_of};
ghost use Rattle.dt_reference.specs.HartActions.{action_of};
ghost use Rattle.dt_sources.specs.Knowing.{covering_key};
ghost use Rattle.dt_stores.specs.declared.answers.DrainAnswer.TheVariants as answer;
ghost use Rattle.dt_stores.specs.Draining.{drain_answer};
ghost use Rattle.dt_stores.specs.GoingOn.{AreDrainedBelow};
ghost use Rattle.dt_stores.specs.Standing.{GainsAction, StoresStand};
ghost use Rattle.dt_hart.specs.Counting.{CountsOn};
ghost use Rattle.dt_hart.specs.Following.{Follows, KeepsAccesses, read_key};
ghost use Rattle.dt_hart.specs.Marks.{KeepsAccessMarks};
ghost use Rattle.dt_hart.specs.Taking.{is_placed, is_access_place, is_fenced};

use crate::atomics::{AtomicOrder, order_of};
use crate::notes::{note_atomic, note_read};
use crate::places::width_of;
use dt_local::Local;
use dt_record::{Body, Key, OwnStore, Record, Sources, Write, is_in_ram, write_of};
use dt_stores::{DrainAnswer, Stores, atomics_keep_stores, drains_stay_below, loads_keep_stores};
use std::alloc::AllocError;

/// What a hart's memory accesses leave, as later ones ask for it.
#[derive(Debug, Drop)]
pub struct Accesses {
    pub stores: Stores,
    pub local: Local,
    /// The cycle that the next load may not be below.
    pub floor: u64,
    /// The greatest cycle in which the hart read memory.
    pub last_read: u64,
}

/// What an atomic accesses, and how.
#[derive(Clone, Copy, Debug)]
struct AtomicAccess {
    order: AtomicOrder,
    /// The write that it made, if any.
    own: Option<Write>,
    addr: u64,
    width: u8,
}

impl Accesses {
    /// Takes what the record with this number does, which is no fence. The sources are those of a
    /// load from RAM, or of an LR or AMO.
    pub fn take(&mut self, seq: u32, event: &Record, sources: Sources) -> Result<(), AllocError>
        requires lawful { IsLawful event.now }
        requires no_fence { IsFalse (is_fenced (action_of seq event.now)) }
        requires placed { IsTrue (is_placed (action_of seq event.now)) }
        requires below { AreDrainedBelow (key_of seq event.now) self.old.stores.held }
        ensures follows { OnOk result (Follows self.old self.new (key_of seq event.now) event.now.body sources) }
        ensures counted { OnOk result (CountsOn (key_of seq event.now) self.old.stores self.new.stores) }
        ensures marks { OnOk result (KeepsAccessMarks self.old self.new) }
        ensures unchanged { OnErr result (KeepsAccesses self.old self.new) }
    {
        loads_keep_stores();
        atomics_keep_stores();
        drains_stay_below();
        let stamp = event.stamp;
        let hart = event.hart;
        let key = Key { stamp, hart, seq };
        match event.body {
            Body::Load { retire, at, paddr } if is_in_ram(paddr) => {
                self.take_load(at, paddr, width_of(retire.bits), sources)
            }
            Body::Store {
                bits,
                paddr,
                value,
                ..
            } if is_in_ram(paddr) => self.stores.commit(OwnStore {
                seq,
                addr: paddr,
                width: width_of(bits),
                value,
            }),
            Body::Atomic {
                retire,
                paddr,
                width,
                wrote,
                ..
            } => {
                let atomic = AtomicAccess {
                    order: order_of(retire.bits, wrote),
                    own: write_of(event, seq),
                    addr: paddr,
                    width,
                };
                self.take_atomic(stamp, atomic, sources)
            }
            Body::Drain {
                line,
                mask,
                count,
                ..
            } => self.take_drain(key, line, mask, count),
            _ => Ok(()),
        }
    }

    /// Takes a fence that orders writes before writes, writes before reads, and reads before reads.
    pub fn take_fence(&mut self, ww: bool, wr: bool, rr: bool)
        requires { (self.old.stores.ww < RECORD_LIMIT) × (self.old.stores.wr < RECORD_LIMIT) }
        ensures stores { GainsAction self.old.stores self.new.stores (Fenced ww wr rr) }
        ensures keys { self.new.local.keys ≡ self.old.local.keys }
        ensures floor { self.new.floor ≡ max self.old.floor (if rr then self.old.last_read else 0) }
        ensures last_read { self.new.last_read ≡ self.old.last_read }
        ensures marks { KeepsAccessMarks self.old self.new }
    {
        self.stores.fence(ww, wr);
        self.floor = raised(self.floor, rr, self.last_read);
    }

    /// A load from RAM notes the writes that its bytes came from.
    fn take_load(
        &mut self,
        at: u64,
        addr: u64,
        width: u8,
        sources: Sources,
    ) -> Result<(), AllocError>
        requires place { IsTrue (is_access_place addr width) }
        ensures stores { self.new.stores ≡ self.old.stores }
        ensures noted { OnOk result ((byte : ℕ) → newest_of self.new.local byte ≡ greater (newest_of self.old.local byte)
            (read_key addr (take width sources.from) byte)) }
        ensures floor { self.new.floor ≡ self.old.floor }
        ensures last_read { OnOk result (self.new.last_read ≡ max self.old.last_read at) }
        ensures marks { OnOk result (KeepsAccessMarks self.old self.new) }
        ensures unchanged { OnErr result (KeepsAccesses self.old self.new) }
    {
        note_read(&mut self.local, addr, &sources.from[..usize::from(width)])?;
        self.last_read = self.last_read.max(at);
        Ok(())
    }

    /// An atomic in a cycle.
    fn take_atomic(
        &mut self,
        stamp: u64,
        atomic: AtomicAccess,
        sources: Sources,
    ) -> Result<(), AllocError>
        requires place { IsTrue (is_atomic_place atomic.addr atomic.width) }
        requires line { IfSome atomic.own (λ w. IsTrue (is_ram_line w.line)) }
        ensures stores { self.new.stores ≡ self.old.stores }
        ensures noted { OnOk result ((byte : ℕ) → newest_of self.new.local byte ≡ greater (newest_of self.old.local byte)
            (option_map_or (covering_key byte) atomic.own
            (if atomic.order.reads then read_key atomic.addr (take atomic.width sources.from) byte else None))) }
        ensures floor { OnOk result (self.new.floor ≡ max self.old.floor (if atomic.order.acquires then stamp else 0)) }
        ensures last_read { OnOk result (self.new.last_read ≡ max self.old.last_read (if atomic.order.reads then stamp else 0)) }
        ensures marks { OnOk result (KeepsAccessMarks self.old self.new) }
        ensures unchanged { OnErr result (KeepsAccesses self.old self.new) }
    {
        let AtomicAccess {
            order,
            own,
            addr,
            width,
        } = atomic;
        let from = &sources.from[..usize::from(width)];
        note_atomic(&mut self.local, own, order.reads, addr, from)?;
        self.floor = raised(self.floor, order.acquires, stamp);
        self.last_read = raised(self.last_read, order.reads, stamp);
        Ok(())
    }

    /// A drain notes its own key. One that is allowed takes its stores, so no other answer is asked.
    fn take_drain(&mut self, key: Key, line: u64, mask: u64, count: u16) -> Result<(), AllocError>
        requires line { IsTrue (is_ram_line line) }
        requires below { AreDrainedBelow key self.old.stores.held }
        ensures stores { OnOk result ((actions : List Action) (taken : ℕ) (bytes : List ℕ) → StoresStand self.old.stores actions
            → drain_answer actions line count ≡ answer.Took taken bytes
            → StoresStand self.new.stores (actions ++ Drained key line count ∷ [])) }
        ensures counted { OnOk result (CountsOn key self.old.stores self.new.stores) }
        ensures noted { OnOk result ((byte : ℕ) → newest_of self.new.local byte ≡ greater (newest_of self.old.local byte)
            (if is_noted line mask byte then Some key else None)) }
        ensures floor { self.new.floor ≡ self.old.floor }
        ensures last_read { self.new.last_read ≡ self.old.last_read }
        ensures marks { OnOk result (KeepsAccessMarks self.old self.new) }
        ensures unchanged { OnErr result (KeepsAccesses self.old self.new) }
    {
        drains_stay_below();
        self.local.reserve(line, mask)?;
        if let DrainAnswer::OutOfMemory = self.stores.drain(key, line, count) {
            return Err(AllocError);
        }
        self.local.note(line, mask, &[key; 64]);
        Ok(())
    }
}

/// The cycle, raised to another one where that is asked.
fn raised(cycle: u64, asked: bool, to: u64) -> u64
    ensures { result ≡ max cycle (if asked then to else 0) }
{
    if asked { cycle.max(to) } else { cycle }
}
