ghost use Rattle.std.specs.Prelude.{◌≡◌, ◌<◌, IfOk};
ghost use Rattle.dt_shared.specs.Turns.{IsSized, Rests};
ghost use Rattle.dt_shared.specs.Views.{newcomer};

use crate::entries::Entry;
use crate::gathers::{cut_passes, gather};
use crate::law::{Ask, HALT, OneHistory, Place, Stop};
use crate::passes::Pass;
use crate::replicas::Replica;
use crate::turns::{append_at, look_at};
use crate::views::View;
use atomic_table::Table;
use dt_record::Note;
use std::alloc::{AllocError, Global};
use std::sync::Wait;

/// The history that all workers share. Threads share it by reference.
#[derive(Drop)]
pub struct SharedRecord {
    table: Table<Vec<Entry>, View, u8, OneHistory, Global>,
    passes: u8,
    ghost sized: { IsSized table.shared.table_id },
    ghost keyed: { (table.shared.key ≡ passes) × (0 < passes) },
}

impl SharedRecord {
    ghost use Rattle.std.specs.Prelude.{◌≡◌, ◌<◌, ◌↔◌, ◌||◌, true, [], ◌++◌, All, Any, IsOk, IfOk, IfErr, OnOk, OnErr, vec_len};
    ghost use mathlib.Core.List.{IsPrefix};
    ghost use Rattle.dt_shared.specs.Entries.{entries_of, notes_in, notes_of};
    ghost use Rattle.dt_shared.specs.Passes.{new_pass, AreNumbered};
    ghost use Rattle.dt_shared.specs.Records.{identity, pass_count, Extends};

    /// A record with an empty history, and its passes, numbered from 0.
    pub fn new(alloc: Global, passes: u8) -> Result<(SharedRecord, Vec<Pass>), AllocError>
        requires { 0 < passes }
        ensures count { IfOk result (λ r. pass_count r.0 ≡ passes) }
        ensures numbered { IfOk result (λ r. AreNumbered (identity r.0) passes r.1.items) }
        ensures new { IfOk result (λ r. All (λ p. p ≡ new_pass (identity r.0) p.number) r.1.items) }
    {
        let (shared, first) = open(alloc, passes)?;
        let cut = cut_passes(alloc, &shared.table.shared, first, passes)?;
        Ok((shared, cut))
    }

    /// Puts the notes behind the history, all at once, and leaves the list of notes empty. It waits for
    /// the lock.
    pub fn append<R: Wait>(
        &self,
        rt: &R,
        pass: &mut Pass,
        notes: &mut Vec<Note>,
    ) -> Result<(), AllocError>
        requires of_this { pass.old.of ≡ identity self.now }
        ensures seen { let last = entries_of pass.old.number notes.old.items in
            OnOk result (Extends pass.old.seen pass.new.seen last) }
        ensures own { OnOk result (pass.new.own ≡ pass.old.own ++ notes.old.items) }
        ensures mine { OnOk result (notes_of pass.old.number pass.new.seen ≡ pass.new.own) }
        ensures same { let passed = record pass.old { seen = pass.new.seen; own = pass.new.own } in
            OnOk result (pass.new ≡ passed) }
        ensures emptied { OnOk result (notes.new.items ≡ []) }
        ensures err { OnErr result ((pass.new ≡ pass.old) × (notes.new.items ≡ notes.old.items)) }
    {
        append_at(
            rt,
            &self.table.shared,
            &mut pass.seat,
            pass.number,
            notes.as_slice(),
        )?;
        notes.clear();
        Ok(())
    }

    /// Brings the replica up to the history, which the pass has then seen. It waits for the lock.
    pub fn look<R: Wait>(&self, rt: &R, pass: &mut Pass, to: &mut Replica) -> Result<(), AllocError>
        requires of_this { pass.old.of ≡ identity self.now }
        requires begins { IsPrefix to.old.notes (notes_in pass.old.seen) }
        ensures seen { OnOk result (IsPrefix pass.old.seen pass.new.seen) }
        ensures mine { OnOk result (notes_of pass.old.number pass.new.seen ≡ pass.new.own) }
        ensures same { OnOk result (pass.new ≡ record pass.old { seen = pass.new.seen }) }
        ensures replica { OnOk result (to.new ≡ record to.old { notes = notes_in pass.new.seen }) }
        ensures err { OnErr result ((pass.new ≡ pass.old) × (to.new ≡ to.old)) }
    {
        look_at(rt, &self.table.shared, &mut pass.seat, to)
    }

    /// The pass stops. Any pass can see it from now on.
    pub fn stop(&self, pass: &mut Pass)
        requires of_this { pass.old.of ≡ identity self.now }
        ensures { pass.new ≡ record pass.old { stopped = true } }
    {
        self.table.shared.fetch_or::<Stop>(&mut pass.seat, HALT, 1);
    }

    /// Whether some pass has stopped. A true answer comes only where one has. That it comes once one has
    /// is tested alone.
    pub fn stopped(&self, pass: &mut Pass) -> bool
        requires of_this { pass.old.of ≡ identity self.now }
        ensures { pass.new ≡ record pass.old { saw_stop = pass.old.saw_stop || result } }
    {
        self.table.shared.load::<Ask>(&mut pass.seat, HALT) != 0
    }

    /// Gives all passes back, and answers the history. It is refused where a pass is missing.
    pub fn close(self, passes: Vec<Pass>) -> Result<Vec<Entry>, (SharedRecord, Vec<Pass>)>
        requires of_this { All (λ p. p.of ≡ identity self) passes.items }
        ensures complete { IsOk result ↔ (vec_len passes ≡ pass_count self) }
        ensures refused { IfErr result (λ back. (back.0 ≡ self) × (back.1.items ≡ passes.items)) }
        ensures seen { IfOk result (λ history. All (λ p. IsPrefix p.seen history.items) passes.items) }
        ensures own { IfOk result (λ history.
            All (λ p. p.own ≡ notes_of p.number history.items) passes.items) }
        ensures numbers { IfOk result (λ history.
            All (λ e. Any (λ p. p.number ≡ e.pass) passes.items) history.items) }
        ensures stops { OnOk result (Any (λ p. p.saw_stop ≡ true) passes.items
            → Any (λ p. p.stopped ≡ true) passes.items) }
    {
        if passes.len() != usize::from(self.passes) {
            return Err((self, passes));
        }
        let SharedRecord { table, passes: _ } = self;
        let seat = gather(&table.shared, passes);
        let mut closed = table.close_with(seat);
        let history = closed.take(0);
        closed.free();
        Ok(history)
    }
}

fn open(alloc: Global, passes: u8) -> Result<(SharedRecord, Place), AllocError>
    requires { 0 < passes }
    ensures count { IfOk result (λ r. r.0.passes ≡ passes) }
    ensures first { IfOk result (λ r. (r.1.table_id ≡ r.0.table.shared.table_id) × Rests (newcomer 0) 1 r.1.me) }
{
    let mut slots = Vec::with_capacity(alloc, 1)?;
    slots.push_reserved(Vec::new(alloc));
    match Table::new(alloc, &[0, 0, 0, 0], slots, &passes) {
        Ok((table, seat)) => Ok((SharedRecord { table, passes }, seat)),
        Err(_) => Err(AllocError),
    }
}
