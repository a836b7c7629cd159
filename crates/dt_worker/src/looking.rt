//! A look at the history, and what settles by it.
ghost use Rattle.std.specs.Prelude.{◌≡◌, ◌≤◌, List, length, take, IfOk, OnOk};
ghost use mathlib.Core.List.{IsPrefix};
ghost use Rattle.dt_record.specs.declared.writes.Write.{Write};
ghost use Rattle.dt_record.specs.Marks.{least_mark};
ghost use Rattle.dt_settled.specs.AllWrites.{AreAllWrites};
ghost use Rattle.dt_settled.specs.Settling.{Stands, Continues};
ghost use Rattle.dt_shared.specs.Entries.{notes_in};
ghost use Rattle.dt_shared.specs.Records.{identity};
ghost use Rattle.dt_worker.specs.Steps.{LooksFurther};

use dt_settled::{Settled, all_writes_are_promised};
use dt_shared::{Pass, Replica, SharedRecord};
use std::alloc::AllocError;
use std::sync::Wait;

/// Looks at the history, and lets settle what is below its least mark, which it answers.
pub(crate) fn look_up<R: Wait>(
    rt: &R,
    shared: &SharedRecord,
    pass: &mut Pass,
    replica: &mut Replica,
    settled: &mut Settled,
) -> Result<Option<u64>, AllocError>
    requires of_this { pass.old.of ≡ identity shared.now }
    requires begins { IsPrefix replica.old.notes (notes_in pass.old.seen) }
    requires within { settled.old.seen ≤ length replica.old.notes }
    ensures further { LooksFurther replica.old.harts pass.old pass.new replica.old replica.new settled.old settled.new }
    ensures least { IfOk result (λ least. least ≡ least_mark replica.new.harts replica.new.notes) }
    ensures settled { OnOk result ((all : List Write)
        → AreAllWrites settled.new.image replica.new.harts replica.new.notes all
        → Stands settled.old (take settled.old.seen replica.old.notes) all
        → Continues settled.new.writes (least_mark replica.new.harts replica.new.notes) all) }
{
    all_writes_are_promised();
    shared.look(rt, pass, replica)?;
    let least = replica.least_mark();
    settled.see(replica.notes(), least)?;
    Ok(least)
}
