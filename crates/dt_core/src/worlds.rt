ghost use Rattle.std.specs.Prelude.{◌≡◌, ◌≤◌, ◌<◌, length, filter, Some, IfOk, OnOk, OnErr};
ghost use Rattle.std.specs.List.{slice_get};
ghost use Rattle.dt_record.specs.declared.limits.TheConstants.{HART_LIMIT, RECORD_LIMIT, WRITE_LIMIT};
ghost use Rattle.dt_record.specs.ProbeFile.{AreRecords, no_stamps};
ghost use Rattle.dt_record.specs.Writes.{writes_memory};
ghost use Rattle.dt_core.specs.Machine.{HartState, opening_state, step_state};
ghost use Rattle.dt_core.specs.Runs.{HoldsAfter};

use crate::cores::Core;
use crate::judgements::Judgement;
use crate::steps::CoreStep;
use dt_record::Record;
use std::alloc::{AllocError, Global};
use std::marker::Model;

/// A run over the records of a file, after some steps. A contract sees its whole state.
#[derive(Drop)]
pub struct World<J: Judgement> {
    core: Core<J>,
}

impl<J: Judgement> Model for World<J> {
    ghost use Rattle.dt_core.specs.Machine.{CoreState};
    ghost use Rattle.dt_core.specs.Runs.{IsReached};

    ghost Value = { CoreState J };

    ghost view = { λ w. w.core };

    ghost invariant = { λ w. IsReached J.meaning w.core };
}

impl<J: Judgement> World<J> {
    /// Nothing is fed, and the history is empty.
    pub fn start(
        alloc: Global,
        harts: u8,
        workers: u8,
        file: Vec<Record>,
    ) -> Result<World<J>, AllocError>
        requires some_hart { 1 ≤ harts }
        requires few_harts { harts ≤ HART_LIMIT }
        requires some_worker { 1 ≤ workers }
        requires few_workers { workers ≤ 8 }
        requires each { AreRecords harts no_stamps file.items }
        requires few_records { length file.items ≤ RECORD_LIMIT }
        requires few_writes { length (filter writes_memory file.items) ≤ WRITE_LIMIT }
        ensures { IfOk result (λ world. world ≡ opening_state J.meaning harts workers file.items) }
    {
        let core = Core::start(alloc, harts, workers, file)?;
        Ok(World { core })
    }

    /// How many harts there are.
    pub fn harts(&self) -> u8
        ensures { result ≡ length self.now.harts }
    {
        self.core.harts()
    }

    /// How many records of the hart were judged. Whatever steps came before, the law holds.
    pub fn judged(&self, hart: u8) -> u32
        requires { hart < length self.now.harts }
        ensures count { (s : HartState J) → slice_get self.now.harts hart ≡ Some s → result ≡ length s.outcomes }
        ensures law { HoldsAfter J.meaning (length self.now.harts) self.now.file self.now }
    {
        self.core.judged(hart)
    }

    /// Whether each judged record of the hart was allowed, in their order.
    pub fn outcomes(&self, hart: u8) -> &[bool]
        requires { hart < length self.now.harts }
        ensures { (s : HartState J) → slice_get self.now.harts hart ≡ Some s → result.now ≡ s.outcomes }
    {
        self.core.outcomes(hart)
    }
}

/// Makes a step. One that is not possible changes nothing.
pub fn step<J: Judgement>(w: &mut World<J>, s: CoreStep) -> Result<(), AllocError>
    ensures done { OnOk result (w.new ≡ step_state J.meaning w.old s) }
    ensures unchanged { OnErr result (w.new ≡ w.old) }
{
    w.core.step(&s)?;
    Ok(())
}
