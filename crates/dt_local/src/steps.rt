ghost use Rattle.std.specs.Prelude.{◌≡◌, ◌+◌, ◌≤◌, ◌<◌, ◌++◌, ◌∷◌, [], false, OnOk, OnErr, if◌then◌else◌};
ghost use Rattle.std.specs.VecDeque.{deque_len, deque_capacity};
ghost use Rattle.dt_local.specs.Slots.{HasSpare};

use crate::slots::Slot;
use std::alloc::{AllocError, Global};
use std::collections::VecDeque;

/// What a note changed: a word, and its slot before.
#[derive(Clone, Copy, Debug)]
pub struct Step {
    pub word: u64,
    pub slot: Slot,
}

/// The steps that can be undone, oldest first.
#[derive(Debug, Drop)]
pub struct Steps {
    /// Whether steps are kept.
    pub keeps: bool,
    /// How many were kept before these.
    pub from: u64,
    pub kept: VecDeque<Step>,
}

/// The most steps that one note makes.
const NOTED: usize = 8;

/// No steps, and none are kept. It takes no memory.
pub fn no_steps(alloc: Global) -> Steps
    ensures keeps { result.keeps ≡ false }
    ensures from { result.from ≡ 0 }
    ensures empty { result.kept.items ≡ [] }
    ensures len { deque_len result.kept ≡ 0 }
{
    Steps {
        keeps: false,
        from: 0,
        kept: VecDeque::new(alloc),
    }
}

/// Makes room for the steps of one note, where they can still be counted.
pub fn reserve_steps(steps: &mut Steps) -> Result<(), AllocError>
    ensures keeps { steps.new.keeps ≡ steps.old.keeps }
    ensures from { steps.new.from ≡ steps.old.from }
    ensures kept { steps.new.kept.items ≡ steps.old.kept.items }
    ensures len { deque_len steps.new.kept ≡ deque_len steps.old.kept }
    ensures capacity { deque_capacity steps.old.kept ≤ deque_capacity steps.new.kept }
    ensures spare { OnOk result (HasSpare steps.new 8) }
{
    let left = u64::MAX - steps.from;
    let count = (steps.kept.len() + NOTED) as u64;
    if left < count {
        return Err(AllocError);
    }
    steps.kept.reserve(NOTED)?;
    Ok(())
}

/// Keeps a step, where steps are kept.
pub fn keep_step(steps: &mut Steps, step: Step)
    requires { deque_len steps.old.kept < deque_capacity steps.old.kept }
    ensures keeps { steps.new.keeps ≡ steps.old.keeps }
    ensures from { steps.new.from ≡ steps.old.from }
    ensures kept { steps.new.kept.items ≡ (if steps.old.keeps then steps.old.kept.items ++ step ∷ [] else steps.old.kept.items) }
    ensures len { deque_len steps.new.kept ≤ deque_len steps.old.kept + 1 }
    ensures capacity { deque_capacity steps.new.kept ≡ deque_capacity steps.old.kept }
{
    if steps.keeps {
        steps.kept.push_back_reserved(step);
    }
}
