ghost use Rattle.std.specs.Prelude.{◌≡◌, ◌+◌, ◌≤◌, ◌<◌, ◌++◌, ◌∷◌, [], false, OnOk, if◌then◌else◌, drop, length};
ghost use Rattle.std.specs.VecDeque.{deque_len, deque_capacity};
ghost use Rattle.dt_stores.specs.Past.{HasSpare};

use std::alloc::{AllocError, Global};
use std::collections::VecDeque;

/// What changed the stores.
#[derive(Clone, Copy, Debug)]
pub enum Step {
    /// One more store came.
    Commit,
    /// A drain took so many stores of a line, of which the first `taken` were drained before.
    Drain { line: u64, taken: usize, count: u16 },
}

/// The steps that can be undone, oldest first.
#[derive(Debug, Drop)]
pub struct Steps {
    /// Whether steps are kept.
    pub keeps: bool,
    /// How many were kept before these.
    pub from: u64,
    pub kept: VecDeque<Step>,
}

/// No steps, and none are kept. It takes no memory.
pub fn no_steps(alloc: Global) -> Steps
    ensures keeps { result.keeps ≡ false }
    ensures from { result.from ≡ 0 }
    ensures empty { result.kept.items ≡ [] }
    ensures len { deque_len result.kept ≡ 0 }
{
    Steps {
        keeps: false,
        from: 0,
        kept: VecDeque::new(alloc),
    }
}

/// Makes room for one step, where it can still be counted.
pub fn reserve_step(steps: &mut Steps) -> Result<(), AllocError>
    ensures keeps { steps.new.keeps ≡ steps.old.keeps }
    ensures from { steps.new.from ≡ steps.old.from }
    ensures kept { steps.new.kept.items ≡ steps.old.kept.items }
    ensures len { deque_len steps.new.kept ≡ deque_len steps.old.kept }
    ensures spare { OnOk result (HasSpare steps.new) }
{
    let left = u64::MAX - steps.from;
    if left <= steps.kept.len() as u64 {
        return Err(AllocError);
    }
    steps.kept.reserve(1)?;
    Ok(())
}

/// Keeps a step, where steps are kept.
pub fn keep_step(steps: &mut Steps, step: Step)
    requires { deque_len steps.old.kept < deque_capacity steps.old.kept }
    ensures keeps { steps.new.keeps ≡ steps.old.keeps }
    ensures from { steps.new.from ≡ steps.old.from }
    ensures kept { steps.new.kept.items ≡ (if steps.old.keeps then steps.old.kept.items ++ step ∷ [] else steps.old.kept.items) }
    ensures len { deque_len steps.new.kept ≤ deque_len steps.old.kept + 1 }
{
    if steps.keeps {
        steps.kept.push_back_reserved(step);
    }
}

/// Drops the first `count` steps.
pub fn forget_steps(kept: &mut VecDeque<Step>, count: usize)
    requires { count ≤ length kept.old.items }
    ensures kept { kept.new.items ≡ drop count kept.old.items }
    ensures len { deque_len kept.new + count ≡ deque_len kept.old }
{
    for _ in 0..count {
        let _ = kept.pop_front();
    }
}
