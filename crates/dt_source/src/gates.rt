/// What a thread of a check is about to go on from. The numbers count from 0: `Fed` over all
/// records, `Took` and `Judged` over those of the hart.
#[derive(Clone, Copy, Debug, PartialEq, Eq)]
pub enum GateEvent {
    /// The record with this number was handed to the queue of its hart.
    Fed { n: u64 },
    /// The worker took a record of the hart from its queue.
    Took { worker: u8, hart: u8, n: u64 },
    /// The worker judged a record of the hart.
    Judged { worker: u8, hart: u8, n: u64 },
    /// The first record of this segment is judged next.
    Segment { number: u8 },
}

/// Where the threads of a check can be held. A gate is lent nothing, so it changes no answer.
pub trait Gate {
    fn at(&self, event: GateEvent);
}

/// A gate that holds nobody.
#[derive(Clone, Copy, Debug)]
pub struct FreeGate;

impl Gate for FreeGate {
    fn at(&self, _event: GateEvent) {}
}
