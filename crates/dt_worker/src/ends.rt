use dt_lane::HartEnd;
use dt_queue::Take;
use dt_shared::Pass;

/// What a worker gives back when it ends.
#[derive(Drop)]
pub struct WorkerEnd {
    pub pass: Pass,
    /// The end of the queue of each of its harts, in the order in which they were handed in.
    pub takes: Vec<(u8, Take)>,
    /// What came of each of them, in the same order.
    pub harts: Vec<HartEnd>,
    /// Memory was refused to this worker, and its pass has stopped.
    pub refused: bool,
    /// It ended since its pass saw a stop.
    pub stopped: bool,
}
