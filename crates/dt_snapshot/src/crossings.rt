ghost use Rattle.std.specs.Prelude.{◌≡◌, ◌≤◌, None, Some};
ghost use Rattle.dt_snapshot.specs.Cuts.{reaches_new};

/// The cycle in which a hart reached a new cut last, if it has.
#[derive(Clone, Copy, Debug)]
pub struct Crossing {
    pub last: Option<u64>,
}

/// Whether a cycle reaches a cut that the earlier one has not.
pub(crate) fn reaches_new(interval: u64, last: Option<u64>, stamp: u64) -> bool
    requires { 1 ≤ interval }
    ensures { result ≡ reaches_new interval last stamp }
{
    match last {
        Some(last) => last / interval < stamp / interval,
        None => true,
    }
}

impl Crossing {
    /// No cut is reached.
    pub fn new() -> Crossing
        ensures { result.last ≡ None }
    {
        Crossing { last: None }
    }

    /// Whether a cycle reaches a cut that no earlier one has.
    pub fn reaches_new(&self, interval: u64, stamp: u64) -> bool
        requires { 1 ≤ interval }
        ensures { result ≡ reaches_new interval self.now.last stamp }
    {
        reaches_new(interval, self.last, stamp)
    }

    /// The cuts up to this cycle are reached.
    pub fn cross(&mut self, stamp: u64)
        ensures { self.new.last ≡ Some stamp }
    {
        self.last = Some(stamp);
    }
}
