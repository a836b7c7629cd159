ghost use Rattle.std.specs.Prelude.{◌≡◌, ◌+◌, ◌^◌, ◌<◌};

use std::marker::{Model, PhantomData};

/// How many steps were taken. The type `L` keeps counters apart that count different things. A
/// contract sees the number.
#[derive(Debug, Drop)]
pub struct Steps<L> {
    taken: u64,
    ledger: PhantomData<L>,
}

impl<L> Model for Steps<L> {
    ghost use Rattle.std.specs.Prelude.{ℕ};

    ghost Value = { ℕ };

    ghost view = { λ steps. steps.taken };
}

impl<L> Steps<L> {
    /// No step was taken yet.
    pub fn new() -> Steps<L>
        ensures { result ≡ 0 }
    {
        Steps {
            taken: 0,
            ledger: PhantomData,
        }
    }

    /// How many steps were taken.
    pub fn taken(&self) -> u64
        ensures { result ≡ self.now }
    {
        self.taken
    }

    /// One more step.
    pub fn tick(&mut self)
        requires { self.old + 1 < 2 ^ 64 }
        ensures { self.new ≡ self.old + 1 }
    {
        self.taken += 1;
    }
}
