ghost use Rattle.std.specs.Prelude.{◌≡◌, ◌<◌};
ghost use Rattle.dt_random.specs.Draws.{first_state, next_draw, shifted_left, shifted_right};

use std::marker::Model;

/// What a seed is mixed with: the golden ratio's fraction in 64 bits.
const SALT: u64 = 0x9e37_79b9_7f4a_7c15;

/// A generator of draws. A contract sees it as its state, a number of 64 bits, which is also its last
/// draw.
#[derive(Debug, Drop)]
pub struct Draws {
    state: u64,
}

impl Model for Draws {
    ghost use Rattle.std.specs.Prelude.{ℕ};

    ghost Value = { ℕ };

    ghost view = { λ draws. draws.state };
}

#[tactic(auto, unfolding(crate::specs::Draws::shifted_left))]
fn shifted_left(state: u64, places: u32) -> u64
    requires { places < 64 }
    ensures { result ≡ shifted_left places state }
{
    state ^ (state << places)
}

#[tactic(auto, unfolding(crate::specs::Draws::shifted_right))]
fn shifted_right(state: u64, places: u32) -> u64
    requires { places < 64 }
    ensures { result ≡ shifted_right places state }
{
    state ^ (state >> places)
}

impl Draws {
    /// The generator of a seed before its first draw.
    pub fn of(seed: u64) -> Draws
        ensures { result ≡ first_state seed }
    {
        let state = seed ^ SALT;
        Draws {
            state: if state == 0 { 1 } else { state },
        }
    }

    /// The next draw.
    pub fn draw(&mut self) -> u64
        ensures next { self.new ≡ next_draw self.old }
        ensures draw { result ≡ self.new }
    {
        let first = shifted_left(self.state, 13);
        let second = shifted_right(first, 7);
        self.state = shifted_left(second, 17);
        self.state
    }
}
