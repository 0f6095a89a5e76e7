//! Numbers that are drawn from a seed, the same ones each time.

ghost use Rattle.std.specs.Prelude.{◌≡◌, ◌<◌};
ghost use Rattle.trial_day.specs.Draws.{next_state, number_from, state_after};

use std::marker::Model;

/// How many states there are.
const STATES: u32 = 1 << 31;

/// The draws of a seed. A contract sees the state that the last draw has left.
#[derive(Drop)]
pub struct Draws {
    state: u32,
}

impl Model for Draws {
    ghost use Rattle.std.specs.Prelude.{ℕ, ◌<◌, ◌^◌};

    ghost Value = { ℕ };

    ghost view = { λ a. a.state };

    ghost invariant = { λ a. a.state < 2 ^ 31 };
}

impl Draws {
    /// The draws of a seed, none of them made: the state is what the seed leaves divided by 2^31.
    #[tactic(auto, unfolding(crate::specs::Draws::state_after))]
    pub fn from_seed(seed: u32) -> Draws
        ensures { result ≡ state_after seed 0 }
    {
        Draws {
            state: seed % STATES,
        }
    }

    /// The state, which is below 2^31.
    pub fn state(&self) -> u32
        ensures { result ≡ self.now }
    {
        self.state
    }

    /// Draws a number below `limit`, which is not 0. The state `s` becomes `(1103515245 * s + 12345) mod 2^31`. The
    /// number is this new state divided by 65,536, rounded down, `mod limit`.
    pub fn below(&mut self, limit: u32) -> u32
        requires { 0 < limit }
        ensures state { self.new ≡ next_state self.old }
        ensures number { result ≡ number_from self.new limit }
    {
        let next = (u64::from(self.state) * 1_103_515_245 + 12_345) % u64::from(STATES);
        self.state = next as u32;
        self.state / 65_536 % limit
    }
}
