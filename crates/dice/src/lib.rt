// Pseudo-random numbers for trials, the same in every run.
#![tactic(auto)]

ghost use Rattle.std.specs.Prelude.{◌≡◌, ℕ};
ghost use Rattle.dice.specs.Draws.{next_state, drawn};

use std::marker::Model;

// A linear congruential generator of 64 bits.
#[derive(Drop)]
pub struct Dice {
    state: u64,
}

// Clauses see the state.
impl Model for Dice {
    ghost Value = { ℕ };

    ghost view = { λ dice. dice.state };
}

impl Dice {
    pub fn new(seed: u64) -> Dice
        ensures { result ≡ seed }
    {
        Dice { state: seed }
    }

    // One of the numbers below `sides`, or 0 where there are none.
    pub fn throw(&mut self, sides: u64) -> u64
        ensures value { result ≡ drawn (next_state self.old) sides }
        ensures after { self.new ≡ next_state self.old }
    {
        self.state = self
            .state
            .wrapping_mul(6_364_136_223_846_793_005)
            .wrapping_add(1_442_695_040_888_963_407);
        // the upper bits are the better ones
        let bits = self.state >> 33;
        if sides == 0 { 0 } else { bits % sides }
    }
}
