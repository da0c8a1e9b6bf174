// Where a judgement stands.

ghost use Rattle.std.specs.Prelude.{◌≡◌, ◌+◌, ◌*◌};
ghost use Rattle.aml_judging.specs.Follows.{Paid};
ghost use Rattle.aml_judging.specs.Views.{held_cost};

use aml_known::{Env, Exits, Locks};

/// As many steps as no accepted method takes.
pub const MOST_STEPS: u64 = 1 << 63;

/// Where a judgement stands: what is known there, at the exits so far, and what the way there
/// costs; all costs from 2 to the power 63 on are one. Beside these, all takings of mutexes so far.
#[derive(Drop)]
pub struct Progress {
    pub env: Env,
    pub exits: Exits,
    pub cost: u64,
    pub locks: Locks,
}

/// The sum of two costs.
pub fn sum(a: u64, b: u64) -> u64
    ensures { held_cost result ≡ held_cost (held_cost a + held_cost b) }
{
    match a.checked_add(b) {
        Some(sum) => sum,
        None => MOST_STEPS,
    }
}

/// A cost so many times.
pub fn product(times: u64, cost: u64) -> u64
    ensures { held_cost result ≡ held_cost (times * held_cost cost) }
{
    match times.checked_mul(cost) {
        Some(product) => product,
        None => MOST_STEPS,
    }
}

impl Progress {
    /// Adds to the cost.
    pub fn pay(&mut self, cost: u64)
        ensures { Paid cost self.old self.new }
    {
        self.cost = sum(self.cost, cost);
    }

    /// A step.
    pub fn step(&mut self)
        ensures { Paid 1 self.old self.new }
    {
        self.pay(1);
    }
}
