//! How many good frames are waited for.
ghost use Rattle.std.specs.Prelude.{◌≡◌, ℕ, ◌≤◌};
ghost use Rattle.std.specs.Option.{SomeIff};

use std::marker::Model;

/// The most good frames that are waited for.
pub const GOAL_MAX: u32 = 1_000_000;

/// How many good frames are waited for, 1 to 1,000,000.
#[derive(Clone, Copy, Debug, PartialEq, Eq)]
pub struct Goal(u32);

impl Model for Goal {
    ghost Value = { ℕ };

    ghost view = { λ n. n.0 };

    ghost invariant = { λ n. (1 ≤ n.0) × (n.0 ≤ 1000000) };

    ghost inverse = { λ n. record { 0 = n } };
}

impl Goal {
    /// So many; `None` where it is 0 or above 1,000,000.
    pub fn new(n: u32) -> Option<Goal>
        ensures { SomeIff result ((1 ≤ n) × (n ≤ GOAL_MAX)) n }
    {
        if n == 0 || n > GOAL_MAX {
            return None;
        }
        Some(Goal(n))
    }

    /// The number.
    pub fn get(self) -> u32
        ensures value { result ≡ self }
        ensures range { (1 ≤ self) × (self ≤ GOAL_MAX) }
    {
        self.0
    }
}
