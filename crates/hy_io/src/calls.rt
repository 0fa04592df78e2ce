//! The calls of a source or a sink in memory, some of which fail as planned.
ghost use Rattle.std.specs.Prelude.{◌≡◌, ◌≤◌, ◌||◌, IfOk};
ghost use Rattle.hy_io.specs.EndFailures.{after_call, fails_next, fresh_plan};

use std::alloc::{AllocError, Global};
use std::marker::Model;

/// Counts the calls and the faults.
#[derive(Drop)]
pub struct Calls {
    most: usize,
    fails: Vec<u64>,
    made: u64,
    faults: u64,
}

impl Model for Calls {
    ghost use Rattle.std.specs.Prelude.{◌≤◌};
    ghost use Rattle.hy_io.specs.EndFailures.{Plan};

    ghost Value = { Plan };

    ghost view = { λ c. record { most = c.most; fails = c.fails.items; made = c.made; faults = c.faults } };

    ghost invariant = { λ c. 1 ≤ c.most };
}

impl Calls {
    pub fn new(alloc: Global, most: usize, fails: &[u64]) -> Result<Calls, AllocError>
        requires { 1 ≤ most }
        ensures { IfOk result (λ calls. calls ≡ fresh_plan most fails.now) }
    {
        Ok(Calls {
            most,
            fails: fails.to_vec(alloc)?,
            made: 0,
            faults: 0,
        })
    }

    /// The most bytes of a call.
    pub fn most(&self) -> usize
        ensures value { result ≡ self.now.most }
        ensures some { 1 ≤ result }
    {
        self.most
    }

    /// Counts a call, and answers whether it fails: because it is refused, or because its number says so.
    pub fn fails(&mut self, is_refused: bool) -> bool
        ensures answer { result ≡ (is_refused || fails_next self.old) }
        ensures after { self.new ≡ after_call self.old result }
        ensures later { self.old.faults ≤ self.new.faults }
    {
        self.made = self.made.saturating_add(1);
        let fails = is_refused || self.fails.contains(&self.made);
        if fails {
            self.faults = self.faults.saturating_add(1);
        }
        fails
    }
}
