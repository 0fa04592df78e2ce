//! What a roll runs in.
ghost use Rattle.std.specs.Prelude.{◌≡◌};
ghost use Rattle.hy_base.specs.Limits.{IsThreadCount};

use std::alloc::Global;

/// What a roll runs in. It is lent to all that starts threads, or that calls such a function.
#[derive(Drop)]
pub struct Runtime<'a, R, G> {
    /// It starts the threads.
    pub rt: &'a R,
    pub alloc: Global,
    /// How many threads a roll may take, 1 to 16.
    pub threads: usize,
    /// What is asked where a piece of work starts.
    pub gate: &'a G,
    pub ghost counted: { IsThreadCount threads },
}

impl<'a, R, G> Runtime<'a, R, G> {
    /// A runtime in which a roll takes so many threads.
    pub fn new(rt: &'a R, alloc: Global, threads: usize, gate: &'a G) -> Runtime<'a, R, G>
        requires { IsThreadCount threads }
        ensures { result.threads ≡ threads }
    {
        Runtime {
            rt,
            alloc,
            threads,
            gate,
        }
    }

    /// This runtime with another number of threads.
    pub fn with_threads(&self, threads: usize) -> Runtime<'a, R, G>
        requires { IsThreadCount threads }
        ensures { result.threads ≡ threads }
    {
        Runtime {
            rt: self.rt,
            alloc: self.alloc,
            threads,
            gate: self.gate,
        }
    }
}
