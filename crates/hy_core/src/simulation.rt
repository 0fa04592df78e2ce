//! The core.
ghost use Rattle.std.specs.Prelude.{◌≡◌, ◌⊎◌, ◌/◌, ◌%◌, ℕ, length, true, false, None, Err, IfOk, OnOk, OnErr, IsErrOf};
ghost use Rattle.hy_rules.specs.Moves.{board_of, is_declared};
ghost use Rattle.hy_rules.specs.Summary.{reads_in};
ghost use Rattle.hy_base.specs.Rows.{Agrees};
ghost use Rattle.hy_base.specs.Shape.{line_after};
ghost use Rattle.hy_rules.specs.History.{live_rows};
ghost use Rattle.hy_rules.specs.Validation.{rows, verdicts};
ghost use Rattle.hy_rules.specs.Runs.{setting_of, step, is_finished, results_at};
ghost use Rattle.hy_rules.specs.Tail.{next_event};
ghost use Rattle.hy_core.specs.Course.{Course, IsReached, Advances, Breaks, Follows, FollowsSome, HasSoundTables, IsRefusedAt};
ghost use Rattle.hy_core.specs.Course.{Extends, Completes, opened_course};

use crate::moves::perform;
use crate::parts::{Parts, board_at, may_happen, open, roller_of};
use crate::replies::{all_replies, reads_in};
use crate::tail::next_event;
use hy_base::{Entry, Event, Items, Pos, Replies, Script, Shared, Verdicts};
use hy_pipe::{Gate, Runtime};
use hy_tree::Tree;
use std::alloc::{AllocError, Global};
use std::marker::Model;
use std::thread::Threads;
use thiserror::Error;

/// A simulated run of a script over one log, which is empty at first.
#[derive(Drop)]
pub struct Core {
    script: Script,
    parts: Parts,
}

impl Model for Core {
    ghost use Rattle.hy_core.specs.Course.{Course};
    ghost use Rattle.hy_core.specs.CoreParts.{IsCore, course_of, log_held};

    ghost Value = { Course };

    ghost view = { λ c. course_of c.script (log_held c.parts) };

    ghost invariant = { λ c. IsCore c.script (log_held c.parts) };
}

/// Why an event didn't happen. The core is as before, unless it broke.
#[derive(Clone, Copy, Debug, PartialEq, Eq, Error)]
pub enum StepError {
    /// It may not happen in this state.
    #[error("the event may not happen")]
    NotEnabled,
    /// Out of memory now, or once in a restart after a stop: then the core is broken.
    #[error("out of memory")]
    Memory,
}

/// Why not all of some events happened.
#[derive(Clone, Copy, Debug, PartialEq, Eq, Error)]
pub enum RunError {
    /// The event at this place, from 0, may not happen in its turn. Those before it have happened.
    #[error("event {index} may not happen")]
    NotEnabled { index: usize },
    /// Out of memory. Some of the first events have happened.
    #[error("out of memory")]
    Memory,
}

impl From<AllocError> for StepError {
    ghost use Rattle.std.specs.Prelude.{◌≡◌};
    ghost use Rattle.hy_core.specs.declared.simulation.StepError.TheVariants.{Memory};

    ghost from_gives = { λ _ error. error ≡ Memory };

    fn from(_: AllocError) -> Self {
        Self::Memory
    }
}

impl Core {
    /// The state in which a run of the script opens. `AllocError` where memory runs out.
    pub fn new(alloc: Global, script: Script) -> Result<Core, AllocError>
        ensures { IfOk result (λ core. core ≡ opened_course script) }
    {
        // The shape of a script is good.
        let _shape = script.shape();
        let parts = open(alloc, &script)?;
        Ok(Core { script, parts })
    }

    /// The script, lent. The state is one that some run of it reaches (`reached`), and whichever it was has kept the tables
    /// sound (`tables`).
    #[tactic(auto, using(crate::proofs::Tabled::sound_tables))]
    pub fn script(&self) -> &Script
        ensures script { result.now ≡ self.now.script }
        ensures reached { IsReached self.now }
        ensures tables { HasSoundTables self.now }
    {
        &self.script
    }

    /// Moves by an event. A roll of the log, for a publish, a restart or a program that asks for a position, takes up to 16
    /// threads, and enters the gate once for each group.
    ///
    /// `NotEnabled` exactly where the event may not happen; then the core is as before. `Memory`: out of memory. Then it is as
    /// before too; but where a stop had happened it is broken: its state stays, and every further event is answered by
    /// `Memory`.
    pub fn step<R: Threads + Sync, G: Gate + Sync>(
        &mut self,
        runtime: &Runtime<R, G>,
        event: Event,
    ) -> Result<(), StepError>
        ensures ok { OnOk result (Advances self.old event self.new) }
        ensures refused { result ≡ Err StepError.NotEnabled → step self.old.script self.old.state event ≡ None }
        ensures disabled { self.old.broken ≡ false → step self.old.script self.old.state event ≡ None
            → result ≡ Err StepError.NotEnabled }
        ensures broken { self.old.broken ≡ true → result ≡ Err StepError.Memory }
        ensures same { result ≡ Err StepError.NotEnabled → self.new ≡ self.old }
        ensures err { OnErr result ((self.new ≡ self.old) ⊎ Breaks self.old self.new) }
    {
        if self.parts.pages.is_broken() {
            return Err(StepError::Memory);
        }
        if !may_happen(&self.script, &self.parts, event) {
            return Err(StepError::NotEnabled);
        }
        perform(runtime, &self.script, &mut self.parts, event)?;
        Ok(())
    }

    /// The event that the tail rule gives, if any. It takes no memory.
    pub fn next(&self) -> Option<Event>
        ensures next { result ≡ next_event self.now.script self.now.state }
        ensures reached { IsReached self.now }
    {
        next_event(&self.script, &self.parts)
    }

    /// Moves by events in turn.
    ///
    /// `NotEnabled` names the first event that may not happen in its turn, and those before it have happened.
    /// `Memory`: out of memory, and some of the first events have happened. The core may be broken, as by [`step`](Core::step).
    /// Whatever comes of it, the tables of a script that has some are sound then, and were after each whole group, and each
    /// find gave just the first rows with its attribute (`tables`).
    pub fn run<R: Threads + Sync, G: Gate + Sync>(
        &mut self,
        runtime: &Runtime<R, G>,
        events: &[Event],
    ) -> Result<(), RunError>
        ensures ok { OnOk result (Follows self.old events.now self.new) }
        ensures refused { (index : ℕ) → IsErrOf result (RunError.NotEnabled index)
            → IsRefusedAt self.old events.now self.new index }
        ensures memory { IsErrOf result RunError.Memory → FollowsSome self.old events.now self.new }
        ensures tables { HasSoundTables self.new }
    {
        let _ = self.script();
        for at in 0..events.len() {
            match self.step(runtime, events[at]) {
                Ok(()) => {}
                Err(StepError::NotEnabled) => return Err(RunError::NotEnabled { index: at }),
                Err(StepError::Memory) => return Err(RunError::Memory),
            }
        }
        Ok(())
    }

    /// Moves by the tail rule up to its end, and adds its events to a list. Then the run is finished.
    ///
    /// `AllocError`: out of memory. The core has moved by the events that were added, and may be broken.
    pub fn finish<R: Threads + Sync, G: Gate + Sync>(
        &mut self,
        runtime: &Runtime<R, G>,
        events: &mut Vec<Event>,
    ) -> Result<(), AllocError>
        ensures ok { OnOk result (Completes self.old events.old.items events.new.items self.new) }
        ensures err { OnErr result (Extends self.old events.old.items events.new.items self.new) }
    {
        while let Some(event) = self.next() {
            events.reserve(1)?;
            match self.step(runtime, event) {
                Ok(()) => events.push_reserved(event),
                Err(StepError::NotEnabled) => unreachable!(),
                Err(StepError::Memory) => return Err(AllocError),
            }
        }
        Ok(())
    }

    /// The replies to all programs of all clients. `AllocError` where memory runs out.
    pub fn outcomes(&self, alloc: Global) -> Result<Items<Replies>, AllocError>
        requires finished { is_finished self.now.script self.now.state ≡ true }
        ensures { IfOk result (λ replies. replies ≡ (results_at self.now.script self.now.ended self.now.state).replies) }
    {
        let clients = self.script.clients();
        let Some(roller) = roller_of(&self.parts.rollers, 1) else {
            unreachable!();
        };
        all_replies(alloc, roller, &self.parts.told, clients)
    }

    /// The verdicts of a finished run's log, one for each position; a filler has none. `AllocError`: out of memory.
    pub fn verdicts(&self, alloc: Global) -> Result<Verdicts, AllocError>
        requires finished { is_finished self.now.script self.now.state ≡ true }
        ensures { IfOk result (λ vs. vs ≡ verdicts self.now.script.shape self.now.state.log (length self.now.state.log)) }
    {
        // The shape of a script is good.
        let _shape = self.script.shape();
        let Some(roller) = roller_of(&self.parts.rollers, 1) else {
            unreachable!();
        };
        roller.kept_verdicts(alloc)
    }

    /// How many of the programs that ended only read.
    pub fn reads(&self) -> usize
        ensures { result ≡ reads_in self.now.ended }
    {
        reads_in(&self.parts.told)
    }

    /// The log, lent. Positions count from 1.
    pub fn entries(&self) -> &[Shared<Entry>]
        ensures { result.now ≡ self.now.state.log }
    {
        self.parts.log.as_slice()
    }

    /// The position up to which a server has published, and the rows there, lent: all of them, and within a window perhaps
    /// tombstones at or below the line besides; at a window's end just these rows.
    pub fn board(&self, server: u8) -> (Pos, &Tree)
        requires declared { is_declared (setting_of self.now.script) server ≡ true }
        ensures at { result.0 ≡ board_of self.now.state server }
        ensures rows { Agrees (line_after self.now.script.shape (board_of self.now.state server / self.now.script.shape.group))
            result.1.now (rows self.now.script.shape self.now.state.log (board_of self.now.state server)) }
        ensures window_end { (board_of self.now.state server / self.now.script.shape.group) % self.now.script.shape.window ≡ 0
            → result.1.now ≡ rows self.now.script.shape self.now.state.log (board_of self.now.state server) }
        ensures live { live_rows result.1.now
            ≡ live_rows (rows self.now.script.shape self.now.state.log (board_of self.now.state server)) }
    {
        // The shape of a script is good.
        let _shape = self.script.shape();
        let Some(roller) = roller_of(&self.parts.rollers, server) else {
            unreachable!();
        };
        (roller.at(), roller.tree())
    }
}
