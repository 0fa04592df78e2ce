//! The log.
ghost use Rattle.std.specs.Prelude.{◌≡◌, ◌⊎◌, ◌+◌, ◌<◌, ◌≤◌, [], length, Some, None, IfOk, IfSome, IsErr, OnOk, OnErr, is_none};
ghost use Rattle.std.specs.Prelude.{option_map};
ghost use Rattle.hy_base.specs.Shape.{IsGoodShape};
ghost use Rattle.hy_formats.specs.LogFormat.{IsBody};
ghost use Rattle.hy_memlog.specs.Pages.{Pages, IsStop, with_body, broken_log};

use crate::pages::{create, make_ready, put_all, stop_in};
use hy_base::{ArmedStop, Shape};
use hy_log::PageLog;
use hy_mem::MemDisk;
use std::alloc::{AllocError, Global};
use std::marker::Model;

/// A log over a device in memory, seen as its shape and a list of bodies. It is broken once memory ran out after a stop had
/// happened: then it has no bodies, and takes none.
#[derive(Drop)]
pub struct MemLog {
    shape: Shape,
    log: Option<PageLog<MemDisk>>,
}

impl Model for MemLog {
    ghost use Rattle.std.specs.Prelude.{option_map, IfSome};
    ghost use Rattle.hy_memlog.specs.Pages.{Pages, IsAtRest};

    ghost Value = { Pages };

    ghost view = { λ l. record { shape = l.shape; bodies = option_map (λ log. log.bodies) l.log } };

    ghost invariant = { λ l. IfSome l.log (IsAtRest l.shape) };
}

impl MemLog {
    /// An empty log of a shape. `AllocError`: out of memory.
    pub fn new(alloc: Global, shape: Shape) -> Result<MemLog, AllocError>
        requires { IsGoodShape shape }
        ensures { IfOk result (λ log. log ≡ record { shape = shape; bodies = Some [] }) }
    {
        let log = create(alloc, shape)?;
        Ok(MemLog {
            shape,
            log: Some(log),
        })
    }

    /// The log's shape.
    pub fn shape(&self) -> Shape
        ensures { result ≡ self.now.shape }
    {
        self.shape
    }

    /// Whether the log is broken.
    pub fn is_broken(&self) -> bool
        ensures { result ≡ is_none self.now.bodies }
    {
        self.log.is_none()
    }

    /// Appends a body so many times (up to 8). Each copy is on the device, and acknowledged.
    ///
    /// `AllocError`: out of memory, or the log is broken. The log is as before.
    pub fn append(&mut self, body: &[u8], count: usize) -> Result<(), AllocError>
        requires body { IsBody self.old.shape.version body.now }
        requires few { count ≤ 8 }
        requires room_left { IfSome self.old.bodies (λ bodies. length bodies + count ≤ self.old.shape.cap) }
        ensures ok { OnOk result (self.new ≡ record self.old {
          bodies = option_map (with_body None count body.now) self.old.bodies;
        }) }
        ensures err { OnErr result (self.new ≡ self.old) }
        ensures broken { self.old.bodies ≡ None → IsErr result }
    {
        let Some(log) = &mut self.log else {
            return Err(AllocError);
        };
        make_ready(log, body, count)?;
        put_all(log, body, count);
        Ok(())
    }

    /// Appends a body, stops in the midst of it as ordered, and opens again what the stop left: the bodies before, and this
    /// one exactly where the stop keeps it.
    ///
    /// `AllocError`: out of memory, or the log is broken. The log is as before, or is broken from now on where the stop had
    /// happened.
    pub fn stop(&mut self, alloc: Global, body: &[u8], stop: ArmedStop) -> Result<(), AllocError>
        requires body { IsBody self.old.shape.version body.now }
        requires room_left { IfSome self.old.bodies (λ bodies. length bodies < self.old.shape.cap) }
        requires stop { IsStop stop }
        ensures ok { OnOk result (self.new ≡ record self.old {
          bodies = option_map (with_body (Some stop) 1 body.now) self.old.bodies;
        }) }
        ensures err { OnErr result ((self.new ≡ self.old) ⊎ (self.new ≡ broken_log self.old)) }
        ensures broken { self.old.bodies ≡ None → IsErr result }
    {
        let Some(mut log) = self.log.take() else {
            return Err(AllocError);
        };
        if make_ready(&mut log, body, 1).is_err() {
            self.log = Some(log);
            return Err(AllocError);
        }
        self.log = Some(stop_in(alloc, log, body, stop)?);
        Ok(())
    }
}
