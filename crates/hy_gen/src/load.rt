//! A load of a seed and a size.
ghost use Rattle.std.specs.Prelude.{◌≡◌, map, IfOk};
ghost use Rattle.std.specs.List.{range_with_len};
ghost use Rattle.hy_base.specs.Limits.{IsLoadSize};
ghost use Rattle.hy_gen.specs.Load.{script_of, client_of, schedule_of};

use crate::drawing::readers;
use crate::programs::{CLIENTS, KEEPS, SERVERS, TABLES, client};
use crate::rounds::schedule;
use hy_base::{Clients, Event, Items, Script, Shape};
use std::alloc::{AllocError, Global};

/// A script, and events for its run.
#[derive(Drop)]
pub struct Load {
    pub script: Script,
    pub events: Vec<Event>,
}

fn clients(alloc: Global, seed: u64, size: u32) -> Result<Clients, AllocError>
    requires { IsLoadSize size }
    ensures { IfOk result (λ clients. clients ≡ map (client_of seed size) (range_with_len 1 8)) }
{
    let mut clients = Items::new(alloc);
    for number in 1..CLIENTS + 1 {
        clients.push(client(alloc, seed, size, number)?)?;
    }
    Ok(clients)
}

/// The load of a seed with so many programs (1 to 80,000). `AllocError`: out of memory.
pub fn generate(alloc: Global, seed: u64, size: u32) -> Result<Load, AllocError>
    requires { IsLoadSize size }
    ensures exact { IfOk result (λ load. (load.script ≡ script_of seed size) × (load.events.items ≡ schedule_of seed size)) }
{
    let shape = Shape {
        group: 4,
        window: 4,
        cap: 8 * size,
        version: 1,
        horizon: None,
    };
    let script = Script::new(shape, SERVERS, KEEPS, TABLES, clients(alloc, seed, size)?);
    let readers = readers(alloc, seed, size)?;
    Ok(Load {
        script,
        events: schedule(alloc, &readers)?,
    })
}
