//! What a stop leaves, and the restart after it.
ghost use Rattle.std.specs.Prelude.{◌≡◌, ◌⊎◌, ◌+◌, ◌-◌, ◌<◌, ◌≤◌, ◌++◌, ◌^◌, length, take, drop, vec_len, vec_capacity, Some};
ghost use Rattle.std.specs.Prelude.{None, IfOk, OnOk, OnErr};
ghost use Rattle.std.specs.List.{AllByRecursion};
ghost use Rattle.hy_base.specs.Entry.{FitsVersion};
ghost use Rattle.hy_base.specs.Log.{IsLawful};
ghost use Rattle.hy_base.specs.Shape.{IsGoodShape, whole_groups};
ghost use Rattle.hy_rules.specs.Moves.{is_kept};
ghost use Rattle.hy_memlog.specs.Pages.{IsStop};
ghost use Rattle.hy_core.specs.CoreParts.{IsHolding, AreRestarted, HasPlaces, ClientStateFits, HasRestarted};
ghost use Rattle.hy_core.specs.CoreParts.{abandoned_client_state, abandoned_told, kept_by, stopped_in, broken, log_held};
ghost use Rattle.hy_base.specs.Limits.{most_clients};

use crate::earlier::clear_all;
use crate::parts::{ClientState, EndedProgram, Parts, roller_of};
use hy_base::{Answers, ArmedStop, Entry, Phase, Pos, Script, Session, Shape, Shared, share_all};
use hy_codec::encode;
use hy_pipe::{Gate, Runtime, roll};
use hy_roller::Roller;
use std::alloc::{AllocError, Global};
use std::thread::Threads;

/// Whether a stop keeps the entry in whose append it happens.
pub(crate) fn is_kept(stop: ArmedStop) -> bool
    ensures { result ≡ is_kept stop }
{
    stop.call >= 3 && stop.pattern == 1
}

// The end of the last whole group.
fn whole(shape: Shape, len: Pos) -> Pos
    requires { IsGoodShape shape }
    ensures { result ≡ whole_groups shape len }
{
    len - len % u32::from(shape.group)
}

fn past(log: &[Shared<Entry>], from: Pos) -> &[Shared<Entry>]
    requires { from ≤ length log.now }
    ensures { result.now ≡ drop from log.now }
{
    &log[from as usize..]
}

fn first(log: &[Shared<Entry>], count: Pos) -> &[Shared<Entry>]
    requires { count ≤ length log.now }
    ensures { result.now ≡ take count log.now }
{
    &log[..count as usize]
}

// Shares of these entries, and of one more where a stop keeps it.
fn shares_with(
    alloc: Global,
    log: &[Shared<Entry>],
    entry: &Shared<Entry>,
    stop: ArmedStop,
) -> Result<Vec<Shared<Entry>>, AllocError>
    ensures { IfOk result (λ entries. entries.items ≡ log.now ++ kept_by stop entry.now) }
{
    let mut entries = share_all(alloc, log)?;
    if is_kept(stop) {
        entries.reserve(1)?;
        entries.push_reserved(entry.share()?);
    }
    Ok(entries)
}

// The boards after a restart on the log and the entry that the stop keeps: the first server's roller goes on from its
// board to the end of the last whole group, and all servers share it.
fn restarted<R: Threads + Sync, G: Gate + Sync>(
    runtime: &Runtime<R, G>,
    script: &Script,
    core: &Parts,
    entry: &Shared<Entry>,
    stop: ArmedStop,
) -> Result<Vec<Roller>, AllocError>
    requires holding { IsHolding script.now (log_held core.now) }
    requires lawful { IsLawful script.now.shape ((log_held core.now).log ++ kept_by stop entry.now) }
    ensures { IfOk result (λ rollers.
        AreRestarted script.now ((log_held core.now).log ++ kept_by stop entry.now) rollers.items) }
{
    let shape = script.shape();
    let Some(roller) = roller_of(&core.rollers, 1) else {
        unreachable!();
    };
    let from = roller.at();
    let entries = shares_with(runtime.alloc, past(&core.log, from), entry, stop)?;
    let upto = whole(shape, from + entries.len() as Pos);
    let rolled = roll(runtime, roller, first(&entries, upto - from))?;
    rolled.share_times(runtime.alloc, script.servers())
}

/// A stop happens in the append of an entry: it is on the device exactly where the stop keeps it. Answers the boards on
/// what is left. Out of memory, all is as before, or the log on the device is broken.
pub(crate) fn stop_in<R: Threads + Sync, G: Gate + Sync>(
    runtime: &Runtime<R, G>,
    script: &Script,
    core: &mut Parts,
    entry: &Shared<Entry>,
    stop: ArmedStop,
) -> Result<Vec<Roller>, AllocError>
    requires holding { IsHolding script.now (log_held core.old) }
    requires room_left { HasPlaces (log_held core.old).pages 1 }
    requires stop { IsStop stop }
    requires lawful { IsLawful script.now.shape ((log_held core.old).log ++ kept_by stop entry.now) }
    requires fits { FitsVersion (log_held core.old).pages.shape.version entry.now }
    ensures ok { OnOk result (log_held core.new ≡ stopped_in stop entry.now (log_held core.old)) }
    ensures boards { IfOk result (λ rollers.
        AreRestarted script.now ((log_held core.old).log ++ kept_by stop entry.now) rollers.items) }
    ensures places { (core.new.log ≡ core.old.log) × (core.new.told ≡ core.old.told) }
    ensures err { OnErr result ((log_held core.new ≡ log_held core.old) ⊎ (log_held core.new ≡ broken (log_held core.old))) }
{
    let body = encode(runtime.alloc, entry.get(), core.pages.shape().version)?;
    let rollers = restarted(runtime, script, core, entry, stop)?;
    core.pages.stop(runtime.alloc, &body, stop)?;
    Ok(rollers)
}

/// Adds an entry where a stop keeps it. There is a place for it.
pub(crate) fn keep(log: &mut Vec<Shared<Entry>>, entry: Shared<Entry>, stop: ArmedStop)
    requires { vec_len log.old < vec_capacity log.old }
    ensures { log.new.items ≡ log.old.items ++ kept_by stop entry }
{
    if is_kept(stop) {
        log.push_reserved(entry);
    }
}

// A begun client's program is lost, and the client goes on to the next.
fn abandon(alloc: Global, client_state: &mut ClientState, told: &mut Vec<EndedProgram>, client: u8)
    requires place { vec_len told.old < vec_capacity told.old }
    requires fits { client_state.old.session.next + 1 < 2 ^ 32 }
    ensures client_state { client_state.new ≡ abandoned_client_state client_state.old }
    ensures told { told.new.items ≡ told.old.items ++ abandoned_told client client_state.old }
    ensures more { vec_len told.new ≤ vec_len told.old + 1 }
    ensures capacity { vec_capacity told.new ≡ vec_capacity told.old }
{
    let Session { next, phase, last } = client_state.session;
    let Phase::Begun { snap } = phase else {
        return;
    };
    client_state.session = Session {
        next: next + 1,
        phase: Phase::Idle,
        last,
    };
    client_state.running = None;
    told.push_reserved(EndedProgram {
        client,
        number: next,
        snap,
        end: None,
        answers: Answers::new(alloc),
    });
}

/// The servers and the clients restart: the boards are these, the first of a new list, each begun program is lost, and no stop
/// is armed.
pub(crate) fn settle(alloc: Global, core: &mut Parts, rollers: Vec<Roller>)
    requires places { vec_len core.old.told + length core.old.client_states.items ≤ vec_capacity core.old.told }
    requires few { length core.old.client_states.items ≤ most_clients }
    requires fit { AllByRecursion ClientStateFits core.old.client_states.items }
    ensures { HasRestarted (log_held core.old) (log_held core.new) rollers.items }
{
    core.rollers = rollers;
    clear_all(&mut core.earlier);
    core.armed = None;
    for at in 0..core.client_states.len() {
        abandon(
            alloc,
            &mut core.client_states[at],
            &mut core.told,
            at as u8 + 1,
        );
    }
}
