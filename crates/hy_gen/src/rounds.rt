//! The schedule of a load, round by round.
ghost use Rattle.std.specs.Prelude.{◌≡◌, ◌+◌, ◌*◌, ◌^◌, ◌≤◌, ◌<◌, ◌++◌, length, map, get_or, IfOk, OnOk};
ghost use Rattle.std.specs.List.{range_with_len, flat_map};
ghost use Rattle.hy_base.specs.Shape.{IsWithin};
ghost use Rattle.hy_gen.specs.Rounds.{period, home, number_in, is_beginning, begin_events, ending, end_events, entry_count};
ghost use Rattle.hy_gen.specs.Rounds.{ends, append_count, whole, log_len, pads, publishes, publish_event, events_in};
ghost use Rattle.hy_gen.specs.Rounds.{IsLoadClient, IsLoadServer, round_count, round_limit, schedule};
ghost use Rattle.hy_base.specs.Limits.{largest_load};

use crate::programs::{CLIENTS, SERVERS, home};
use hy_base::{Event, Pos};
use std::alloc::{AllocError, Global};

// How many rounds a program on a server takes.
fn period(server: u8) -> u32
    requires { IsLoadServer server }
    ensures period { result ≡ period server }
    ensures within { IsWithin 1 8 result }
{
    1 << (server - 1)
}

// The number of the program with which a client is busy in a round.
fn number_in(client: u8, round: u32) -> u32
    requires client { IsLoadClient client }
    requires round { round ≤ round_limit }
    ensures { result ≡ number_in client round }
{
    8 * (round / period(home(client))) + u32::from(client - 1)
}

// Whether a client begins a program in a round.
fn is_beginning(size: usize, round: u32, client: u8) -> bool
    requires client { IsLoadClient client }
    requires round { round ≤ round_limit }
    ensures { result ≡ is_beginning size round client }
{
    round % period(home(client)) == 0 && (number_in(client, round) as usize) < size
}

// Whether the program that a client ends in a round only reads.
fn ending(readers: &[bool], round: u32, client: u8) -> Option<bool>
    requires client { IsLoadClient client }
    requires round { round ≤ round_limit }
    ensures { result ≡ ending readers.now round client }
{
    if (round + 1) % period(home(client)) != 0 {
        return None;
    }
    readers.get(number_in(client, round) as usize).copied()
}

fn add_begin(events: &mut Vec<Event>, size: usize, round: u32, client: u8) -> Result<(), AllocError>
    requires client { IsLoadClient client }
    requires round { round ≤ round_limit }
    ensures { OnOk result (events.new.items ≡ events.old.items ++ begin_events size round client) }
{
    if is_beginning(size, round, client) {
        events.push(Event::Begin { client })?;
    }
    Ok(())
}

fn add_begins(events: &mut Vec<Event>, size: usize, round: u32) -> Result<(), AllocError>
    requires { round ≤ round_limit }
    ensures { OnOk result (events.new.items ≡ events.old.items ++ flat_map (begin_events size round) (range_with_len 1 8)) }
{
    for client in 1..CLIENTS + 1 {
        add_begin(events, size, round, client)?;
    }
    Ok(())
}

// Adds how a client ends its program in a round, if it does, and answers how many entries it appends.
fn add_end(
    events: &mut Vec<Event>,
    readers: &[bool],
    round: u32,
    client: u8,
) -> Result<u32, AllocError>
    requires client { IsLoadClient client }
    requires round { round ≤ round_limit }
    ensures events { OnOk result (events.new.items ≡ events.old.items ++ end_events client (ending readers.now round client)) }
    ensures entries { IfOk result (λ entries. entries ≡ entry_count (ending readers.now round client)) }
    ensures few { IfOk result (λ entries. entries ≤ 1) }
{
    match ending(readers, round, client) {
        None => Ok(0),
        Some(true) => {
            events.push(Event::End { client })?;
            Ok(0)
        }
        Some(false) => {
            events.push(Event::Append { client })?;
            Ok(1)
        }
    }
}

// Adds how the clients end their programs, and answers how many entries they append.
fn add_ends(events: &mut Vec<Event>, readers: &[bool], round: u32) -> Result<u32, AllocError>
    requires { round ≤ round_limit }
    ensures events { OnOk result (events.new.items ≡ events.old.items
        ++ flat_map (ends readers.now round) (range_with_len 1 8)) }
    ensures append_count { IfOk result (λ entries. entries ≡ append_count readers.now round) }
    ensures few { IfOk result (λ entries. entries ≤ 8) }
{
    let mut entries = 0;
    for client in 1..CLIENTS + 1 {
        entries += add_end(events, readers, round, client)?;
    }
    Ok(entries)
}

// Completes the last group, and answers where it ends.
fn add_pad(events: &mut Vec<Event>, len: Pos) -> Result<Pos, AllocError>
    requires { len < 2 ^ 31 }
    ensures events { OnOk result (events.new.items ≡ events.old.items ++ pads len) }
    ensures whole { IfOk result (λ upto. upto ≡ whole len) }
{
    if len % 4 != 0 {
        events.push(Event::Pad { server: 1 })?;
    }
    Ok((len + 3) / 4 * 4)
}

// The end of the log, where a server publishes it at the end of a round.
fn publishing(lens: &[Pos], round: u32, server: u8) -> Option<Pos>
    requires server { IsLoadServer server }
    requires lens { length lens.now ≡ round + 2 }
    requires round { round ≤ round_limit }
    ensures { publishes (λ at. get_or lens.now at 0) round server ≡ publish_event server result }
{
    let took = period(server);
    if (round + 1) % took != 0 {
        return None;
    }
    let upto = lens[round as usize + 1];
    if lens[(round + 1 - took) as usize] < upto {
        Some(upto)
    } else {
        None
    }
}

fn add_publish(
    events: &mut Vec<Event>,
    lens: &[Pos],
    round: u32,
    server: u8,
) -> Result<(), AllocError>
    requires server { IsLoadServer server }
    requires lens { length lens.now ≡ round + 2 }
    requires round { round ≤ round_limit }
    ensures { OnOk result (events.new.items ≡ events.old.items ++ publishes (λ at. get_or lens.now at 0) round server) }
{
    if let Some(upto) = publishing(lens, round, server) {
        events.push(Event::Publish { server, upto })?;
    }
    Ok(())
}

fn add_publishes(events: &mut Vec<Event>, lens: &[Pos], round: u32) -> Result<(), AllocError>
    requires lens { length lens.now ≡ round + 2 }
    requires round { round ≤ round_limit }
    ensures { OnOk result (events.new.items ≡ events.old.items
        ++ flat_map (publishes (λ at. get_or lens.now at 0) round) (range_with_len 1 4)) }
{
    for server in 1..SERVERS + 1 {
        add_publish(events, lens, round, server)?;
    }
    Ok(())
}

fn len_before(lens: &[Pos], round: u32) -> Pos
    requires { round < length lens.now }
    ensures { result ≡ get_or lens.now round 0 }
{
    lens[round as usize]
}

// Adds the events of a round.
fn add_round(
    events: &mut Vec<Event>,
    lens: &mut Vec<Pos>,
    readers: &[bool],
    round: u32,
) -> Result<(), AllocError>
    requires lens { lens.old.items ≡ map (log_len readers.now) (range_with_len 0 (round + 1)) }
    requires round { round < round_limit }
    ensures events { OnOk result (events.new.items ≡ events.old.items ++ events_in readers.now round) }
    ensures lens { OnOk result (lens.new.items ≡ map (log_len readers.now) (range_with_len 0 (round + 2))) }
{
    add_begins(events, readers.len(), round)?;
    let entries = add_ends(events, readers, round)?;
    let upto = add_pad(events, len_before(lens, round) + entries)?;
    lens.push(upto)?;
    add_publishes(events, lens, round)?;
    Ok(())
}

// How many rounds so many programs take.
fn round_count(size: u32) -> u32
    requires { size ≤ largest_load }
    ensures count { result ≡ round_count size }
    ensures most { result ≤ 80008 }
{
    ((size + 7) / 8)
        .max((size + 6) / 8 * 2)
        .max((size + 5) / 8 * 4)
        .max((size + 4) / 8 * 8)
}

/// The events of all rounds. The list tells of each program whether it only reads.
pub fn schedule(alloc: Global, readers: &[bool]) -> Result<Vec<Event>, AllocError>
    requires { length readers.now ≤ largest_load }
    ensures { IfOk result (λ events. events.items ≡ schedule readers.now) }
{
    let mut events = Vec::new(alloc);
    let mut lens = vec![in alloc; 0; 1]?;
    for round in 0..round_count(readers.len() as u32) {
        add_round(&mut events, &mut lens, readers, round)?;
    }
    Ok(events)
}
