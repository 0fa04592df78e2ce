//! A client's next program begins.
ghost use Rattle.std.specs.Prelude.{◌≡◌, ◌+◌, ◌%◌, ◌^◌, ◌<◌, ◌≤◌, ◌∷◌, length, true, Some, IfOk, IsSome, OnOk, OnErr};
ghost use Rattle.std.specs.Option.{option_copied};
ghost use Rattle.hy_base.specs.declared.workload.Event.TheVariants.{Begin};
ghost use Rattle.hy_base.specs.Lists.{nth, change_nth};
ghost use Rattle.hy_base.specs.Shape.{IsWithin};
ghost use Rattle.hy_rules.specs.History.{pairs_of};
ghost use Rattle.hy_rules.specs.Moves.{board_of, least_kept, start_at};
ghost use Rattle.hy_rules.specs.Runs.{may_happen};
ghost use Rattle.hy_rules.specs.Validation.{live};
ghost use Rattle.hy_core.specs.CoreParts.{IsHolding, NextFits, StepsTo, TurnsAway, kept_rollers, log_held, newest_upto};
ghost use Rattle.hy_core.specs.CoreParts.{snap_or_end, state_in_course};

use crate::earlier::{Earlier, earlier_of};
use crate::moves::{between, depart};
use crate::parts::{
    ClientState, EndedProgram, Parts, board_at, client_of, client_state_of, least_kept, roller_of,
};
use crate::running::execute;
use hy_base::{Answers, Client, Phase, Pos, Program, Script, Session};
use hy_pipe::{Gate, Runtime, roll};
use hy_roller::{ProgramEnd, Roller};
use hy_tree::Tree;
use std::alloc::{AllocError, Global};
use std::thread::Threads;

// The program with a number.
fn program_at(own: &Client, number: u32) -> Option<&Program>
    ensures { option_copied result ≡ nth own.now.programs number }
{
    if number == 0 {
        return None;
    }
    own.programs.as_slice().get(number as usize - 1)
}

fn put_client_state(client_states: &mut Vec<ClientState>, client: u8, client_state: ClientState)
    requires { IsWithin 1 (length client_states.old.items) client }
    ensures { client_states.new.items ≡ change_nth (λ _. client_state) client_states.old.items client }
{
    client_states[client as usize - 1] = client_state;
}

// How a program begins on a server, by the position that it asks for, if any: on a snapshot, or it has ended so.
fn start_at(core: &Parts, server: u8, as_of: Option<Pos>) -> Result<Pos, ProgramEnd>
    ensures { result ≡ snap_or_end (start_at (least_kept (state_in_course (log_held core.now)) server)
        (board_of (state_in_course (log_held core.now)) server) as_of) }
{
    let board = board_at(core, server);
    let Some(pos) = as_of else {
        return Ok(board);
    };
    let from = least_kept(core, server);
    if pos < from {
        return Err(ProgramEnd::Past { from });
    }
    if board < pos {
        return Err(ProgramEnd::NotYet { board });
    }
    Ok(pos)
}

// The newest of a server's board and its earlier ones that hasn't passed a position.
fn newest_upto<'a>(board: &'a Roller, earlier: &'a Earlier, pos: Pos) -> Option<&'a Roller>
    ensures { option_copied result ≡ newest_upto pos (board.now ∷ earlier.now) }
{
    if board.at() <= pos {
        return Some(board);
    }
    earlier.newest_upto(pos)
}

// The rows that are live at a snapshot, from the newest roller of a server that hasn't passed it. What that one has not rolled
// yet is rolled here; the boards stay as they are.
fn tree_at<R: Threads + Sync, G: Gate + Sync>(
    runtime: &Runtime<R, G>,
    script: &Script,
    core: &Parts,
    server: u8,
    snap: Pos,
) -> Result<Tree, AllocError>
    requires holding { IsHolding script.now (log_held core.now) }
    requires server { IsWithin 1 script.now.servers server }
    requires kept { IsSome (newest_upto snap (kept_rollers (log_held core.now) server)) }
    requires within { snap ≤ length (log_held core.now).log }
    requires whole { snap % script.now.shape.group ≡ 0 }
    ensures { IfOk result (λ tree. pairs_of tree ≡ live script.now.shape (log_held core.now).log snap) }
{
    // The shape of a script is good.
    let _shape = script.shape();
    let Some(board) = roller_of(&core.rollers, server) else {
        unreachable!();
    };
    let Some(earlier) = earlier_of(&core.earlier, server) else {
        unreachable!();
    };
    let Some(roller) = newest_upto(board, earlier, snap) else {
        unreachable!();
    };
    let from = roller.at();
    if from == snap {
        return roller.tree().share();
    }
    let entries = between(&core.log, from, snap);
    let rolled = roll(runtime, roller, entries)?;
    rolled.tree().share()
}

// A client's next program ends before it is begun. It has no answers.
fn turn_away(alloc: Global, core: &mut Parts, client: u8, end: ProgramEnd) -> Result<(), AllocError>
    requires within { IsWithin 1 (length (log_held core.old).client_states) client }
    requires fits { NextFits (log_held core.old) client }
    ensures ok { OnOk result (TurnsAway (log_held core.old) (log_held core.new) client end) }
    ensures err { OnErr result (log_held core.new ≡ log_held core.old) }
{
    core.told.reserve(1)?;
    let Some(client_state) = client_state_of(&core.client_states, client) else {
        unreachable!();
    };
    let Session { next, last, .. } = client_state.session;
    depart(&mut core.client_states, client, next, last);
    core.told.push_reserved(EndedProgram {
        client,
        number: next,
        snap: 0,
        end: Some(end),
        answers: Answers::new(alloc),
    });
    Ok(())
}

/// A client begins its next program: on its server's board, or as of the position that the program asks for. Where the server
/// keeps no board at or below that one, or hasn't published so far, the program has ended.
pub(crate) fn begin<R: Threads + Sync, G: Gate + Sync>(
    runtime: &Runtime<R, G>,
    script: &Script,
    core: &mut Parts,
    client: u8,
) -> Result<(), AllocError>
    requires holding { IsHolding script.now (log_held core.old) }
    requires may { may_happen script.now (state_in_course (log_held core.old)) (Begin client) ≡ true }
    ensures ok { OnOk result (StepsTo script.now (log_held core.old) (log_held core.new) (Begin client)) }
    ensures err { OnErr result (log_held core.new ≡ log_held core.old) }
{
    let Some(own) = client_of(script.clients(), client) else {
        unreachable!();
    };
    let Some(client_state) = client_state_of(&core.client_states, client) else {
        unreachable!();
    };
    let Session { next, last, .. } = client_state.session;
    let Some(program) = program_at(own, next) else {
        unreachable!();
    };
    let server = own.server;
    let snap = match start_at(core, server, program.as_of) {
        Ok(snap) => snap,
        Err(end) => return turn_away(runtime.alloc, core, client, end),
    };
    let tree = tree_at(runtime, script, core, server, snap)?;
    let running = execute(runtime.alloc, program, tree, snap, server, client)?;
    let session = Session {
        next,
        phase: Phase::Begun { snap },
        last,
    };
    put_client_state(
        &mut core.client_states,
        client,
        ClientState {
            session,
            running: Some(running),
        },
    );
    Ok(())
}
