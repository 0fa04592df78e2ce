//! The boards that a server keeps besides its last one.
ghost use Rattle.std.specs.Prelude.{◌≡◌, ◌≤◌, [], length, map, replicate, IfOk, OnOk, OnErr};
ghost use Rattle.std.specs.List.{last_or};
ghost use Rattle.std.specs.Option.{option_copied};
ghost use Rattle.hy_base.specs.Lists.{nth, change_nth};
ghost use Rattle.hy_base.specs.Shape.{IsWithin};
ghost use Rattle.hy_roll_laws.specs.Rolling.{rolled_upto};
ghost use Rattle.hy_core.specs.CoreParts.{keeping_rolls, newest_upto};

use hy_base::Pos;
use hy_roller::Roller;
use std::alloc::{AllocError, Global};
use std::marker::Model;

/// The rollers of a server's earlier boards, the newest first.
#[derive(Drop)]
pub(crate) struct Earlier {
    rollers: Vec<Roller>,
}

impl Model for Earlier {
    ghost use Rattle.std.specs.Prelude.{List};
    ghost use Rattle.hy_roll_laws.specs.Rolling.{Roll};

    ghost Value = { List Roll };

    ghost view = { λ e. e.rollers.items };
}

impl Earlier {
    /// None.
    pub(crate) fn new(alloc: Global) -> Earlier
        ensures { result ≡ [] }
    {
        Earlier {
            rollers: Vec::new(alloc),
        }
    }

    /// The position of the oldest, if there is one.
    pub(crate) fn least(&self) -> Option<Pos>
        ensures { result ≡ last_or None (map rolled_upto self.now) }
    {
        match self.rollers.as_slice().last() {
            None => None,
            Some(roller) => Some(roller.at()),
        }
    }

    /// The newest that hasn't passed a position, lent.
    pub(crate) fn newest_upto(&self, pos: Pos) -> Option<&Roller>
        ensures { option_copied result ≡ newest_upto pos self.now }
    {
        first_upto(self.rollers.as_slice(), pos)
    }

    /// Adds the board of a server that keeps so many in all, and lets the oldest go where they are too many. `AllocError`: out
    /// of memory, and nothing has changed.
    pub(crate) fn keep(&mut self, keeps: u8, board: Roller) -> Result<(), AllocError>
        requires { 1 ≤ keeps }
        ensures ok { OnOk result (self.new ≡ keeping_rolls keeps board self.old) }
        ensures err { OnErr result (self.new ≡ self.old) }
    {
        self.rollers.insert(0, board)?;
        self.rollers.truncate(usize::from(keeps) - 1);
        Ok(())
    }

    /// Lets all go.
    pub(crate) fn clear(&mut self)
        ensures { self.new ≡ [] }
    {
        self.rollers.clear();
    }
}

// The first of these rollers that hasn't passed a position.
fn first_upto(rollers: &[Roller], pos: Pos) -> Option<&Roller>
    ensures { option_copied result ≡ newest_upto pos rollers.now }
{
    for roller in rollers {
        if roller.at() <= pos {
            return Some(roller);
        }
    }
    None
}

/// For each of so many servers, none.
pub(crate) fn open_earlier(alloc: Global, servers: u8) -> Result<Vec<Earlier>, AllocError>
    ensures { IfOk result (λ earlier. earlier.items ≡ replicate servers []) }
{
    let mut earlier = Vec::new(alloc);
    for _server in 0..servers {
        earlier.push(Earlier::new(alloc))?;
    }
    Ok(earlier)
}

/// Those of a server.
pub(crate) fn earlier_of(earlier: &[Earlier], server: u8) -> Option<&Earlier>
    ensures { option_copied result ≡ nth earlier.now server }
{
    if server == 0 {
        return None;
    }
    earlier.get(server as usize - 1)
}

/// Keeps the board of a server, as [`Earlier::keep`] says.
pub(crate) fn keep_board(
    earlier: &mut Vec<Earlier>,
    server: u8,
    keeps: u8,
    board: Roller,
) -> Result<(), AllocError>
    requires server { IsWithin 1 (length earlier.old.items) server }
    requires keeps { 1 ≤ keeps }
    ensures ok { OnOk result (earlier.new.items ≡ change_nth (keeping_rolls keeps board) earlier.old.items server) }
    ensures err { OnErr result (earlier.new.items ≡ earlier.old.items) }
{
    earlier[server as usize - 1].keep(keeps, board)
}

/// Lets go what the servers keep besides their boards.
pub(crate) fn clear_all(earlier: &mut Vec<Earlier>)
    ensures { earlier.new.items ≡ map (λ older. []) earlier.old.items }
{
    for at in 0..earlier.len() {
        earlier[at].clear();
    }
}
