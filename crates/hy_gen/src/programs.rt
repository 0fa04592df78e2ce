//! The programs of a load.
ghost use Rattle.std.specs.Prelude.{◌≡◌, [], ◌+◌, ◌*◌, ◌≤◌, ◌<◌, ◌∷◌, IfOk};
ghost use Rattle.hy_gen.specs.Rounds.{IsLoadClient, IsLoadServer, home};
ghost use Rattle.hy_gen.specs.Load.{value_numbered, commands_of, programs_of, client_of, program_count};
ghost use Rattle.hy_base.specs.Limits.{largest_load};

use crate::drawing::{Draw, generator_at, next_draw};
use hy_base::{Client, Command, Commands, Isolation, Items, Program, Programs, Value, ValueError};
use itoa::Buffer;
use std::alloc::{AllocError, Global};

/// How many clients there are.
pub const CLIENTS: u8 = 8;

/// How many servers there are.
pub const SERVERS: u8 = 4;

/// How many of its last boards each server keeps.
pub const KEEPS: u8 = 1;

/// How many tables there are.
pub const TABLES: u8 = 0;

/// The server of a client.
pub fn home(client: u8) -> u8
    requires { IsLoadClient client }
    ensures home { result ≡ home client }
    ensures within { IsLoadServer result }
{
    (client - 1) % SERVERS + 1
}

// The value that a program puts: the letter v, and the program's number.
fn value(alloc: Global, number: u32) -> Result<Value, AllocError>
    ensures { IfOk result (λ value. value ≡ value_numbered number) }
{
    let mut bytes = vec![in alloc; b'v']?;
    let mut buffer = Buffer::new();
    bytes.extend_from_slice(buffer.format(number).as_bytes())?;
    match Value::new(bytes) {
        Ok(value) => Ok(value),
        Err(ValueError::Memory) => Err(AllocError),
        Err(ValueError::BadValue) => unreachable!(),
    }
}

fn two(alloc: Global, first: Command, second: Command) -> Result<Commands, AllocError>
    ensures { IfOk result (λ commands. commands ≡ first ∷ second ∷ []) }
{
    let mut commands = Items::with_capacity(alloc, 2)?;
    commands.push(first)?;
    commands.push(second)?;
    Ok(commands)
}

// The commands of the program with a number.
fn commands(alloc: Global, number: u32, draw: Draw) -> Result<Commands, AllocError>
    ensures { IfOk result (λ commands. commands ≡ commands_of number draw) }
{
    let key = u64::from(draw.first % 500);
    let other = u64::from(draw.second % 500);
    match draw.kind % 4 {
        0 => two(alloc, Command::Add(key, 1), Command::Add(other, 1)),
        1 => {
            let put = Command::Put(500 + other, value(alloc, number)?);
            two(alloc, Command::Get(key), put)
        }
        2 => {
            let put = Command::Put(500 + other, value(alloc, number)?);
            let scan = Command::Scan {
                lo: key,
                hi: key + 9,
                n: 5,
            };
            two(alloc, scan, put)
        }
        _ => {
            let mut commands = Items::with_capacity(alloc, 1)?;
            commands.push(Command::Get(500 + other))?;
            Ok(commands)
        }
    }
}

/// How many of so many programs a client has.
pub fn program_count(size: u32, client: u8) -> u32
    requires client { IsLoadClient client }
    requires size { size ≤ largest_load }
    ensures { result ≡ program_count size client }
{
    (size + 8 - u32::from(client)) / 8
}

// The programs of a client: each eighth, from its own number on.
fn programs(alloc: Global, seed: u64, size: u32, client: u8) -> Result<Programs, AllocError>
    requires client { IsLoadClient client }
    requires size { size ≤ largest_load }
    ensures { IfOk result (λ programs. programs ≡ programs_of seed size client) }
{
    let first = u32::from(client) - 1;
    let mut words = generator_at(seed, first);
    let mut programs = Items::new(alloc);
    for turn in 0..program_count(size, client) {
        let drawn = next_draw(&mut words);
        let commands = commands(alloc, 8 * turn + first, drawn)?;
        programs.push(Program {
            isolation: Isolation::Serializable,
            as_of: None,
            commands,
        })?;
        words.advance(21);
    }
    Ok(programs)
}

/// A client with its programs.
pub fn client(alloc: Global, seed: u64, size: u32, client: u8) -> Result<Client, AllocError>
    requires client { IsLoadClient client }
    requires size { size ≤ largest_load }
    ensures { IfOk result (λ made. made ≡ client_of seed size client) }
{
    Ok(Client {
        server: home(client),
        programs: programs(alloc, seed, size, client)?,
    })
}
