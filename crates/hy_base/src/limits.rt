//! The limits of a script, of tables, and of what a roll may use.
use crate::Key;

/// The most servers.
pub const MOST_SERVERS: u8 = 8;

/// The most clients of a server.
pub const MOST_CLIENTS_OF_SERVER: usize = 16;

/// The most clients in all.
pub const MOST_CLIENTS: u8 = 128;

/// The most programs of a client.
pub const MOST_PROGRAMS: usize = 10000;

/// How many commands the commands of a program may count as: so many keys, spans and writes an intention may have.
pub const MOST_COMMANDS: u8 = 64;

/// The most pairs that a scan asks for, and rows that a find asks for.
pub const MOST_FOUND: u64 = 1000;

/// The most boards that a server keeps.
pub const MOST_BOARDS: u8 = 64;

/// The most tables.
pub const MOST_TABLES: u8 = 255;

/// How many keys a table has.
pub const TABLE_KEYS: Key = 1 << 56;

/// How many rows a table may have, and so how many keys of its index an attribute has.
pub const ROW_LIMIT: u64 = 1 << 24;

/// How many attributes there are.
pub const ATTRIBUTE_LIMIT: u64 = 1 << 31;

/// How many bytes the text of a row may have.
pub const TEXT_LIMIT: usize = 200;

/// The most threads that a roll may use.
pub const MOST_THREADS: u64 = 16;

/// The most programs of a load.
pub const LARGEST_LOAD: u64 = 80000;
