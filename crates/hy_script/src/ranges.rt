//! What the commands of tables may name, and how many commands a command counts as.
ghost use Rattle.std.specs.Prelude.{◌≡◌, ◌≤◌, ◌<◌, true};
ghost use Rattle.hy_base.specs.Script.{command_count, counts_as};
ghost use Rattle.hy_base.specs.Shape.{IsWithin};
ghost use Rattle.hy_base.specs.Tables.{attribute_limit, is_table_key, row_limit};
ghost use Rattle.hy_script.specs.Grammar.{is_row, is_row_with, is_search};
ghost use Rattle.hy_base.specs.Limits.{most_commands, most_found};

use hy_base::{ATTRIBUTE_LIMIT, Command, Key, MOST_FOUND, ROW_LIMIT, TABLE_KEYS};

/// Whether a key belongs to one of so many tables.
pub fn is_table_key(tables: u8, key: Key) -> bool
    ensures { result ≡ is_table_key tables key }
{
    let table = key / TABLE_KEYS;
    1 <= table && table <= tables as u64
}

/// Whether a table is one of so many, and may have this row.
pub fn is_row(tables: u8, table: u64, row: u64) -> bool
    ensures exact { result ≡ is_row tables table row }
    ensures within { result ≡ true → IsWithin 1 tables table × (row < row_limit) }
{
    1 <= table && table <= tables as u64 && row < ROW_LIMIT
}

/// Whether a table is one of so many, and may have this row with this attribute.
pub fn is_row_with(tables: u8, table: u64, row: u64, attribute: u64) -> bool
    ensures exact { result ≡ is_row_with tables table row attribute }
    ensures within { result ≡ true → IsWithin 1 tables table × (row < row_limit) × (attribute < attribute_limit) }
{
    is_row(tables, table, row) && attribute < ATTRIBUTE_LIMIT
}

/// Whether a table is one of so many, and so many rows of an attribute may be looked for there.
pub fn is_search(tables: u8, table: u64, attribute: u64, n: u64) -> bool
    ensures exact { result ≡ is_search tables table attribute n }
    ensures within { result ≡ true → IsWithin 1 tables table × (attribute < attribute_limit) × IsWithin 1 most_found n }
{
    1 <= table && table <= tables as u64 && attribute < ATTRIBUTE_LIMIT && 1 <= n && n <= MOST_FOUND
}

/// How many commands a command counts as.
pub fn counts_as(command: &Command) -> usize
    ensures exact { result ≡ counts_as command.now }
    ensures few { result ≤ 3 }
{
    match command {
        Command::Row { .. } => 3,
        Command::Unrow { .. } => 2,
        _ => 1,
    }
}

/// How many commands these commands count as.
pub fn command_count(commands: &[Command]) -> usize
    requires { command_count commands.now ≤ most_commands }
    ensures { result ≡ command_count commands.now }
{
    let mut count = 0;
    for command in commands {
        count += counts_as(command);
    }
    count
}
