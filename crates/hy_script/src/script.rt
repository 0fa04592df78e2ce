//! The lines of a script.
ghost use Rattle.std.specs.Prelude.{◌≡◌, ◌<◌, ◌≤◌, ℕ, not, nat_lt, Bool, true, false, List, Ok, length, IfOk, IfSome};
ghost use Rattle.hy_base.specs.declared.workload.Mode.{Mode};
ghost use Rattle.hy_base.specs.Entry.{is_told};
ghost use Rattle.hy_base.specs.Script.{FitsTables, IsCommand, IsReading, client_count};
ghost use Rattle.hy_base.specs.Shape.{IsGoodShape, IsWithin};
ghost use Rattle.hy_script.specs.Fields.{HasFields, and_then, one_number, two_numbers, three_numbers, four_numbers, no_fields};
ghost use Rattle.hy_script.specs.LineParts.{IsClientListed, IsMode, IsNextLine};
ghost use Rattle.hy_script.specs.ScriptFields.{shape_fields, shape_numbers, good_shape, told_by_three, told_by_four};
ghost use Rattle.hy_script.specs.ScriptFields.{told_with_horizon, servers_fields, servers_line, servers_numbers};
ghost use Rattle.hy_script.specs.ScriptFields.{position_field, mode_fields, one_more_program, scan_fields, RowTextOf, ValueOf};
ghost use Rattle.hy_script.specs.ScriptFields.{shape_line, number_within, tables_fields, client_fields, listing_line, one_more};
ghost use Rattle.hy_script.specs.ScriptFields.{one_more_if, put_fields, del_fields, add_fields, row_fields, unrow_fields};
ghost use Rattle.hy_script.specs.ScriptFields.{cell_fields, find_fields, writing_line, program_line, TellsField};
ghost use Rattle.hy_script.specs.Lines.{words_of};
ghost use Rattle.hy_base.specs.declared.workload.Command.TheVariants.{Get};
ghost use Rattle.hy_base.specs.Limits.{IsServerNumber, most_boards, most_commands, most_programs, most_tables};
ghost use Rattle.hy_base.specs.Tables.{is_table_key};
ghost use Rattle.hy_script.specs.declared.script.ListingLine.TheVariants.{Tables, Begin, Schedule};
ghost use Rattle.hy_script.specs.declared.script.ProgramLine.TheVariants.{End};
ghost use Rattle.hy_script.specs.Grammar.{plain_mode};

use crate::Why;
use crate::ranges::{counts_as, is_row, is_row_with, is_search, is_table_key};
use crate::words::{
    Fields, cut_fields, four_numbers, no_fields, number_and_text, one_number, three_numbers,
    three_numbers_and_text, two_numbers,
};
use hy_base::{
    Client, Command, Isolation, Key, MOST_BOARDS, MOST_CLIENTS_OF_SERVER, MOST_COMMANDS,
    MOST_FOUND, MOST_PROGRAMS, MOST_SERVERS, MOST_TABLES, Mode, Pos, Shape, TEXT_LIMIT, Value,
    ValueError, tells_isolation,
};
use std::alloc::{AllocError, Global};

/// Why a line was not read.
#[derive(Clone, Copy)]
pub enum LineError {
    Unfit(Why),
    Memory,
}

impl From<Why> for LineError {
    ghost use Rattle.std.specs.Prelude.{◌≡◌};
    ghost use Rattle.hy_script.specs.declared.script.LineError.TheVariants.{Unfit};

    ghost from_gives = { λ why e. e ≡ Unfit why };

    fn from(why: Why) -> Self {
        Self::Unfit(why)
    }
}

impl From<AllocError> for LineError {
    ghost use Rattle.std.specs.Prelude.{◌≡◌};
    ghost use Rattle.hy_script.specs.declared.script.LineError.TheVariants.{Memory};

    ghost from_gives = { λ _ error. error ≡ Memory };

    fn from(_: AllocError) -> Self {
        Self::Memory
    }
}

/// A line between programs.
#[derive(Clone, Copy)]
pub enum ListingLine {
    Tables(u8),
    Client(u8),
    Begin(Mode),
    Schedule,
}

/// A line of a program.
#[derive(Drop)]
pub enum ProgramLine {
    Next(Command),
    End,
}

/// How many servers a line tells, and how many of its last boards each of them keeps.
#[derive(Clone, Copy)]
pub struct ToldServers {
    pub servers: u8,
    pub keeps: u8,
}

/// What a line tells of a shape.
#[derive(Clone, Copy)]
pub struct ToldShape {
    group: u64,
    window: u64,
    cap: u64,
    version: u64,
    horizon: Option<u64>,
}

// Three numbers are of version 1.
fn told_by_three(fields: Fields<'_>) -> Result<ToldShape, Why>
    ensures { (words : List (List ℕ)) → HasFields fields.entry words → result ≡ told_by_three words }
{
    let (group, window, cap) = three_numbers(fields)?;
    Ok(ToldShape {
        group,
        window,
        cap,
        version: 1,
        horizon: None,
    })
}

// A fourth number is the version.
fn told_by_four(fields: Fields<'_>) -> Result<ToldShape, Why>
    ensures { (words : List (List ℕ)) → HasFields fields.entry words → result ≡ told_by_four words }
{
    let (group, window, cap, version) = four_numbers(fields)?;
    Ok(ToldShape {
        group,
        window,
        cap,
        version,
        horizon: None,
    })
}

// Or it is the horizon of a shape of version 3.
fn told_with_horizon(fields: Fields<'_>) -> Result<ToldShape, Why>
    ensures { (words : List (List ℕ)) → HasFields fields.entry words → result ≡ told_with_horizon words }
{
    let (group, window, cap, horizon) = four_numbers(fields)?;
    Ok(ToldShape {
        group,
        window,
        cap,
        version: 3,
        horizon: Some(horizon),
    })
}

// A horizon stands behind the version 3, and behind no other.
fn shape_numbers(fields: Fields<'_>) -> Result<ToldShape, Why>
    ensures { (words : List (List ℕ)) → HasFields fields.entry words → result ≡ shape_numbers words }
{
    match fields {
        Fields::Four(_, _, _, version) => {
            if version == b"3".as_slice() {
                return Err(Why::Form);
            }
            told_by_four(fields)
        }
        Fields::Five(group, window, cap, version, horizon) => {
            if version == b"3".as_slice() {
                return told_with_horizon(Fields::Four(group, window, cap, horizon));
            }
            Err(Why::Form)
        }
        _ => told_by_three(fields),
    }
}

// The shape that is told, where each number is in its range.
fn good_shape(told: ToldShape) -> Option<Shape>
    ensures exact { result ≡ good_shape told }
    ensures good { IfSome result IsGoodShape }
{
    let horizon = match told.horizon {
        Some(horizon) => Some(u32::try_from(horizon).ok()?),
        None => None,
    };
    let shape = Shape {
        group: u8::try_from(told.group).ok()?,
        window: u8::try_from(told.window).ok()?,
        cap: u32::try_from(told.cap).ok()?,
        version: u8::try_from(told.version).ok()?,
        horizon,
    };
    shape.check().ok()?;
    Some(shape)
}

fn shape_of(fields: Fields<'_>) -> Result<Shape, Why>
    ensures exact { (words : List (List ℕ)) → HasFields fields.entry words → result ≡ shape_fields words }
    ensures good { IfOk result IsGoodShape }
{
    good_shape(shape_numbers(fields)?).ok_or(Why::Range)
}

/// The shape.
pub fn read_shape(line: &[u8]) -> Result<Shape, Why>
    ensures exact { result ≡ shape_line (words_of line.now) }
    ensures good { IfOk result IsGoodShape }
{
    let (word, fields) = cut_fields(line);
    if word == b"shape".as_slice() {
        return shape_of(fields);
    }
    Err(Why::Word)
}

fn within(low: u8, high: u8, fields: Fields<'_>) -> Result<u8, Why>
    ensures exact { (words : List (List ℕ)) → HasFields fields.entry words → result ≡ number_within low high words }
    ensures range { IfOk result (λ n. IsWithin low high n) }
{
    let number = one_number(fields)?;
    if low as u64 <= number && number <= high as u64 {
        Ok(number as u8)
    } else {
        Err(Why::Range)
    }
}

// A server keeps one board, unless a second number says otherwise.
fn servers_numbers(fields: Fields<'_>) -> Result<(u64, u64), Why>
    ensures { (words : List (List ℕ)) → HasFields fields.entry words → result ≡ servers_numbers words }
{
    match fields {
        Fields::One(_) => Ok((one_number(fields)?, 1)),
        _ => two_numbers(fields),
    }
}

fn servers_of(fields: Fields<'_>) -> Result<ToldServers, Why>
    ensures exact { (words : List (List ℕ)) → HasFields fields.entry words → result ≡ servers_fields words }
    ensures range { IfOk result (λ told. IsServerNumber told.servers × IsWithin 1 most_boards told.keeps) }
{
    let (servers, keeps) = servers_numbers(fields)?;
    if 1 <= servers
        && servers <= u64::from(MOST_SERVERS)
        && 1 <= keeps
        && keeps <= u64::from(MOST_BOARDS)
    {
        Ok(ToldServers {
            servers: servers as u8,
            keeps: keeps as u8,
        })
    } else {
        Err(Why::Range)
    }
}

/// The number of servers, and how many boards each keeps.
pub fn read_servers(line: &[u8]) -> Result<ToldServers, Why>
    ensures exact { result ≡ servers_line (words_of line.now) }
    ensures range { IfOk result (λ told. IsServerNumber told.servers × IsWithin 1 most_boards told.keeps) }
{
    let (word, fields) = cut_fields(line);
    if word == b"servers".as_slice() {
        return servers_of(fields);
    }
    Err(Why::Word)
}

// The clients of a server.
fn count_of(clients: &[Client], server: u8) -> usize
    ensures { result ≡ client_count clients.now server }
{
    clients
        .iter()
        .filter(|client| client.server == server)
        .count()
}

fn tables_of(fields: Fields<'_>) -> Result<ListingLine, Why>
    ensures exact { (words : List (List ℕ)) → HasFields fields.entry words → result ≡ tables_fields words }
    ensures fits { IfOk result (λ l. (tables : ℕ) × (l ≡ Tables tables) × IsWithin 1 most_tables tables) }
{
    let tables = within(1, MOST_TABLES, fields)?;
    Ok(ListingLine::Tables(tables))
}

fn client_of(servers: u8, clients: &[Client], fields: Fields<'_>) -> Result<ListingLine, Why>
    ensures exact { (words : List (List ℕ)) (shape : Shape) (keeps tables : ℕ) → HasFields fields.entry words
        → result ≡ client_fields
        (record { shape = shape; servers = servers; keeps = keeps; tables = tables; clients = clients.now }) words }
    ensures fits { (shape : Shape) → IfOk result (IsClientListed shape servers clients.now) }
{
    let server = within(1, servers, fields)?;
    if count_of(clients, server) < MOST_CLIENTS_OF_SERVER {
        Ok(ListingLine::Client(server))
    } else {
        Err(Why::Count)
    }
}

// The position that is the only field.
fn position_of(shape: Shape, fields: Fields<'_>) -> Result<Mode, Why>
    requires { 0 < shape.group }
    ensures exact { (words : List (List ℕ)) → HasFields fields.entry words → result ≡ position_field shape words }
    ensures fits { IfOk result (IsMode shape) }
{
    let pos = one_number(fields)?;
    if pos % shape.group as u64 == 0 && pos <= shape.cap as u64 {
        Ok(Mode {
            isolation: Isolation::Serializable,
            as_of: Some(pos as Pos),
        })
    } else {
        Err(Why::Range)
    }
}

// A program that asks for no position.
fn plain_mode(isolation: Isolation) -> Mode
    ensures { result ≡ plain_mode isolation }
{
    Mode {
        isolation,
        as_of: None,
    }
}

// A program is at Serializable isolation, on what its server has published, unless its line says otherwise.
fn mode_of(shape: Shape, fields: Fields<'_>) -> Result<Mode, Why>
    requires { 0 < shape.group }
    ensures exact { (words : List (List ℕ)) → HasFields fields.entry words → result ≡ mode_fields shape words }
    ensures fits { IfOk result (IsMode shape) }
{
    match fields {
        Fields::Zero => Ok(plain_mode(Isolation::Serializable)),
        Fields::One(word) => {
            if word == b"snapshot".as_slice() {
                return Ok(plain_mode(Isolation::Snapshot));
            }
            Err(Why::Form)
        }
        Fields::Two(word, pos) => {
            if word == b"at".as_slice() {
                return position_of(shape, Fields::One(pos));
            }
            Err(Why::Form)
        }
        _ => Err(Why::Form),
    }
}

// A version tells this isolation.
fn is_told(version: u8, isolation: Isolation) -> bool
    ensures { result ≡ is_told version isolation }
{
    match isolation {
        Isolation::Serializable => true,
        Isolation::Snapshot => tells_isolation(version),
    }
}

// A program that asks for this, after so many of its client.
fn one_more_program(version: u8, count: usize, mode: Mode) -> Result<ListingLine, Why>
    ensures exact { result ≡ one_more_program version count mode }
    ensures fits { IfOk result (λ l. (l ≡ Begin mode) × (count < most_programs) × (is_told version mode.isolation ≡ true)) }
{
    if count < MOST_PROGRAMS {
        if is_told(version, mode.isolation) {
            Ok(ListingLine::Begin(mode))
        } else {
            Err(Why::Version)
        }
    } else {
        Err(Why::Count)
    }
}

fn begin_of(shape: Shape, last: &Client, fields: Fields<'_>) -> Result<ListingLine, Why>
    requires { 0 < shape.group }
    ensures exact { (words : List (List ℕ)) → HasFields fields.entry words
        → result ≡ and_then (mode_fields shape words) (one_more_program shape.version (length last.now.programs)) }
    ensures fits { IfOk result (λ l. (mode : Mode)
        × (l ≡ Begin mode)
        × (length last.now.programs < most_programs)
        × (is_told shape.version mode.isolation ≡ true)
        × IsMode shape mode) }
{
    let mode = mode_of(shape, fields)?;
    one_more_program(shape.version, last.programs.len(), mode)
}

fn schedule_of(fields: Fields<'_>) -> Result<ListingLine, Why>
    ensures exact { (words : List (List ℕ)) → HasFields fields.entry words
        → result ≡ and_then (no_fields words) (λ u. Ok Schedule) }
    ensures fits { IfOk result (λ l. l ≡ Schedule) }
{
    no_fields(fields)?;
    Ok(ListingLine::Schedule)
}

fn scan_of(fields: Fields<'_>) -> Result<Command, Why>
    ensures exact { (words : List (List ℕ)) → HasFields fields.entry words → result ≡ scan_fields words }
    ensures lawful { IfOk result (λ command. IsCommand command × IsReading command) }
    ensures fits { (tables : ℕ) → IfOk result (FitsTables tables) }
{
    let (lo, hi, n) = three_numbers(fields)?;
    if n < 1 || n > MOST_FOUND {
        return Err(Why::Range);
    }
    if lo <= hi {
        Ok(Command::Scan {
            lo,
            hi,
            n: n as u16,
        })
    } else {
        Err(Why::Order)
    }
}

fn value_of(alloc: Global, text: &[u8]) -> Result<Value, LineError>
    ensures { ValueOf result text.now }
{
    let bytes = Vec::from_slice(alloc, text)?;
    match Value::new(bytes) {
        Ok(value) => Ok(value),
        Err(ValueError::BadValue) => Err(LineError::Unfit(Why::Value)),
        Err(ValueError::Memory) => Err(LineError::Memory),
    }
}

// The text of a row.
fn row_text(alloc: Global, text: &[u8]) -> Result<Value, LineError>
    ensures { RowTextOf result text.now }
{
    if text.len() > TEXT_LIMIT {
        return Err(LineError::Unfit(Why::Value));
    }
    value_of(alloc, text)
}

/// The line that stands between programs.
#[tactic(auto, using(crate::proofs::ScriptLines::last_count))]
pub(crate) fn read_listing(
    sim: bool,
    shape: Shape,
    servers: u8,
    tables: u8,
    clients: &[Client],
    line: &[u8],
) -> Result<ListingLine, Why>
    requires { 0 < shape.group }
    ensures exact { (keeps : ℕ)
        → result
        ≡ listing_line sim (record { shape = shape; servers = servers; keeps = keeps; tables = tables; clients = clients.now })
        (words_of line.now) }
    ensures fits { IfOk result (IsClientListed shape servers clients.now) }
{
    let (word, fields) = cut_fields(line);
    if word == b"client".as_slice() {
        return client_of(servers, clients, fields);
    }
    if tables == 0 && clients.is_empty() && word == b"tables".as_slice() {
        return tables_of(fields);
    }
    if word == b"begin".as_slice() {
        return match clients.last() {
            Some(last) => begin_of(shape, last, fields),
            None => Err(Why::Word),
        };
    }
    if sim && word == b"schedule".as_slice() {
        return schedule_of(fields);
    }
    Err(Why::Word)
}

// A further command of a program whose commands count as so many.
fn one_more(count: usize, command: Command) -> Result<ProgramLine, Why>
    requires lawful { IsCommand command }
    requires few { count ≤ most_commands }
    ensures exact { result ≡ one_more count command }
    ensures fits { (tables : ℕ) (reads : Bool) → (reads ≡ true → IsReading command) → FitsTables tables command
        → IfOk result (IsNextLine tables reads count) }
{
    if count + counts_as(&command) <= usize::from(MOST_COMMANDS) {
        Ok(ProgramLine::Next(command))
    } else {
        Err(Why::Count)
    }
}

// A further command that writes a key, which is no key of a table.
fn one_write(tables: u8, count: usize, key: Key, command: Command) -> Result<ProgramLine, Why>
    requires lawful { IsCommand command }
    requires fits { is_table_key tables key ≡ false → FitsTables tables command }
    requires few { count ≤ most_commands }
    ensures exact { result ≡ one_more_if (not (is_table_key tables key)) count command }
    ensures fits { IfOk result (IsNextLine tables false count) }
{
    if is_table_key(tables, key) {
        return Err(Why::Range);
    }
    one_more(count, command)
}

fn get_of(count: usize, fields: Fields<'_>) -> Result<ProgramLine, LineError>
    requires { count ≤ most_commands }
    ensures exact { (words : List (List ℕ)) → HasFields fields.entry words
        → TellsField result (and_then (one_number words) (λ key. one_more count (Get key))) }
    ensures fits { (tables : ℕ) (reads : Bool) → IfOk result (IsNextLine tables reads count) }
{
    let line = one_more(count, Command::Get(one_number(fields)?))?;
    Ok(line)
}

fn del_of(tables: u8, count: usize, fields: Fields<'_>) -> Result<ProgramLine, LineError>
    requires { count ≤ most_commands }
    ensures exact { (words : List (List ℕ)) → HasFields fields.entry words → TellsField result (del_fields tables count words) }
    ensures fits { IfOk result (IsNextLine tables false count) }
{
    let key = one_number(fields)?;
    let line = one_write(tables, count, key, Command::Del(key))?;
    Ok(line)
}

fn add_of(tables: u8, count: usize, fields: Fields<'_>) -> Result<ProgramLine, LineError>
    requires { count ≤ most_commands }
    ensures exact { (words : List (List ℕ)) → HasFields fields.entry words → TellsField result (add_fields tables count words) }
    ensures fits { IfOk result (IsNextLine tables false count) }
{
    let (key, n) = two_numbers(fields)?;
    let line = one_write(tables, count, key, Command::Add(key, n))?;
    Ok(line)
}

fn counted_scan(count: usize, fields: Fields<'_>) -> Result<ProgramLine, LineError>
    requires { count ≤ most_commands }
    ensures exact { (words : List (List ℕ)) → HasFields fields.entry words
        → TellsField result (and_then (scan_fields words) (one_more count)) }
    ensures fits { (tables : ℕ) (reads : Bool) → IfOk result (IsNextLine tables reads count) }
{
    let line = one_more(count, scan_of(fields)?)?;
    Ok(line)
}

fn end_of(fields: Fields<'_>) -> Result<ProgramLine, LineError>
    ensures exact { (words : List (List ℕ)) → HasFields fields.entry words
        → TellsField result (and_then (no_fields words) (λ u. Ok End)) }
    ensures fits { IfOk result (λ l. l ≡ End) }
{
    no_fields(fields)?;
    Ok(ProgramLine::End)
}

fn put_of(
    alloc: Global,
    tables: u8,
    count: usize,
    fields: Fields<'_>,
) -> Result<ProgramLine, LineError>
    requires { count ≤ most_commands }
    ensures exact { (words : List (List ℕ)) → HasFields fields.entry words → TellsField result (put_fields tables count words) }
    ensures fits { IfOk result (IsNextLine tables false count) }
{
    let (key, text) = number_and_text(fields)?;
    let value = value_of(alloc, text)?;
    let line = one_write(tables, count, key, Command::Put(key, value))?;
    Ok(line)
}

fn row_of(
    alloc: Global,
    tables: u8,
    count: usize,
    fields: Fields<'_>,
) -> Result<ProgramLine, LineError>
    requires { count ≤ most_commands }
    ensures exact { (words : List (List ℕ)) → HasFields fields.entry words → TellsField result (row_fields tables count words) }
    ensures fits { IfOk result (IsNextLine tables false count) }
{
    let (table, row, attribute, text) = three_numbers_and_text(fields)?;
    let text = row_text(alloc, text)?;
    if !is_row_with(tables, table, row, attribute) {
        return Err(LineError::Unfit(Why::Range));
    }
    let command = Command::Row {
        table: table as u8,
        row: row as u32,
        attribute: attribute as u32,
        text,
    };
    let line = one_more(count, command)?;
    Ok(line)
}

fn unrow_of(tables: u8, count: usize, fields: Fields<'_>) -> Result<ProgramLine, LineError>
    requires { count ≤ most_commands }
    ensures exact { (words : List (List ℕ)) → HasFields fields.entry words
        → TellsField result (unrow_fields tables count words) }
    ensures fits { IfOk result (IsNextLine tables false count) }
{
    let (table, row) = two_numbers(fields)?;
    if !is_row(tables, table, row) {
        return Err(LineError::Unfit(Why::Range));
    }
    let command = Command::Unrow {
        table: table as u8,
        row: row as u32,
    };
    let line = one_more(count, command)?;
    Ok(line)
}

fn cell_of(tables: u8, count: usize, fields: Fields<'_>) -> Result<ProgramLine, LineError>
    requires { count ≤ most_commands }
    ensures exact { (words : List (List ℕ)) → HasFields fields.entry words
        → TellsField result (cell_fields tables count words) }
    ensures fits { (reads : Bool) → IfOk result (IsNextLine tables reads count) }
{
    let (table, row) = two_numbers(fields)?;
    if !is_row(tables, table, row) {
        return Err(LineError::Unfit(Why::Range));
    }
    let command = Command::Cell {
        table: table as u8,
        row: row as u32,
    };
    let line = one_more(count, command)?;
    Ok(line)
}

fn find_of(tables: u8, count: usize, fields: Fields<'_>) -> Result<ProgramLine, LineError>
    requires { count ≤ most_commands }
    ensures exact { (words : List (List ℕ)) → HasFields fields.entry words
        → TellsField result (find_fields tables count words) }
    ensures fits { (reads : Bool) → IfOk result (IsNextLine tables reads count) }
{
    let (table, attribute, n) = three_numbers(fields)?;
    if !is_search(tables, table, attribute, n) {
        return Err(LineError::Unfit(Why::Range));
    }
    let command = Command::Find {
        table: table as u8,
        attribute: attribute as u32,
        n: n as u16,
    };
    let line = one_more(count, command)?;
    Ok(line)
}

// A line of a program that may also write.
fn read_writing_line(
    alloc: Global,
    tables: u8,
    count: usize,
    word: &[u8],
    fields: Fields<'_>,
) -> Result<ProgramLine, LineError>
    requires { count ≤ most_commands }
    ensures exact { (words : List (List ℕ)) → HasFields fields.entry words
        → TellsField result (writing_line (nat_lt 0 tables) tables count word.now words) }
    ensures fits { IfOk result (IsNextLine tables false count) }
{
    if word == b"put".as_slice() {
        return put_of(alloc, tables, count, fields);
    }
    if word == b"del".as_slice() {
        return del_of(tables, count, fields);
    }
    if word == b"add".as_slice() {
        return add_of(tables, count, fields);
    }
    if tables > 0 && word == b"row".as_slice() {
        return row_of(alloc, tables, count, fields);
    }
    if tables > 0 && word == b"unrow".as_slice() {
        return unrow_of(tables, count, fields);
    }
    Err(LineError::Unfit(Why::Word))
}

/// A line of a program whose commands count as so many, in a script with so many tables. Where the program asks for a
/// position, it only reads.
pub fn read_program_line(
    alloc: Global,
    tables: u8,
    reads: bool,
    count: usize,
    line: &[u8],
) -> Result<ProgramLine, LineError>
    requires { count ≤ most_commands }
    ensures exact { TellsField result (program_line tables reads count (words_of line.now)) }
    ensures fits { IfOk result (IsNextLine tables reads count) }
{
    let (word, fields) = cut_fields(line);
    if word == b"get".as_slice() {
        return get_of(count, fields);
    }
    if word == b"scan".as_slice() {
        return counted_scan(count, fields);
    }
    if word == b"end".as_slice() {
        return end_of(fields);
    }
    if tables > 0 && word == b"cell".as_slice() {
        return cell_of(tables, count, fields);
    }
    if tables > 0 && word == b"find".as_slice() {
        return find_of(tables, count, fields);
    }
    if reads {
        return Err(LineError::Unfit(Why::Word));
    }
    read_writing_line(alloc, tables, count, word, fields)
}
