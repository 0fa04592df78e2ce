//! The texts that are printed: a trace, a report, and the one line of a call that failed.
//!
//! Each `put` function adds its text to what was written before. Where memory runs out, a part of it may have been added.
ghost use Rattle.std.specs.Prelude.{◌≡◌, ◌∷◌, ◌++◌, [], codes, decimal, flat_map, map, unwrap_or, IfOk, OnOk};
ghost use Rattle.std.specs.List.{enumerate_from};
ghost use Rattle.hy_base.specs.Spelling.{event_words, line};
ghost use Rattle.hy_formats.specs.Texts.{abort_words, answer_text, client_text, memory_fault_text, outcome_words, reply_text};
ghost use Rattle.hy_formats.specs.Texts.{report_text, row_text, script_fault_text, server_text, source_fault_text, trace_text};
ghost use Rattle.hy_formats.specs.Texts.{verdict_words};
ghost use Rattle.hy_text.specs.LineWords.{spaced, word_text};

use hy_base::{
    Answer, Clash, Event, Outcome, Pair, Replies, Reply, Results, Row, ServerRows, Value, Verdict,
};
use itoa::Buffer;
use std::alloc::{AllocError, Global};

/// A word of a line: bytes as they are, or a number in decimal.
#[derive(Clone, Copy)]
pub(crate) enum Word<'a> {
    Plain(&'a [u8]),
    Number(u64),
}

fn put_word(out: &mut Vec<u8>, word: Word<'_>) -> Result<(), AllocError>
    ensures { OnOk result (out.new.items ≡ out.old.items ++ word_text word.entry) }
{
    match word {
        Word::Plain(bytes) => out.extend_from_slice(bytes),
        Word::Number(n) => {
            let mut buffer = Buffer::new();
            out.extend_from_slice(buffer.format(n).as_bytes())
        }
    }
}

// Adds each word after a space.
#[tactic(auto, unfolding(crate::specs::LineWords::spaced))]
pub(crate) fn put_words(out: &mut Vec<u8>, words: &[Word<'_>]) -> Result<(), AllocError>
    ensures { OnOk result (out.new.items ≡ out.old.items ++ spaced (map word_text words.now)) }
{
    for word in words {
        out.push(b' ')?;
        put_word(out, *word)?;
    }
    Ok(())
}

// Adds a line, by its first word and the others.
#[tactic(auto, using(crate::proofs::Lines::line_is))]
pub(crate) fn put_line(
    out: &mut Vec<u8>,
    first: &[u8],
    words: &[Word<'_>],
) -> Result<(), AllocError>
    ensures { OnOk result (out.new.items ≡ out.old.items ++ line (first.now ∷ map word_text words.now)) }
{
    out.extend_from_slice(first)?;
    put_words(out, words)?;
    out.push(b'\n')?;
    Ok(())
}

fn put_event(out: &mut Vec<u8>, event: Event) -> Result<(), AllocError>
    ensures { OnOk result (out.new.items ≡ out.old.items ++ line (event_words event)) }
{
    match event {
        Event::Begin { client } => put_line(out, b"b", &[Word::Number(client as u64)]),
        Event::Append { client } => put_line(out, b"a", &[Word::Number(client as u64)]),
        Event::End { client } => put_line(out, b"e", &[Word::Number(client as u64)]),
        Event::Refuse { client } => put_line(out, b"f", &[Word::Number(client as u64)]),
        Event::Pad { server } => put_line(out, b"p", &[Word::Number(server as u64)]),
        Event::Publish { server, upto } => {
            let words = [Word::Number(server as u64), Word::Number(upto as u64)];
            put_line(out, b"r", &words)
        }
        Event::Stop { call, pattern } => {
            let words = [Word::Number(call as u64), Word::Number(pattern as u64)];
            put_line(out, b"t", &words)
        }
    }
}

fn put_events(out: &mut Vec<u8>, events: &[Event]) -> Result<(), AllocError>
    ensures { OnOk result (out.new.items ≡ out.old.items ++ flat_map (λ event. line (event_words event)) events.now) }
{
    for event in events {
        put_event(out, *event)?;
    }
    Ok(())
}

/// The text of a trace: how many events, and each in its line.
pub fn write_trace(alloc: Global, events: &[Event]) -> Result<Vec<u8>, AllocError>
    ensures { IfOk result (λ text. text.items ≡ trace_text events.now) }
{
    let mut out = Vec::new(alloc);
    put_line(&mut out, b"trace", &[Word::Number(events.len() as u64)])?;
    put_events(&mut out, events)?;
    Ok(out)
}

fn put_pair(out: &mut Vec<u8>, pair: &Pair) -> Result<(), AllocError>
    ensures { OnOk result (out.new.items ≡ out.old.items ++ line (codes "pair" ∷ decimal pair.now.key ∷ pair.now.value ∷ [])) }
{
    let words = [Word::Number(pair.key), Word::Plain(pair.value.as_bytes())];
    put_line(out, b"pair", &words)
}

fn put_pairs(out: &mut Vec<u8>, pairs: &[Pair]) -> Result<(), AllocError>
    ensures { OnOk result (out.new.items ≡ out.old.items
        ++ flat_map (λ p. line (codes "pair" ∷ decimal p.key ∷ p.value ∷ [])) pairs.now) }
{
    for pair in pairs {
        put_pair(out, pair)?;
    }
    Ok(())
}

// What a scan found: how many pairs, and each in its line.
fn put_scan(out: &mut Vec<u8>, pairs: &[Pair]) -> Result<(), AllocError>
    ensures { OnOk result (out.new.items ≡ out.old.items ++ answer_text (Answer.Pairs pairs.now)) }
{
    put_line(out, b"rows", &[Word::Number(pairs.len() as u64)])?;
    put_pairs(out, pairs)
}

fn put_id(out: &mut Vec<u8>, row: u32) -> Result<(), AllocError>
    ensures { OnOk result (out.new.items ≡ out.old.items ++ line (codes "id" ∷ decimal row ∷ [])) }
{
    put_line(out, b"id", &[Word::Number(row as u64)])
}

fn put_ids(out: &mut Vec<u8>, ids: &[u32]) -> Result<(), AllocError>
    ensures { OnOk result (out.new.items ≡ out.old.items ++ flat_map (λ row. line (codes "id" ∷ decimal row ∷ [])) ids.now) }
{
    for row in ids {
        put_id(out, *row)?;
    }
    Ok(())
}

// The rows that were found by their attribute: how many, and the number of each in its line.
fn put_find(out: &mut Vec<u8>, ids: &[u32]) -> Result<(), AllocError>
    ensures { OnOk result (out.new.items ≡ out.old.items ++ answer_text (Answer.Ids ids.now)) }
{
    put_line(out, b"rows", &[Word::Number(ids.len() as u64)])?;
    put_ids(out, ids)
}

fn put_answer(out: &mut Vec<u8>, answer: &Answer) -> Result<(), AllocError>
    ensures { OnOk result (out.new.items ≡ out.old.items ++ answer_text answer.now) }
{
    match answer {
        Answer::Live(value) => put_line(out, b"value", &[Word::Plain(value.as_bytes())]),
        Answer::Absent => put_line(out, b"none", &[]),
        Answer::Well => put_line(out, b"ok", &[]),
        Answer::Sum(n) => put_line(out, b"sum", &[Word::Number(*n)]),
        Answer::NotNumber => put_line(out, b"notnum", &[]),
        Answer::TooBig => put_line(out, b"toobig", &[]),
        Answer::Pairs(pairs) => put_scan(out, pairs.as_slice()),
        Answer::Ids(ids) => put_find(out, ids.as_slice()),
    }
}

fn put_answers(out: &mut Vec<u8>, answers: &[Answer]) -> Result<(), AllocError>
    ensures { OnOk result (out.new.items ≡ out.old.items ++ flat_map answer_text answers.now) }
{
    for answer in answers {
        put_answer(out, answer)?;
    }
    Ok(())
}

// The outcome of a program that aborted, and against which write.
fn put_abort(out: &mut Vec<u8>, pos: u64, why: &[u8], clash: Clash) -> Result<(), AllocError>
    ensures { OnOk result (out.new.items ≡ out.old.items ++ line (codes "at" ∷ decimal pos ∷ abort_words why.now clash)) }
{
    let words = [
        Word::Number(pos),
        Word::Plain(b"abort"),
        Word::Plain(why),
        Word::Number(clash.key),
        Word::Plain(b"by"),
        Word::Number(clash.by as u64),
    ];
    put_line(out, b"at", &words)
}

pub(crate) fn put_verdict(out: &mut Vec<u8>, pos: u64, verdict: Verdict) -> Result<(), AllocError>
    ensures { OnOk result (out.new.items ≡ out.old.items ++ line (codes "at" ∷ decimal pos ∷ verdict_words verdict)) }
{
    match verdict {
        Verdict::Commit => {
            let words = [Word::Number(pos), Word::Plain(b"commit")];
            put_line(out, b"at", &words)
        }
        Verdict::Old { snap } => {
            let words = [
                Word::Number(pos),
                Word::Plain(b"abort"),
                Word::Plain(b"old"),
                Word::Number(snap as u64),
            ];
            put_line(out, b"at", &words)
        }
        Verdict::Pre(clash) => put_abort(out, pos, b"pre", clash),
        Verdict::Mate(clash) => put_abort(out, pos, b"mate", clash),
        Verdict::Final(clash) => put_abort(out, pos, b"final", clash),
    }
}

fn put_outcome(out: &mut Vec<u8>, outcome: Outcome) -> Result<(), AllocError>
    ensures { OnOk result (out.new.items ≡ out.old.items ++ line (outcome_words outcome)) }
{
    match outcome {
        Outcome::Read { snap } => put_line(out, b"read", &[Word::Number(snap as u64)]),
        Outcome::At { pos, verdict } => put_verdict(out, pos as u64, verdict),
        Outcome::Full => put_line(out, b"full", &[]),
        Outcome::Lost => put_line(out, b"lost", &[]),
        Outcome::Past { from } => put_line(out, b"past", &[Word::Number(from as u64)]),
        Outcome::NotYet { board } => put_line(out, b"notyet", &[Word::Number(board as u64)]),
    }
}

// A reply to a program of a client, both counted from 1.
fn put_reply(out: &mut Vec<u8>, client: u64, program: u64, reply: &Reply) -> Result<(), AllocError>
    ensures { OnOk result (out.new.items ≡ out.old.items ++ reply_text client (program, reply.now)) }
{
    let words = [Word::Number(client), Word::Number(program)];
    put_line(out, b"program", &words)?;
    put_answers(out, reply.answers.as_slice())?;
    put_outcome(out, reply.outcome)
}

// The replies to a client, program by program.
fn put_replies(out: &mut Vec<u8>, client: u64, replies: &[Reply]) -> Result<(), AllocError>
    ensures { OnOk result (out.new.items ≡ out.old.items ++ client_text (client, replies.now)) }
{
    for (at, reply) in replies.iter().enumerate() {
        put_reply(out, client, at as u64 + 1, reply)?;
    }
    Ok(())
}

// The replies client by client.
fn put_clients(out: &mut Vec<u8>, clients: &[Replies]) -> Result<(), AllocError>
    ensures { OnOk result (out.new.items ≡ out.old.items ++ flat_map client_text (enumerate_from 1 clients.now)) }
{
    for (at, replies) in clients.iter().enumerate() {
        put_replies(out, at as u64 + 1, replies.as_slice())?;
    }
    Ok(())
}

// The bytes of a row's value. A live row has one.
fn value_bytes(value: &Option<Value>) -> &[u8]
    ensures { result.now ≡ unwrap_or value.now [] }
{
    match value {
        Some(value) => value.as_bytes(),
        None => &[],
    }
}

fn put_row(out: &mut Vec<u8>, row: &Row) -> Result<(), AllocError>
    ensures { OnOk result (out.new.items ≡ out.old.items ++ row_text row.now) }
{
    let words = [
        Word::Number(row.key),
        Word::Plain(value_bytes(&row.value)),
        Word::Plain(b"by"),
        Word::Number(row.writer as u64),
    ];
    put_line(out, b"row", &words)
}

pub(crate) fn put_rows(out: &mut Vec<u8>, rows: &[Row]) -> Result<(), AllocError>
    ensures { OnOk result (out.new.items ≡ out.old.items ++ flat_map row_text rows.now) }
{
    for row in rows {
        put_row(out, row)?;
    }
    Ok(())
}

// A server, counted from 1: where its board stands, how many rows are live there, and these.
fn put_server(out: &mut Vec<u8>, number: u64, server: &ServerRows) -> Result<(), AllocError>
    ensures { OnOk result (out.new.items ≡ out.old.items ++ server_text (number, server.now)) }
{
    let words = [
        Word::Number(number),
        Word::Plain(b"at"),
        Word::Number(server.at as u64),
        Word::Plain(b"rows"),
        Word::Number(server.live.len() as u64),
    ];
    put_line(out, b"server", &words)?;
    put_rows(out, server.live.as_slice())
}

// The rows server by server.
fn put_servers(out: &mut Vec<u8>, servers: &[ServerRows]) -> Result<(), AllocError>
    ensures { OnOk result (out.new.items ≡ out.old.items ++ flat_map server_text (enumerate_from 1 servers.now)) }
{
    for (at, server) in servers.iter().enumerate() {
        put_server(out, at as u64 + 1, server)?;
    }
    Ok(())
}

/// The text of a report: the replies client by client and program by program, and then the rows server by server.
pub fn write_report(alloc: Global, results: &Results) -> Result<Vec<u8>, AllocError>
    ensures { IfOk result (λ text. text.items ≡ report_text results.now) }
{
    let mut out = Vec::new(alloc);
    put_clients(&mut out, results.replies.as_slice())?;
    put_servers(&mut out, results.servers.as_slice())?;
    Ok(out)
}

/// The line for a source that failed.
pub fn source_line() -> &'static [u8]
    ensures { result.now ≡ source_fault_text }
{
    b"hyder: source\n"
}

/// The line for a call that ran out of memory. It takes none.
pub fn memory_line() -> &'static [u8]
    ensures { result.now ≡ memory_fault_text }
{
    b"hyder: memory\n"
}

/// The line for a script that is refused: which of its lines, and why.
pub fn script_line(alloc: Global, number: u32, why: &str) -> Result<Vec<u8>, AllocError>
    ensures { IfOk result (λ text. text.items ≡ script_fault_text number why.now) }
{
    let mut out = Vec::new(alloc);
    let words = [Word::Number(number as u64), Word::Plain(why.as_bytes())];
    put_line(&mut out, b"hyder: script line", &words)?;
    Ok(out)
}
