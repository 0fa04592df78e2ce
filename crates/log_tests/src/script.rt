//! Scripts and schedules that are read and refused.
use hy_base::{Command, Event, Items, Program, Script};
use hy_script::{EventLine, ReadError, Refused, ScheduleStart, Why, read_schedule, read_script};
use std::alloc::Global;
use std::test::Fail;

// The programs of the first client of a script.
fn first_programs(script: &Script) -> &[Program] {
    match script.clients() {
        [first, ..] => first.programs.as_slice(),
        [] => &[],
    }
}

// The name of a command, and its numbers. Of a value its length.
fn told(command: &Command) -> (&'static str, u64, u64, u64) {
    match command {
        Command::Get(key) => ("get", *key, 0, 0),
        Command::Put(key, value) => ("put", *key, value.as_bytes().len() as u64, 0),
        Command::Del(key) => ("del", *key, 0, 0),
        Command::Add(key, n) => ("add", *key, *n, 0),
        Command::Scan { lo, hi, n } => ("scan", *lo, *hi, *n as u64),
        Command::Row {
            table,
            row,
            attribute,
            text: _,
        } => ("row", *table as u64, *row as u64, *attribute as u64),
        Command::Unrow { table, row } => ("unrow", *table as u64, *row as u64, 0),
        Command::Cell { table, row } => ("cell", *table as u64, *row as u64, 0),
        Command::Find {
            table,
            attribute,
            n,
        } => ("find", *table as u64, *attribute as u64, *n as u64),
    }
}

// Whether these are the commands.
fn are_told(commands: &[Command], wanted: &[(&str, u64, u64, u64)]) -> bool {
    commands.len() == wanted.len()
        && commands
            .iter()
            .zip(wanted)
            .all(|(command, wanted)| told(command) == *wanted)
}

// The script, if it is read.
fn script_of(alloc: Global, text: &[u8]) -> Option<Script> {
    match read_script(alloc, text, false) {
        Ok(reading) => Some(reading.script),
        Err(_) => None,
    }
}

#[test]
fn reads_a_script(rt: HostRuntime) -> Result<(), Fail> {
    let text =
        "# one\nshape 1 1 9\n\nservers 2\nclient 2\nbegin\nget 0\nput 1 #~\ndel 3\nadd 4 9\nscan 5 6 1000\nend\nbegin\n\
         end"
            .as_bytes();
    let Some(script) = script_of(rt.alloc(), text) else {
        return Err(Fail::new("the script is read"));
    };
    assert!(rt; script.shape().cap == 9 && script.servers() == 2);
    let [first, second] = first_programs(&script) else {
        return Err(Fail::new("the client has two programs"));
    };
    let wanted = [
        ("get", 0, 0, 0),
        ("put", 1, 2, 0),
        ("del", 3, 0, 0),
        ("add", 4, 9, 0),
        ("scan", 5, 6, 1000),
    ];
    assert!(rt; are_told(first.commands.as_slice(), &wanted));
    assert!(rt; second.commands.len() == 0);
    Ok(())
}

// Where the schedule starts, and its events.
fn schedule_of(alloc: Global, text: &[u8]) -> Result<(ScheduleStart, Items<EventLine>), Fail> {
    let Ok(reading) = read_script(alloc, text, true) else {
        return Err(Fail::new("the script is read"));
    };
    let Some(start) = reading.schedule else {
        return Err(Fail::new("there is a schedule"));
    };
    match read_schedule(alloc, &text[start.offset..], start.line, &reading.script) {
        Ok(events) => Ok((start, events)),
        Err(_) => Err(Fail::new("the schedule is read")),
    }
}

fn on_line(line: u32, event: Event) -> EventLine {
    EventLine { line, event }
}

#[test]
fn reads_a_schedule(rt: HostRuntime) -> Result<(), Fail> {
    let text =
        "shape 1 1 8\nservers 1\nclient 1\nschedule\nb 1\n# one\na 1\n\ne 1\nf 1\np 1\nr 1 4294967295".as_bytes();
    let (start, events) = schedule_of(rt.alloc(), text)?;
    assert!(rt; start.offset == 40 && start.line == 5);
    let wanted = [
        on_line(5, Event::Begin { client: 1 }),
        on_line(7, Event::Append { client: 1 }),
        on_line(9, Event::End { client: 1 }),
        on_line(10, Event::Refuse { client: 1 }),
        on_line(11, Event::Pad { server: 1 }),
        on_line(
            12,
            Event::Publish {
                server: 1,
                upto: 4294967295,
            },
        ),
    ];
    assert!(rt; events.as_slice() == wanted.as_slice());
    Ok(())
}

// The line that is refused and why, or none where the bytes spell a script and, in a simulation, its schedule.
fn refusal(alloc: Global, bytes: &[u8], sim: bool) -> Result<Option<(u32, Why)>, Fail> {
    let reading = match read_script(alloc, bytes, sim) {
        Ok(reading) => reading,
        Err(ReadError::Refused(Refused { line, why })) => return Ok(Some((line, why))),
        Err(ReadError::Memory) => return Err(Fail::new("out of memory")),
    };
    let Some(start) = reading.schedule else {
        return Ok(None);
    };
    match read_schedule(alloc, &bytes[start.offset..], start.line, &reading.script) {
        Ok(_) => Ok(None),
        Err(ReadError::Refused(Refused { line, why })) => Ok(Some((line, why))),
        Err(ReadError::Memory) => Err(Fail::new("out of memory")),
    }
}

// Whether each of the texts, behind this front, is refused by this line and for this cause. The first that isn't is told.
fn refuses(alloc: Global, front: &str, cases: &[(&str, u32, Why)]) -> Result<(), Fail> {
    for (text, line, why) in cases {
        let mut bytes = Vec::from_slice(alloc, front.as_bytes())?;
        bytes.extend_from_slice(text.as_bytes())?;
        if refusal(alloc, &bytes, true)? != Some((*line, *why)) {
            return Err(Fail::new(text));
        }
    }
    Ok(())
}

#[test]
fn refuses_shapes_servers_and_clients(rt: HostRuntime) -> Result<(), Fail> {
    refuses(
        rt.alloc(),
        "",
        &[
            ("", 1, Why::Missing),
            ("\n", 2, Why::Missing),
            ("servers 1\n", 1, Why::Word),
            (" # no comment\n", 1, Why::Word),
            ("shape 1  1 8\n", 1, Why::Form),
            ("shape 1 1 8 \n", 1, Why::Form),
            ("shape 1 01 8\n", 1, Why::Number),
            ("shape 0 01 8\n", 1, Why::Number),
            ("shape 1 1 18446744073709551616\n", 1, Why::Number),
            ("shape 1 1 18446744073709551615\n", 1, Why::Range),
            ("shape 1 1 2147483649\n", 1, Why::Range),
            ("shape 1 1 0\n", 1, Why::Range),
            ("shape 9 1 9\n", 1, Why::Range),
            ("shape 2 1 9\n", 1, Why::Range),
            ("shape 1 65 8\n", 1, Why::Range),
            ("shape 1 1 8", 2, Why::Missing),
            ("shape 1 1 8\n\n# none\nservers 9\n", 4, Why::Range),
            ("shape 1 1 8\nservers 2\nclient 3\n", 3, Why::Range),
            ("shape 1 1 8\nservers 2\nbegin\n", 3, Why::Word),
            ("shape 1 1 8\nservers 2\nend\r\n", 3, Why::Word),
        ],
    )
}

#[test]
fn refuses_commands_and_events(rt: HostRuntime) -> Result<(), Fail> {
    refuses(
        rt.alloc(),
        "shape 1 1 8\nservers 1\nclient 1\nbegin\n",
        &[
            ("", 5, Why::Missing),
            ("put 1", 5, Why::Form),
            ("put 1 \n", 5, Why::Form),
            ("put x \n", 5, Why::Form),
            ("put 1 a b\n", 5, Why::Form),
            ("put 01 \x7f\n", 5, Why::Number),
            ("put 1 a\r\n", 5, Why::Value),
            ("get 1\nget 1\r\n", 6, Why::Number),
            ("scan 5 4 0\n", 5, Why::Range),
            ("scan 5 4 x\n", 5, Why::Number),
            ("scan 5 4 1\n", 5, Why::Order),
            ("scan 4 5 1001\n", 5, Why::Range),
            ("schedule\n", 5, Why::Word),
            ("end 1\n", 5, Why::Form),
            ("end\nschedule 1\n", 6, Why::Form),
            ("end\nb 1\n", 6, Why::Word),
            ("end\nschedule\nschedule\n", 7, Why::Word),
            ("end\nschedule\nb 0\n", 7, Why::Range),
            ("end\nschedule\nb 1\n\nb 2\n", 9, Why::Range),
            ("end\nschedule\np 2\n", 7, Why::Range),
            ("end\nschedule\nr 1 4294967296\n", 7, Why::Range),
            ("end\nschedule\nr 1 18446744073709551616\n", 7, Why::Number),
            ("end\nschedule\nr 1\n", 7, Why::Form),
            ("end\nschedule\nt 1 0\nt 5 0\n", 8, Why::Range),
            ("end\nschedule\nt 4 3\n", 7, Why::Range),
        ],
    )
}

#[test]
fn refuses_a_schedule_outside_simulations(rt: HostRuntime) -> Result<(), Fail> {
    let alloc = rt.alloc();
    let text = "shape 1 1 8\nservers 1\nschedule\nx\n".as_bytes();
    assert!(rt; refusal(alloc, text, false)? == Some((3, Why::Word)));
    // In a simulation the lines after it are another call's.
    assert!(rt; read_script(alloc, text, true).is_ok());
    assert!(rt; refusal(alloc, text, true)? == Some((4, Why::Word)));
    Ok(())
}

// A text with so many pieces between its ends.
fn repeated(
    alloc: Global,
    front: &str,
    piece: &str,
    count: u32,
    end: &str,
) -> Result<Vec<u8>, Fail> {
    let mut text = Vec::from_slice(alloc, front.as_bytes())?;
    for _ in 0..count {
        text.extend_from_slice(piece.as_bytes())?;
    }
    text.extend_from_slice(end.as_bytes())?;
    Ok(text)
}

fn refusal_of_repeated(
    alloc: Global,
    front: &str,
    piece: &str,
    count: u32,
    end: &str,
    sim: bool,
) -> Result<Option<(u32, Why)>, Fail> {
    let text = repeated(alloc, front, piece, count, end)?;
    refusal(alloc, &text, sim)
}

#[test]
fn counts_clients_programs_and_commands(rt: HostRuntime) -> Result<(), Fail> {
    let alloc = rt.alloc();
    let clients = "shape 1 1 8\nservers 8\n";
    let programs = "shape 1 1 8\nservers 1\nclient 1\n";
    let commands = "shape 1 1 8\nservers 1\nclient 1\nbegin\n";
    let cases = [
        (clients, "client 1\nclient 8\n", 16, "client 2\n", None),
        (
            clients,
            "client 1\nclient 8\n",
            16,
            "client 8\n",
            Some((35, Why::Count)),
        ),
        (
            programs,
            "begin\nend\n",
            10000,
            "client 1\nbegin\nend\n",
            None,
        ),
        (
            programs,
            "begin\nend\n",
            10001,
            "",
            Some((20004, Why::Count)),
        ),
        (commands, "add 7 1\n", 64, "end\n", None),
        (
            commands,
            "add 7 1\n",
            64,
            "del 7\nend\n",
            Some((69, Why::Count)),
        ),
    ];
    for (front, piece, count, end, wanted) in cases {
        let refused = refusal_of_repeated(alloc, front, piece, count, end, false)?;
        assert!(rt; refused == wanted, "{count} times {piece}");
    }
    Ok(())
}

#[test]
fn counts_bytes(rt: HostRuntime) -> Result<(), Fail> {
    let alloc = rt.alloc();
    // A source of the greatest length is read up to the line that is refused, and a longer one is not.
    let most = refusal_of_repeated(alloc, "", "0123456\n", 2097152, "", true)?;
    assert!(rt; most == Some((1, Why::Word)));
    let longer = refusal_of_repeated(alloc, "", "0123456\n", 2097152, "\n", true)?;
    assert!(rt; longer == Some((0, Why::Long)));
    Ok(())
}

#[test]
fn names_causes(rt: HostRuntime) -> Result<(), Fail> {
    let refused = ReadError::Refused(Refused {
        line: 8,
        why: Why::Disabled,
    });
    let text = format!(in rt.alloc(); "{refused}")?;
    assert!(rt; text.as_str() == "script line 8 disabled");
    Ok(())
}
