//! Calls of `run` and of `recover` whose ends don't fail, or fail once.
use crate::calls::{RUN, ask, call, empty, ended, fine, roomy, told};
use crate::logs::{DUMP, ONE_PUT, one_put};
use hy_io::{MemSink, MemSource};
use hy_mem::MemDisk;
use hy_pipe::{Gate, OpenGate};
use hy_run::{Done, Status};
use std::alloc::Global;
use std::sync::Wait;
use std::sync::atomic::{AtomicU32, Ordering};
use std::test::Fail;
use std::thread::Threads;

const ONE_PUT_OUT: &[u8] =
    b"trace 3\nb 1\na 1\nr 1 1\nprogram 1 1\nok\nat 1 commit\nserver 1 at 1 rows 1\nrow 1 a by 1\n";

#[test]
fn a_run_writes_its_report_and_its_log(rt: HostRuntime) -> Result<(), Fail> {
    let alloc = rt.alloc();
    for threads in ["1", "16"] {
        let asked = ["run", "--threads", threads];
        let wanted = fine(1, ONE_PUT_OUT);
        let log = told(
            &rt,
            alloc,
            "one put",
            &asked,
            ONE_PUT,
            empty(alloc)?,
            wanted,
        )?;
        assert!(rt; log.bytes() == one_put().as_slice());
        drop(log);
    }
    Ok(())
}

// A call over a log with these bytes, whose source and sink may fail.
fn written<R: Threads + Wait + Sync>(
    rt: &R,
    alloc: Global,
    asked: &[&str],
    mut source: MemSource,
    sink: &mut MemSink,
    bytes: &[u8],
) -> Result<Done<MemDisk>, Fail> {
    let log = roomy(alloc, bytes)?;
    let done = call(rt, alloc, asked, &mut source, sink, log, &OpenGate);
    drop(source);
    done
}

// A command that looks at the log reads no source, so a source that fails isn't noticed.
#[test]
fn a_look_at_the_log_reads_no_source(rt: HostRuntime) -> Result<(), Fail> {
    let alloc = rt.alloc();
    let source = MemSource::new(alloc, b"no script", 7, &[1])?;
    let mut sink = MemSink::new(alloc, 1000, 1000, &[])?;
    let done = written(&rt, alloc, &["recover"], source, &mut sink, &one_put())?;
    assert!(rt; done.status == Status::Fine && done.acked == 1);
    assert_eq!(rt; sink.taken(), DUMP);
    drop(sink);
    drop(done);
    Ok(())
}

#[test]
fn a_sink_of_a_run_fails(rt: HostRuntime) -> Result<(), Fail> {
    let alloc = rt.alloc();
    let source = MemSource::new(alloc, ONE_PUT, 7, &[])?;
    let mut sink = MemSink::new(alloc, 1000, 10, &[2])?;
    let done = written(&rt, alloc, RUN, source, &mut sink, b"")?;
    assert!(rt; done.status == Status::Sink && done.acked == 1);
    assert_eq!(rt; sink.taken(), b"trace 3\nb ".as_slice());
    assert!(rt; done.log.bytes() == one_put().as_slice());
    drop(sink);
    drop(done);
    Ok(())
}

// Keeps the task of each client until two have started. It gives up after a number of turns.
#[derive(Drop)]
struct Meeting {
    started: AtomicU32,
    gave_up: AtomicU32,
}

impl Gate for Meeting {
    fn enter(&self, _group: u32) {}

    fn client(&self, _client: u32) {
        self.started.fetch_add(1, Ordering::SeqCst);
        for _turn in 0..100000000 {
            if self.started.load(Ordering::SeqCst) >= 2 {
                return;
            }
        }
        self.gave_up.fetch_add(1, Ordering::SeqCst);
    }
}

#[test]
fn two_clients_run_at_one_time(rt: HostRuntime) -> Result<(), Fail> {
    let alloc = rt.alloc();
    let script: &[u8] =
        b"shape 1 1 8\nservers 1\nclient 1\nbegin\nput 1 a\nend\nclient 1\nbegin\nput 2 b\nend\n";
    let gate = Meeting {
        started: AtomicU32::new(0),
        gave_up: AtomicU32::new(0),
    };
    let (status, acked) = ended(ask(&rt, alloc, RUN, script, empty(alloc)?, &gate)?);
    assert!(rt; status == Status::Fine && acked == 2);
    assert_eq!(rt; gate.started.load(Ordering::SeqCst), 2);
    assert_eq!(rt; gate.gave_up.load(Ordering::SeqCst), 0);
    Ok(())
}
