//! A log in memory that is stopped and goes on.
use hy_base::{ArmedStop, Shape};
use hy_memlog::MemLog;
use std::rt::HostRuntime;
use std::test::Fail;

#[test]
fn a_stopped_log_goes_on(rt: HostRuntime) -> Result<(), Fail> {
    let alloc = rt.alloc();
    let shape = Shape {
        group: 2,
        window: 1,
        cap: 8,
        version: 1,
        horizon: None,
    };
    let mut log = MemLog::new(alloc, shape)?;
    log.append(&[7; 60], 2)?;
    let dropped = ArmedStop {
        call: 2,
        pattern: 1,
    };
    log.stop(alloc, &[8; 300], dropped)?;
    let kept = ArmedStop {
        call: 4,
        pattern: 1,
    };
    log.stop(alloc, &[9; 300], kept)?;
    log.append(&[7; 60], 1)?;
    assert!(rt; !log.is_broken());
    Ok(())
}
