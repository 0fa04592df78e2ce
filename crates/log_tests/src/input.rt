//! Inputs that are read and refused.
use hy_base::Event;
use hy_script::{Input, ReadError, Refused, Why, read_input};
use std::alloc::Global;
use std::test::Fail;

// Without its contract.
fn read(alloc: Global, text: &[u8], sim: bool) -> Result<Input, ReadError> {
    read_input(alloc, text, sim)
}

fn is_refused(alloc: Global, text: &str, sim: bool, line: u32, why: Why) -> bool {
    match read(alloc, text.as_bytes(), sim) {
        Ok(_) => false,
        Err(error) => error == ReadError::Refused(Refused { line, why }),
    }
}

fn has_no_schedule(alloc: Global, text: &str) -> bool {
    match read(alloc, text.as_bytes(), true) {
        Ok(input) => input.lines.len() == 0,
        Err(_) => false,
    }
}

#[test]
fn reads_a_script_with_its_schedule(rt: HostRuntime) -> Result<(), Fail> {
    let text = "shape 1 1 8\nservers 1\nclient 1\nschedule\nb 1\n# one\na 1\n".as_bytes();
    let Ok(input) = read(rt.alloc(), text, true) else {
        return Err(Fail::new("the input is read"));
    };
    let events = [Event::Begin { client: 1 }, Event::Append { client: 1 }];
    assert!(rt; input.schedule.as_slice() == events.as_slice());
    assert!(rt; input.lines.as_slice() == [5, 7].as_slice());
    assert!(rt; input.script.clients().len() == 1);
    Ok(())
}

#[test]
fn refuses_a_line_of_the_script_or_of_the_schedule(rt: HostRuntime) {
    let cases: [(&str, bool, u32, Why); 3] = [
        (
            "shape 1 1 8\nservers 1\nschedule\nb 1\n",
            true,
            4,
            Why::Range,
        ),
        ("shape 1 1 8\nservers 1\nschedule\n", false, 3, Why::Word),
        (
            "shape 1 1 8\nservers 0\nschedule\nb 1\n",
            true,
            2,
            Why::Range,
        ),
    ];
    for (text, sim, line, why) in cases {
        assert!(rt; is_refused(rt.alloc(), text, sim, line, why), "{text}");
    }
    assert!(rt; has_no_schedule(rt.alloc(), "shape 1 1 8\nservers 1\n"));
}
