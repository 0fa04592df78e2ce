//! Where a trace of two clients leads, step by step, and whether it may happen.

use crate::hub::SHAPE;
use hy_base::{Event, Pos, Shape};
use std::test::Fail;

/// How far a client and its server have come.
#[derive(Clone, Copy)]
pub struct Side {
    pub board: Pos,
    pub runs: bool,
    pub left: u8,
    pub last: Pos,
}

/// How long the log is, and how far each client has come with its server.
#[derive(Clone, Copy)]
pub struct Course {
    pub len: Pos,
    pub one: Side,
    pub two: Side,
}

const AT_FIRST: Side = Side {
    board: 0,
    runs: false,
    left: 3,
    last: 0,
};

fn side_of(course: Course, number: u8) -> Option<Side> {
    match number {
        1 => Some(course.one),
        2 => Some(course.two),
        _ => None,
    }
}

fn with_side(course: Course, number: u8, side: Side) -> Course {
    if number == 1 {
        Course {
            one: side,
            ..course
        }
    } else {
        Course {
            two: side,
            ..course
        }
    }
}

// How much of a group stands at the end of this many entries.
fn part_of(len: Pos, shape: Shape) -> Pos {
    let group = Pos::from(shape.group);
    if group == 0 { 0 } else { len % group }
}

fn begun(side: Side) -> Option<Side> {
    if side.runs || side.left == 0 || side.board < side.last {
        return None;
    }
    Some(Side { runs: true, ..side })
}

fn appended(side: Side, at: Pos) -> Option<Side> {
    if !side.runs || side.left == 0 {
        return None;
    }
    Some(Side {
        runs: false,
        left: side.left - 1,
        last: at,
        ..side
    })
}

fn published(side: Side, upto: Pos, len: Pos, shape: Shape) -> Option<Side> {
    if upto <= side.board || len < upto || part_of(upto, shape) != 0 {
        return None;
    }
    Some(Side {
        board: upto,
        ..side
    })
}

// The length once the last group is whole. None where it is so already.
fn padded(len: Pos, shape: Shape) -> Option<Pos> {
    let part = part_of(len, shape);
    if part == 0 {
        return None;
    }
    let lack = Pos::from(shape.group).checked_sub(part)?;
    len.checked_add(lack)
}

// Where an event leads. None where it may not happen, or doesn't come in these runs.
fn after(course: Course, event: Event, shape: Shape) -> Option<Course> {
    match event {
        Event::Begin { client } => {
            let side = begun(side_of(course, client)?)?;
            Some(with_side(course, client, side))
        }
        Event::Append { client } => {
            if course.len >= shape.cap {
                return None;
            }
            let len = course.len + 1;
            let side = appended(side_of(course, client)?, len)?;
            Some(with_side(Course { len, ..course }, client, side))
        }
        Event::Publish { server, upto } => {
            let side = published(side_of(course, server)?, upto, course.len, shape)?;
            Some(with_side(course, server, side))
        }
        Event::Pad { server } => {
            let _ = side_of(course, server)?;
            let len = padded(course.len, shape)?;
            Some(Course { len, ..course })
        }
        Event::End { .. } | Event::Refuse { .. } | Event::Stop { .. } => None,
    }
}

/// Where a trace leads from an empty log. None where one of its events may not happen.
pub fn course_of(shape: Shape, trace: &[Event]) -> Option<Course> {
    let mut course = Course {
        len: 0,
        one: AT_FIRST,
        two: AT_FIRST,
    };
    for event in trace {
        course = after(course, *event, shape)?;
    }
    Some(course)
}

#[test]
fn a_trace_out_of_order_is_not_legal(rt: HostRuntime) -> Result<(), Fail> {
    let begin = Event::Begin { client: 1 };
    let append = Event::Append { client: 1 };
    let publish = Event::Publish { server: 1, upto: 1 };
    assert!(rt; course_of(SHAPE, &[begin, append, publish, begin]).is_some());
    assert!(rt; course_of(SHAPE, &[begin, begin]).is_none());
    assert!(rt; course_of(SHAPE, &[append]).is_none());
    assert!(rt; course_of(SHAPE, &[begin, append, begin]).is_none());
    assert!(rt; course_of(SHAPE, &[begin, publish]).is_none());
    assert!(rt; course_of(SHAPE, &[begin, append, publish, publish]).is_none());
    assert!(rt; course_of(SHAPE, &[Event::Pad { server: 1 }]).is_none());
    Ok(())
}
