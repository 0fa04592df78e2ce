//! Each call once with ample memory, and keys at the ends of their range.
ghost use Rattle.std.specs.Prelude.{◌≡◌, ◌<◌};

use hy_base::{Key, Pos, Row, Steps, Value, ValueError};
use hy_tree::*;
use std::alloc::{AllocError, Global};
use std::marker::Brand;
use std::sync::ledger::{Blank, Ledger};
use std::test::Fail;

const LAST: Key = u64::MAX;

/// The value of a byte, or none for a deletion.
pub fn value(alloc: Global, byte: Option<u8>) -> Result<Option<Value>, Fail> {
    let Some(byte) = byte else {
        return Ok(None);
    };
    match Value::new(vec![in alloc; byte; 1]?) {
        Ok(value) => Ok(Some(value)),
        Err(ValueError::BadValue) => Err(Fail::new("the value is refused")),
        Err(ValueError::Memory) => Err(Fail::from(AllocError)),
    }
}

/// Who wrote the row at a key, or 0 where there is none.
pub fn writer(tree: &Tree, key: Key) -> Pos {
    tree.get(key).map_or(0, |row| row.writer)
}

// The tree with a put of this byte, or a deletion.
fn with(alloc: Global, tree: Tree, key: Key, writer: Pos, byte: Option<u8>) -> Result<Tree, Fail> {
    let value = value(alloc, byte)?;
    let more = tree.put(alloc, key, writer, value);
    drop(tree);
    Ok(more?)
}

// The rows at keys 0, 5 and 2^64 - 1. That of 5 is of a deletion.
fn three_rows(alloc: Global) -> Result<Tree, Fail> {
    let tree = with(alloc, Tree::empty(), LAST, 2, Some(b'z'))?;
    let tree = with(alloc, tree, 5, 3, Some(b'e'))?;
    let tree = with(alloc, tree, 0, 1, Some(b'a'))?;
    with(alloc, tree, 5, 4, None)
}

fn told(row: Option<&Row>) -> Option<(Key, Pos, Option<&[u8]>)> {
    row.map(|row| (
        row.key,
        row.writer,
        row.value.as_ref().map(|value| value.as_bytes()),
    ))
}

#[test]
fn keys_are_found_at_the_ends_of_their_range(rt: HostRuntime) -> Result<(), Fail> {
    let tree = three_rows(rt.alloc())?;
    assert_eq!(rt; (tree.row_count(), tree.top()), (3, 4));
    assert_eq!(rt; told(tree.get(0)), Some((0, 1, Some(b"a".as_slice()))));
    assert_eq!(rt; told(tree.get(5)), Some((5, 4, None)));
    assert_eq!(rt;
        told(tree.get(LAST)),
        Some((LAST, 2, Some(b"z".as_slice())))
    );
    for key in [1, 4, 6, 1 << 63, LAST - 1] {
        assert_eq!(rt; told(tree.get(key)), None, "at {key}");
    }
    drop(tree);
    Ok(())
}

#[test]
fn the_next_row_is_a_tombstone_too(rt: HostRuntime) -> Result<(), Fail> {
    let tree = three_rows(rt.alloc())?;
    let rows = [(0, 0), (1, 5), (5, 5), (6, LAST), (LAST, LAST)];
    for (key, want) in rows {
        let found = tree.first_from(key).map(|row| row.key);
        assert_eq!(rt; found, Some(want), "from {key}");
    }
    drop(tree);
    let one = with(rt.alloc(), Tree::empty(), 7, 1, None)?;
    assert_eq!(rt; told(one.first_from(7)), Some((7, 1, None)));
    assert_eq!(rt; told(one.first_from(8)), None);
    drop(one);
    assert_eq!(rt; told(Tree::empty().first_from(0)), None);
    Ok(())
}

// Bit and prefix of the root, where it is a fork.
fn root<M: Meter, T: Look<M>>(tree: &T, steps: &mut M) -> Option<(u32, Key)> {
    match tree.view(steps) {
        View::Empty | View::Row(_) => None,
        View::Fork { bit, prefix, .. } => Some((bit, prefix)),
    }
}

// The tree again, its root made anew.
fn remade<M: Meter, T: Look<M> + Drop>(
    alloc: Global,
    tree: &T,
    steps: &mut M,
) -> Result<T, AllocError> {
    match tree.view(steps) {
        View::Empty => Ok(T::empty()),
        View::Row(_) => Ok(tree.share()?),
        View::Fork { left, right, .. } => Ok(T::fork(alloc, left.share()?, right.share()?)?),
    }
}

fn look<L: Ledger>(alloc: Global, tree: &Tree, blank: Blank) -> Result<Option<(u32, Key)>, Fail>
    requires name { blank.name ≡ L.name }
    requires parts { blank.parts ≡ L.parts }
    requires some { 0 < blank.parts }
{
    let mut steps = Steps::<L>::new(blank);
    let tree = remade(alloc, tree, &mut steps)?;
    let found = root(&tree, &mut steps);
    drop(tree);
    drop(steps);
    Ok(found)
}

fn root_of(alloc: Global, tree: Tree) -> Result<Option<(u32, Key)>, Fail> {
    let found = look::<Brand>(alloc, &tree, Blank::new(1));
    drop(tree);
    found
}

// That threads may share it.
fn shared_by_threads<T: Send + Sync>(_tree: &T) {}

#[test]
fn forks_stand_at_the_highest_bit_that_differs(rt: HostRuntime) -> Result<(), Fail> {
    let alloc = rt.alloc();
    let tree = three_rows(alloc)?;
    shared_by_threads(&tree);
    let same = tree.share();
    drop(tree);
    assert_eq!(rt; root_of(alloc, same?)?, Some((63, 0)));
    assert_eq!(rt; root_of(alloc, Tree::empty())?, None);
    let one = with(alloc, Tree::empty(), 12, 1, None)?;
    assert_eq!(rt; root_of(alloc, one)?, None);
    let one = with(alloc, Tree::empty(), 12, 1, None)?;
    let near = with(alloc, one, 14, 1, None)?;
    assert_eq!(rt; root_of(alloc, near)?, Some((1, 3)));
    Ok(())
}
