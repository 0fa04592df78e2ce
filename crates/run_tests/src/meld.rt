//! A large tree and marks that know it: a meld looks only where rows are late. A purge takes out old deletions alone.
ghost use Rattle.std.specs.Prelude.{◌≡◌, ◌<◌, ◌≤◌, List, IfOk};
ghost use Rattle.hy_base.specs.declared.record.Row.{Row};
ghost use Rattle.hy_base.specs.Rows.{AreDeletedAfterStart, Each};
ghost use Rattle.hy_base.specs.Later.{Later};
ghost use Rattle.hy_meld.specs.Melds.{AreFrom, IsMadeOn};

use crate::tree::{value, writer};
use hy_base::{Clash, Intention, Isolation, Key, Points, Pos, Spans, Steps, Write, Writes};
use hy_mark::Marks;
use hy_meld::{Melded, apply, meld, purge};
use hy_tree::{Look, Meter, Tree, View};
use std::alloc::{AllocError, Global};
use std::marker::Brand;
use std::sync::ledger::{Blank, Ledger};
use std::test::Fail;

const BASE: Pos = 10;

// No row is that old.
const LINE: Pos = 0;

// A count of looks that can be read: the steps have no bytes.
#[derive(Drop)]
struct Looks<L: Ledger> {
    steps: Steps<L>,
    told: u64,
}

impl<L: Ledger> Meter for Looks<L> {
    ghost count = { λ l. l.steps };
}

impl<L: Ledger> Look<Looks<L>> for Tree {
    fn empty() -> Tree {
        Tree::empty()
    }

    fn share(&self) -> Result<Tree, AllocError> {
        Ok(Tree::share(self)?)
    }

    fn top(&self) -> Pos {
        Tree::top(self)
    }

    fn low(&self) -> Pos {
        Tree::low(self)
    }

    fn view<'a>(&'a self, looks: &mut Looks<L>) -> View<'a, Tree> {
        looks.told = looks.told.saturating_add(1);
        Tree::view(self, &mut looks.steps)
    }

    fn fork(alloc: Global, left: Tree, right: Tree) -> Result<Tree, AllocError> {
        Ok(Tree::fork(alloc, left, right)?)
    }
}

// What a meld finds on a tree that grew out of the one that is ready, and how many looks it takes.
fn counted<L: Ledger>(
    alloc: Global,
    cur: &Tree,
    ready: &Tree,
    marks: &Marks,
    blank: Blank,
) -> Result<(Melded<Tree>, u64), AllocError>
    requires own { (blank.name ≡ L.name) × (blank.parts ≡ L.parts) }
    requires some { 0 < L.parts }
    requires ready { (earlier : List Row) × IsMadeOn 10 0 cur.now marks.now.writes ready.now earlier }
    requires marks { AreFrom 10 marks.now.pairs }
{
    let mut looks = Looks {
        steps: Steps::<L>::new(blank),
        told: 0,
    };
    let melded = meld(alloc, cur, ready, marks, BASE, LINE, &mut looks);
    let told = looks.told;
    drop(looks);
    Ok((melded?, told))
}

// Keys 0 to 999, written at positions 1 to 10.
fn thousand(alloc: Global) -> Result<Tree, Fail>
    ensures { IfOk result (λ t. Each (λ r. r.writer ≤ 10) t) }
{
    let mut tree = Tree::empty();
    for key in 0..1000 {
        let writer = (key % 10) as Pos + 1;
        tree = tree.put(alloc, key, writer, None)?;
    }
    Ok(tree)
}

// The marks of a transaction at position 12 that read these keys at the base, and writes key 5.
fn marks(alloc: Global, points: &[Key]) -> Result<Marks, Fail>
    ensures { IfOk result (λ m. AreFrom 10 m.pairs) }
{
    let write = Write {
        key: 5,
        value: None,
    };
    let intention = Intention {
        server: 1,
        client: 1,
        isolation: Isolation::Serializable,
        snap: BASE,
        points: Points::from_vec(Vec::from_slice(alloc, points)?),
        spans: Spans::new(alloc),
        writes: Writes::from_vec(vec![in alloc; write]?),
    };
    let marks = Marks::of(alloc, &intention, 12);
    drop(intention);
    Ok(marks?)
}

// Of a meld: the key that clashes and its writer, or else who wrote keys 5 and 700 and how many rows there are; and the looks.
type Seen = (Option<Clash>, (Pos, Pos, u64), u64);

fn seen(melded: (Melded<Tree>, u64)) -> Seen {
    let (melded, looks) = melded;
    match melded {
        Melded::Clash(clash) => (Some(clash), (0, 0, 0), looks),
        Melded::Clean(tree) => {
            let rows = (writer(&tree, 5), writer(&tree, 700), tree.row_count());
            drop(tree);
            (None, rows, looks)
        }
    }
}

// The rows that a meld finds: those that are given, of writers up to the base, or these with key 700 written at position 11.
fn current(alloc: Global, earlier: &Tree, late: bool) -> Result<Tree, Fail>
    requires { Each (λ r. r.writer ≤ 10) earlier.now }
    ensures { IfOk result (λ t. Later earlier.now t 10 0) }
{
    let same = earlier.share()?;
    if late {
        return Ok(same.put(alloc, 700, 11, None)?);
    }
    Ok(same)
}

// A meld on the base rows, or on these with key 700 written late.
fn melded(alloc: Global, earlier: &Tree, marks: &Marks, late: bool) -> Result<Seen, Fail>
    requires rows { Each (λ r. r.writer ≤ 10) earlier.now }
    requires marks { AreFrom 10 marks.now.pairs }
{
    let ready = apply(alloc, earlier, marks)?;
    let cur = current(alloc, earlier, late)?;
    let found = counted::<Brand>(alloc, &cur, &ready, marks, Blank::new(1));
    drop(cur);
    drop(ready);
    Ok(seen(found?))
}

fn looked(alloc: Global, points: &[Key], late: bool) -> Result<Seen, Fail> {
    let earlier = thousand(alloc)?;
    let marks = marks(alloc, points)?;
    let found = melded(alloc, &earlier, &marks, late);
    drop(marks);
    drop(earlier);
    found
}

#[test]
fn a_meld_looks_only_where_rows_are_late(rt: HostRuntime) -> Result<(), Fail> {
    let (clash, rows, looks) = looked(rt.alloc(), &[], false)?;
    assert_eq!(rt; (clash, rows), (None, (12, 1, 1000)));
    assert!(rt; looks <= 1, "{looks} looks");
    let (clash, rows, looks) = looked(rt.alloc(), &[], true)?;
    assert_eq!(rt; (clash, rows), (None, (12, 11, 1000)));
    assert!(rt; looks <= 131, "{looks} looks");
    Ok(())
}

#[test]
fn a_late_key_that_was_read_clashes(rt: HostRuntime) -> Result<(), Fail> {
    let (clash, _, looks) = looked(rt.alloc(), &[700], true)?;
    assert_eq!(rt; clash, Some(Clash { key: 700, by: 11 }));
    assert!(rt; looks <= 131, "{looks} looks");
    Ok(())
}

// Keys 1 to 8, each written at the position of its number, and the even ones deleted there.
fn eight(alloc: Global) -> Result<Tree, Fail>
    ensures { IfOk result AreDeletedAfterStart }
{
    let mut tree = Tree::empty();
    for key in 1..9 {
        let byte = if key % 2 == 0 { None } else { Some(b'a') };
        let value = value(alloc, byte)?;
        tree = tree.put(alloc, key, key as Pos, value)?;
    }
    Ok(tree)
}

// What a purge leaves of a tree, and how many looks it takes.
fn purged<L: Ledger>(
    alloc: Global,
    tree: &Tree,
    line: Pos,
    blank: Blank,
) -> Result<(Tree, u64), AllocError>
    requires own { (blank.name ≡ L.name) × (blank.parts ≡ L.parts) }
    requires some { 0 < L.parts }
    requires deleted { AreDeletedAfterStart tree.now }
{
    let mut looks = Looks {
        steps: Steps::<L>::new(blank),
        told: 0,
    };
    let left = purge(alloc, tree, line, &mut looks);
    let told = looks.told;
    drop(looks);
    Ok((left?, told))
}

// Of the eight rows a purge leaves: the least writer of a deletion, who wrote keys 3, 4 and 6, and how many there are; and the
// looks.
type Left = (Pos, (Pos, Pos, Pos), u64, u64);

fn left_of_eight(alloc: Global, line: Pos) -> Result<Left, Fail> {
    let tree = eight(alloc)?;
    let left = purged::<Brand>(alloc, &tree, line, Blank::new(1));
    drop(tree);
    let (left, looks) = left?;
    let writers = (writer(&left, 3), writer(&left, 4), writer(&left, 6));
    let seen = (left.low(), writers, left.row_count(), looks);
    drop(left);
    Ok(seen)
}

#[test]
fn a_purge_leaves_what_is_above_the_line(rt: HostRuntime) -> Result<(), Fail> {
    for (line, low, writers, rows) in [
        (0, 2, (3, 4, 6), 8),
        (1, 2, (3, 4, 6), 8),
        (3, 4, (3, 4, 6), 7),
        (4, 6, (3, 0, 6), 6),
        (7, 8, (3, 0, 0), 5),
        (8, 0, (3, 0, 0), 4),
    ] {
        let (found_low, found, count, looks) = left_of_eight(rt.alloc(), line)?;
        assert_eq!(rt; (found_low, found, count), (low, writers, rows), "{line}");
        assert!(rt; looks <= 1 + 130 * (8 - rows), "{line}: {looks} looks");
    }
    Ok(())
}
