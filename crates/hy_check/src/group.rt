//! The verdicts of one group, by the last rows of keys.
ghost use Rattle.std.specs.Prelude.{◌≡◌, ◌==◌, ◌+◌, ◌^◌, ◌<◌, ◌≤◌, ℕ, List, [], ◌++◌, map, length, OnOk, IfOk, flat_map};
ghost use Rattle.std.specs.List.{list_any};
ghost use Rattle.hy_base.specs.declared.record.Row.{Row};
ghost use Rattle.hy_base.specs.Entry.{touches, is_in_span};
ghost use Rattle.hy_base.specs.Rows.{Each, WritersRise, newest, rows_at, up_to};
ghost use Rattle.hy_rules.specs.Validation.{touched, first_clash, standing_of, standings, joined_writes, late_conflicts};
ghost use Rattle.hy_rules.specs.Validation.{fate_of, fated, group_verdicts};
ghost use Rattle.hy_rules.specs.Members.{standing_as, standings_as};

use crate::conflicts::{conflict, earliest_of};
use hy_base::{Clash, Entry, EntryKind, Intention, Key, Member, Pos, Row, Span, Verdict, Write};
use hy_tree::Tree;
use std::alloc::{AllocError, Global};

fn has_point(points: &[Key], key: Key) -> bool
    ensures { result ≡ list_any (λ point. point == key) points.now }
{
    points.iter().any(|point| *point == key)
}

fn has_span(spans: &[Span], key: Key) -> bool
    ensures { result ≡ list_any (is_in_span key) spans.now }
{
    spans.iter().any(|span| span.lo <= key && key <= span.hi)
}

fn has_write(writes: &[Write], key: Key) -> bool
    ensures { result ≡ list_any (λ write. write.key == key) writes.now }
{
    writes.iter().any(|write| write.key == key)
}

fn is_touched(intention: &Intention, key: Key) -> bool
    ensures { result ≡ touches intention.now key }
{
    has_point(intention.points.as_slice(), key)
        || has_span(intention.spans.as_slice(), key)
        || has_write(intention.writes.as_slice(), key)
}

// The first conflict of an intention with these rows.
fn mate(intention: &Intention, rows: &[Row]) -> Option<Clash>
    ensures { result ≡ first_clash (touched intention.now rows.now) }
{
    let mut found = None;
    let mut at = rows.len();
    while at > 0 {
        at -= 1;
        let row = &rows[at];
        if is_touched(intention, row.key) {
            let clash = Clash {
                key: row.key,
                by: row.writer,
            };
            found = earliest_of(Some(clash), found);
        }
    }
    found
}

// Where an entry stands, by the last rows up to the base: no row is past it.
fn member_of(tree: &Tree, oldest: Pos, joined: &[Row], entry: &Entry) -> Member
    ensures { (base : ℕ) → Each (λ row. row.writer ≤ base) tree.now
        → standing_as entry.now result ≡ standing_of tree.now oldest base joined.now entry.now }
{
    match entry.kind() {
        EntryKind::Filler { .. } => Member::Filler,
        EntryKind::Txn(intention) => {
            if intention.snap < oldest {
                Member::Dropped(Verdict::Old {
                    snap: intention.snap,
                })
            } else if let Some(clash) = conflict(tree, intention, intention.snap) {
                Member::Dropped(Verdict::Pre(clash))
            } else if let Some(clash) = mate(intention, joined) {
                Member::Dropped(Verdict::Mate(clash))
            } else {
                Member::Joined
            }
        }
    }
}

/// Adds writes, as rows of a position.
pub(crate) fn add_rows(rows: &mut Vec<Row>, pos: Pos, writes: &[Write]) -> Result<(), AllocError>
    ensures { OnOk result (rows.new.items ≡ rows.old.items ++ rows_at pos writes.now) }
{
    for write in writes {
        let row = Row::of_write(write, pos)?;
        rows.push(row)?;
    }
    Ok(())
}

// Adds what a member writes, where it joined.
fn add_joined(
    joined: &mut Vec<Row>,
    pos: Pos,
    entry: &Entry,
    member: Member,
) -> Result<(), AllocError>
    ensures { OnOk result (joined.new.items ≡ joined.old.items ++ joined_writes pos (standing_as entry.now member)) }
{
    if let (Member::Joined, EntryKind::Txn(intention)) = (member, entry.kind()) {
        add_rows(joined, pos, intention.writes.as_slice())?;
    }
    Ok(())
}

// Where each member of the group past a position stands.
fn members(
    alloc: Global,
    tree: &Tree,
    oldest: Pos,
    upto: Pos,
    group: &[Entry],
) -> Result<Vec<Member>, AllocError>
    requires fits { upto + length group.now < 2 ^ 32 }
    ensures count { IfOk result (λ found. length found.items ≡ length group.now) }
    ensures standings { IfOk result (λ found. (base : ℕ) → Each (λ row. row.writer ≤ base) tree.now
        → standings_as group.now found.items ≡ standings tree.now oldest base (upto + 1) [] group.now) }
{
    let mut found = Vec::new(alloc);
    let mut joined = Vec::new(alloc);
    let mut pos = upto;
    for entry in group {
        pos += 1;
        let member = member_of(tree, oldest, &joined, entry);
        add_joined(&mut joined, pos, entry, member)?;
        found.push(member)?;
    }
    Ok(found)
}

// The first conflict of a joined member past the base, by the last rows up to its group.
fn late_conflict(tree: &Tree, base: Pos, entry: &Entry, member: Member) -> Option<Clash>
    ensures { (upto : ℕ) → Each (λ row. row.writer ≤ upto) tree.now
        → result ≡ first_clash (late_conflicts tree.now base upto (standing_as entry.now member)) }
{
    match (member, entry.kind()) {
        (Member::Joined, EntryKind::Txn(intention)) => {
            conflict(tree, intention, intention.snap.max(base))
        }
        _ => None,
    }
}

// The fate that the joined members share.
fn shared_fate(tree: &Tree, base: Pos, group: &[Entry], members: &[Member]) -> Verdict
    requires count { length members.now ≡ length group.now }
    ensures { (upto : ℕ) → Each (λ row. row.writer ≤ upto) tree.now
        → result ≡ fate_of (first_clash (flat_map (late_conflicts tree.now base upto) (standings_as group.now members.now))) }
{
    let mut found = None;
    let mut at = group.len();
    while at > 0 {
        at -= 1;
        let late = late_conflict(tree, base, &group[at], members[at]);
        found = earliest_of(late, found);
    }
    match found {
        None => Verdict::Commit,
        Some(clash) => Verdict::Final(clash),
    }
}

fn verdict_of(fate: Verdict, entry: &Entry, member: Member) -> Option<Verdict>
    ensures { result ≡ fated fate (standing_as entry.now member) }
{
    match (entry.kind(), member) {
        (EntryKind::Filler { .. }, _) => None,
        (EntryKind::Txn(_), Member::Filler) => None,
        (EntryKind::Txn(_), Member::Dropped(verdict)) => Some(verdict),
        (EntryKind::Txn(_), Member::Joined) => Some(fate),
    }
}

fn verdicts_of(
    alloc: Global,
    fate: Verdict,
    group: &[Entry],
    members: &[Member],
) -> Result<Vec<Option<Verdict>>, AllocError>
    requires { length members.now ≡ length group.now }
    ensures count { IfOk result (λ vs. length vs.items ≡ length group.now) }
    ensures verdicts { IfOk result (λ vs. vs.items ≡ map (fated fate) (standings_as group.now members.now)) }
{
    let mut verdicts = Vec::new(alloc);
    for at in 0..group.len() {
        let verdict = verdict_of(fate, &group[at], members[at]);
        verdicts.push(verdict)?;
    }
    Ok(verdicts)
}

/// The verdicts of the group past a position, by the last rows up to its base and those up to the position.
pub(crate) fn judge_group(
    alloc: Global,
    base_tree: &Tree,
    tree: &Tree,
    oldest: Pos,
    base: Pos,
    upto: Pos,
    group: &[Entry],
) -> Result<Vec<Option<Verdict>>, AllocError>
    requires fits { upto + length group.now < 2 ^ 32 }
    ensures count { IfOk result (λ vs. length vs.items ≡ length group.now) }
    ensures verdicts { IfOk result (λ vs. (committed : List Row)
        → WritersRise committed → Each (λ row. row.writer ≤ upto) committed
        → base_tree.now ≡ newest (up_to base committed) → tree.now ≡ newest committed
        → vs.items ≡ group_verdicts committed oldest base upto group.now) }
{
    let members = members(alloc, base_tree, oldest, upto, group)?;
    let fate = shared_fate(tree, base, group, &members);
    verdicts_of(alloc, fate, group, &members)
}
