//! The first conflict of an intention with the last rows of keys.
//!
//! What an intention touches are spans of keys, many of one key alone. Each is looked up by itself, in the parts of the tree
//! that have a row past the position in question.
ghost use Rattle.std.specs.Prelude.{◌≡◌, ◌==◌, ◌<◌, Some};
ghost use Rattle.std.specs.List.{list_any};
ghost use Rattle.hy_base.specs.Entry.{is_in_span};
ghost use Rattle.hy_base.specs.Marks.{first_late, known_to};
ghost use Rattle.hy_tree.specs.TreeRows.{AreRows};
ghost use Rattle.hy_rules.specs.Members.{earliest};
ghost use Rattle.hy_rules.specs.Validation.{earlier};
ghost use Rattle.hy_check.specs.Conflicts.{known_where};

use hy_base::{Clash, Intention, Key, Pos, Span, Steps, Write};
use hy_tree::{Tree, View};
use std::marker::Brand;
use std::sync::ledger::{Blank, Ledger};

// The one of two conflicts that is reported.
fn earlier_of(clash: Clash, other: Option<Clash>) -> Clash
    ensures { Some result ≡ earlier clash other }
{
    match other {
        None => clash,
        Some(other) => {
            if clash.key < other.key || (clash.key == other.key && other.by <= clash.by) {
                clash
            } else {
                other
            }
        }
    }
}

/// The one of two conflicts that is reported, where there is one.
pub(crate) fn earliest_of(clash: Option<Clash>, other: Option<Clash>) -> Option<Clash>
    ensures { result ≡ earliest clash other }
{
    match clash {
        None => other,
        Some(clash) => Some(earlier_of(clash, other)),
    }
}

// The least key of a span that was written past a position. Parts without such a row, and those without a key of the span, are
// left out.
fn first_in_span<L: Ledger>(
    tree: &Tree,
    span: Span,
    after: Pos,
    steps: &mut Steps<L>,
) -> Option<Clash>
    ensures late { result ≡ first_late (known_where (λ key. is_in_span key span) after) tree.now }
    ensures valid { AreRows tree.now }
{
    if tree.top() <= after {
        return None;
    }
    match tree.view(steps) {
        View::Empty => None,
        View::Row(row) => {
            if span.lo <= row.key && row.key <= span.hi {
                Some(Clash {
                    key: row.key,
                    by: row.writer,
                })
            } else {
                None
            }
        }
        View::Fork {
            bit,
            prefix,
            left,
            right,
        } => {
            let low = span.lo >> bit;
            let high = span.hi >> bit;
            if prefix < low / 2 {
                None
            } else if high / 2 < prefix {
                None
            } else if high <= prefix * 2 {
                first_in_span(left, span, after, steps)
            } else if prefix * 2 < low {
                first_in_span(right, span, after, steps)
            } else {
                match first_in_span(left, span, after, steps) {
                    Some(clash) => Some(clash),
                    None => first_in_span(right, span, after, steps),
                }
            }
        }
    }
}

// The least of these keys that was written past a position.
fn first_in_points<L: Ledger>(
    tree: &Tree,
    points: &[Key],
    after: Pos,
    steps: &mut Steps<L>,
) -> Option<Clash>
    ensures { result ≡ first_late (known_where (λ key. list_any (λ point. point == key) points.now) after) tree.now }
{
    let mut found = None;
    let mut at = points.len();
    while at > 0 {
        at -= 1;
        let point = points[at];
        let span = Span {
            lo: point,
            hi: point,
        };
        found = earliest_of(first_in_span(tree, span, after, steps), found);
    }
    found
}

// The least key in these spans that was written past a position.
fn first_in_spans<L: Ledger>(
    tree: &Tree,
    spans: &[Span],
    after: Pos,
    steps: &mut Steps<L>,
) -> Option<Clash>
    ensures { result ≡ first_late (known_where (λ key. list_any (is_in_span key) spans.now) after) tree.now }
{
    let mut found = None;
    let mut at = spans.len();
    while at > 0 {
        at -= 1;
        found = earliest_of(first_in_span(tree, spans[at], after, steps), found);
    }
    found
}

// The least key of these writes that was written past a position.
fn first_in_writes<L: Ledger>(
    tree: &Tree,
    writes: &[Write],
    after: Pos,
    steps: &mut Steps<L>,
) -> Option<Clash>
    ensures { result ≡ first_late (known_where (λ key. list_any (λ write. write.key == key) writes.now) after) tree.now }
{
    let mut found = None;
    let mut at = writes.len();
    while at > 0 {
        at -= 1;
        let write = &writes[at];
        let span = Span {
            lo: write.key,
            hi: write.key,
        };
        found = earliest_of(first_in_span(tree, span, after, steps), found);
    }
    found
}

fn conflict_counted<L: Ledger>(
    tree: &Tree,
    intention: &Intention,
    after: Pos,
    blank: Blank,
) -> Option<Clash>
    requires own { (blank.name ≡ L.name) × (blank.parts ≡ L.parts) }
    requires some { 0 < L.parts }
    ensures late { result ≡ first_late (known_to after intention.now) tree.now }
    ensures valid { AreRows tree.now }
{
    if tree.top() <= after {
        return None;
    }
    let mut steps = Steps::<L>::new(blank);
    let point = first_in_points(tree, intention.points.as_slice(), after, &mut steps);
    let scanned = first_in_spans(tree, intention.spans.as_slice(), after, &mut steps);
    let written = first_in_writes(tree, intention.writes.as_slice(), after, &mut steps);
    earliest_of(point, earliest_of(scanned, written))
}

/// The least key that an intention touches and that was written past a position, and its writer. None where no key is. Rows of
/// deleted keys count like others.
pub(crate) fn conflict(tree: &Tree, intention: &Intention, after: Pos) -> Option<Clash>
    ensures late { result ≡ first_late (known_to after intention.now) tree.now }
    ensures valid { AreRows tree.now }
{
    conflict_counted::<Brand>(tree, intention, after, Blank::new(1))
}
