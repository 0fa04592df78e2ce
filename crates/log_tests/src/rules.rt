//! The plain fold, on logs of a few sums.
ghost use Rattle.std.specs.Prelude.{ℕ, None, IfOk};
ghost use Rattle.hy_base.specs.Limits.{IsClientNumber};
ghost use Rattle.hy_base.specs.Log.{HasLawfulSnap};

use hy_base::{Clash, Entry, Intention, Isolation, Items, Shape, Value, Verdict, Write};
use hy_check::{Folded, plain_fold};
use std::alloc::Global;
use std::test::Fail;

// What adding 1 to key 7 leaves, on the empty snapshot.
fn sum(alloc: Global, client: u8) -> Result<Entry, Fail>
    requires { IsClientNumber client }
    ensures { IfOk result (λ e. (pos : ℕ)
        → HasLawfulSnap (record { group = 1; window = 1; cap = 8; version = 1; horizon = None }) pos e) }
{
    let value = Value::new(vec![in alloc; b'1']?).ok();
    Ok(Entry::transaction(Intention {
        server: 1,
        client,
        isolation: Isolation::Serializable,
        snap: 0,
        points: Items::from_vec(vec![in alloc; 7]?),
        spans: Items::new(alloc),
        writes: Items::from_vec(vec![in alloc; Write { key: 7, value }]?),
    }))
}

fn three_sums(alloc: Global) -> Result<Folded, Fail> {
    let a = sum(alloc, 1)?;
    let b = sum(alloc, 2)?;
    let c = sum(alloc, 3)?;
    let entries = vec![in alloc; a, b, c]?;
    let shape = Shape {
        group: 1,
        window: 1,
        cap: 8,
        version: 1,
        horizon: None,
    };
    let folded = plain_fold(alloc, &entries, shape);
    drop(entries);
    Ok(folded?)
}

// Whether the first sum commits, the others clash with it, and its row alone is left.
fn is_wanted(folded: &Folded) -> bool {
    let first = Clash { key: 7, by: 1 };
    let wanted = [
        Some(Verdict::Commit),
        Some(Verdict::Final(first)),
        Some(Verdict::Pre(first)),
    ];
    folded.verdicts.as_slice() == wanted.as_slice() && folded.rows.len() == 1
}

#[test]
fn later_sums_abort(rt: HostRuntime) -> Result<(), Fail> {
    let folded = three_sums(rt.alloc())?;
    assert!(rt; is_wanted(&folded));
    drop(folded);
    Ok(())
}
