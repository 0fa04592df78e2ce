//! Entries that several tests take.
use hy_base::{Entry, Intention, Isolation, Items, Key, Points, Pos, Spans, Value, Write};
use std::alloc::{AllocError, Global};

/// The value `a`.
pub fn letter(alloc: Global) -> Result<Option<Value>, AllocError> {
    Ok(Value::new(vec![in alloc; b'a']?).ok())
}

/// A serializable transaction of client 1 on server 1 that writes one key, and has read nothing.
pub fn one_write(
    alloc: Global,
    snap: Pos,
    key: Key,
    value: Option<Value>,
) -> Result<Entry, AllocError> {
    Ok(Entry::transaction(Intention {
        server: 1,
        client: 1,
        isolation: Isolation::Serializable,
        snap,
        points: Points::new(alloc),
        spans: Spans::new(alloc),
        writes: Items::from_vec(vec![in alloc; Write { key, value }]?),
    }))
}
