//! How much there was at a sync.

/// So many bytes, ranges of writes, and bytes that these were over.
#[derive(Clone, Copy)]
pub struct SyncMark {
    pub bytes: usize,
    pub ranges: usize,
    pub covered: usize,
}
