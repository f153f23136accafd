//! What stands beside a trie.

/// What a manifest says beside its trie: the log area in use, 0 or 1, the number of extents, and how
/// many writes were accepted before the log's first.
#[derive(Clone, Copy, Debug, PartialEq, Eq)]
pub struct Header {
    pub log_area: u8,
    pub extents: u32,
    pub writes: u64,
}
