use ddt_entry::Key;

/// How the dedup table knows a pointer.
#[derive(Clone, Copy, Debug, PartialEq, Eq)]
pub enum Standing {
    /// Not at all.
    Plain,
    /// As one that it counts.
    Tracked,
    /// No more.
    Loose,
}

/// A pointer as the statistics see it.
#[derive(Clone, Copy, Debug, PartialEq, Eq)]
pub struct Reference {
    /// The key of its content, with the content's length in bytes.
    pub key: Key,
    pub standing: Standing,
}
