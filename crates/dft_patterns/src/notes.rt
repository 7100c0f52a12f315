/// What a note says of the vectors behind it.
#[derive(Clone, Copy, Debug, PartialEq, Eq)]
pub enum NoteKind {
    /// The set-up vector comes.
    SetUp,
    /// The first shift vector of the pattern with this number comes.
    Pattern(u32),
    /// The last load comes.
    Unload,
}

/// A note before a vector (IEEE 1450-1999 `Ann`).
#[derive(Clone, Copy, Debug, PartialEq, Eq)]
pub struct Note {
    /// The number of the vector, from 0.
    pub before: u32,
    pub what: NoteKind,
}
