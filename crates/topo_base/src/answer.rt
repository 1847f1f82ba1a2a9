use crate::{Element, Ids, Rule};

/// What an edit of an editor is answered. `front` is the number of the entry that was made, or for
/// every other answer the length of the history at which it was given.
#[derive(Debug, Drop)]
pub enum Answer {
    /// The edit was accepted, and made or named these elements.
    Done {
        ids: Ids,
        front: u64,
    },
    /// A rule refuses the edit.
    Refused {
        rule: Rule,
        front: u64,
    },
    /// A name that the edit uses isn't bound.
    Unbound,
    /// An element that the edit was planned on has another stamp now, 0 where it is gone.
    Stale {
        element: Element,
        read: u64,
        now: u64,
        front: u64,
    },
    /// The journal's disk failed.
    DiskFault,
    /// Memory ran out, and nothing was changed.
    Memory,
}
