use topo_base::Limits;

/// What never changes of a value that keeps a history. The lock compares it for equality, and reads nothing in it.
#[derive(Clone, Copy, Debug, PartialEq, Eq)]
pub struct Setting {
    /// How far ids, journal and source may grow.
    pub limits: Limits,
    /// The disk's count of faults when the value's journal was begun.
    pub faults: u64,
    /// The moment since which the value's journal states what a crash may leave, as its disk counts moments.
    pub start: u64,
    /// How many entries the history had at the beginning.
    pub length: u64,
}
