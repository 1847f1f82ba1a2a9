// What a seat at the lock's table knows. No value of these types is made: contracts and proofs alone speak of them.

use crate::Setting;
use std::collections::LinkedList;
use topo_base::Entry;

/// How a lock began: the value's setting and history, and how many passes there are.
pub struct Origin {
    pub setting: Setting,
    pub opening: LinkedList<Entry>,
    pub passes: u64,
}

/// A pass's number, its own entries with their places, and the history that it has seen.
pub struct Line {
    pub number: u64,
    pub own: LinkedList<(u64, Entry)>,
    pub seen: LinkedList<Entry>,
}

/// Whether a seat waits for its turn or has it, and with which ticket.
pub enum Stage {
    Idle,
    Waits(u64),
    Holds(u64),
}

/// The view of a seat. A pass has one line. A note has none, and a history that it tells. The seat that makes the
/// passes and the one that closes the lock have the lines of many. A view that another took in is no longer live.
pub struct View {
    pub live: bool,
    pub from: Origin,
    pub stage: Stage,
    pub lines: LinkedList<Line>,
    pub told: LinkedList<Entry>,
    pub count: u64,
    pub faults: u64,
}
