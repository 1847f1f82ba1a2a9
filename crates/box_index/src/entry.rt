ghost use Rattle.std.specs.Prelude.{◌≡◌, ◌↔◌, IsTrue};

use topo_base::Box4;

/// An id and its box.
#[derive(Clone, Copy, Debug, PartialEq, Eq)]
pub struct Entry {
    pub id: u32,
    pub bounds: Box4,
}

/// Whether two entries are one: both the id and the box.
pub(crate) fn is_same_entry(first: &Entry, second: &Entry) -> bool
    ensures { IsTrue result ↔ (first.now ≡ second.now) }
{
    *first == *second
}
