ghost use Rattle.std.specs.Prelude.{◌≡◌, ℕ, ◌<◌, ◌≢◌, None, Some, Bool, IsTrue, IfOk, OnOk, Option};
ghost use Rattle.std.specs.Option.{option_copied};

use std::alloc::Global;
use topo_base::Memory;

/// A leaf or a branch: rows at places, which count from 0 within the node, and of which some are open
/// for writing.
pub(crate) trait Node: Drop {
    type Row: Drop;

    ghost capacity: { ℕ };

    ghost row_at: { Self → ℕ → Option Self.Row };

    ghost is_open: { Self → ℕ → Bool };

    /// How many places it has where it isn't the uppermost, which may have more.
    fn capacity() -> usize
        ensures { result ≡ capacity };

    /// No rows. Takes no memory.
    fn empty(alloc: Global) -> Self
        ensures { (k : ℕ) → row_at result k ≡ None };

    /// The row at a place.
    fn get(&self, place: usize) -> Option<&Self::Row>
        ensures { option_copied result ≡ row_at self.now place };

    /// Opens a place, and copies what is shared on the way to it.
    fn open(&mut self, alloc: Global, place: usize) -> Result<(), Memory>
        ensures rows { (k : ℕ) → row_at self.new k ≡ row_at self.old k }
        ensures kept { (k : ℕ) → IsTrue (is_open self.old k) → IsTrue (is_open self.new k) }
        ensures ok { OnOk result (IsTrue (is_open self.new place)) };

    /// Puts a row at an open place. Takes no memory.
    fn put(&mut self, place: usize, row: Self::Row)
        requires { IsTrue (is_open self.old place) }
        ensures here { row_at self.new place ≡ Some row }
        ensures elsewhere { (k : ℕ) → k ≢ place → row_at self.new k ≡ row_at self.old k }
        ensures kept { (k : ℕ) → is_open self.new k ≡ is_open self.old k };

    /// Takes the row from an open place. Takes no memory.
    fn take(&mut self, place: usize) -> Option<Self::Row>
        requires { IsTrue (is_open self.old place) }
        ensures taken { result ≡ row_at self.old place }
        ensures here { row_at self.new place ≡ None }
        ensures elsewhere { (k : ℕ) → k ≢ place → row_at self.new k ≡ row_at self.old k }
        ensures kept { (k : ℕ) → is_open self.new k ≡ is_open self.old k };

    /// Lets copies share all that is below this node. Opens no place.
    fn seal_below(&mut self, alloc: Global) -> Result<(), Memory>
        ensures rows { (k : ℕ) → row_at self.new k ≡ row_at self.old k }
        ensures closed { (k : ℕ) → IsTrue (is_open self.new k) → IsTrue (is_open self.old k) };

    /// The same rows, at places that are open where these are. What is sealed is shared, and what is
    /// open is copied.
    fn copy(&self, alloc: Global) -> Result<Self, Memory>
        ensures rows { IfOk result (λ n. (k : ℕ) → row_at n k ≡ row_at self.now k) }
        ensures kept { IfOk result (λ n. (k : ℕ) → is_open n k ≡ is_open self.now k) };

    ghost is_positive: { 0 < capacity };
}
