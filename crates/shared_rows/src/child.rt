ghost use Rattle.std.specs.Prelude.{◌≡◌, ◌≢◌, ℕ, Some, None, false, IsTrue, IfOk, IfErr, OnOk, MatchResult};
ghost use Rattle.std.specs.Arc.{arc_value};
ghost use Rattle.std.specs.Option.{option_copied};
ghost use Rattle.shared_rows.specs.Children.{row_in, open_in};

use crate::node::Node;
use std::alloc::Global;
use std::mem;
use std::sync::Arc;
use topo_base::Memory;

/// A node that isn't there yet, one that this table alone has, or one that other tables may share. What
/// is shared is never written.
#[derive(Drop)]
pub(crate) enum Child<N: Drop> {
    Empty,
    Owned(N),
    Shared(Arc<N>),
}

/// The node out of its counted pointer where no other table has it, and else a copy. If memory runs
/// out, the pointer comes back.
fn unshare<N: Node>(alloc: Global, shared: Arc<N>) -> Result<N, Arc<N>>
    ensures ok { IfOk result (λ n. (k : ℕ) → N.row_at n k ≡ N.row_at (arc_value shared) k) }
    ensures err { IfErr result (λ a. a ≡ shared) }
{
    match Arc::try_unwrap(shared) {
        Ok(node) => Ok(node),
        Err(shared) => match shared.copy(alloc) {
            Ok(node) => Ok(node),
            Err(_) => Err(shared),
        },
    }
}

/// A node that this table alone has. If memory runs out, the child comes back.
#[tactic(auto, unfolding(crate::specs::Children::row_in, crate::specs::Children::open_in))]
fn own<N: Node>(alloc: Global, child: Child<N>) -> Result<N, Child<N>>
    ensures rows { IfOk result (λ n. (k : ℕ) → N.row_at n k ≡ row_in N.row_at child k) }
    ensures kept { IfOk result (λ n. (k : ℕ) → IsTrue (open_in N.is_open child k) → IsTrue (N.is_open n k)) }
    ensures err { IfErr result (λ c. c ≡ child) }
{
    match child {
        Child::Empty => Ok(N::empty(alloc)),
        Child::Owned(node) => Ok(node),
        Child::Shared(shared) => match unshare(alloc, shared) {
            Ok(node) => Ok(node),
            Err(shared) => Err(Child::Shared(shared)),
        },
    }
}

/// The node behind a counted pointer, with all below it sealed. If memory runs out, it comes back with
/// the same rows, and no more of it is open.
fn share<N: Node>(alloc: Global, mut node: N) -> Result<Arc<N>, N>
    ensures ok { IfOk result (λ a. (k : ℕ) → N.row_at (arc_value a) k ≡ N.row_at node k) }
    ensures rows { IfErr result (λ n. (k : ℕ) → N.row_at n k ≡ N.row_at node k) }
    ensures closed { IfErr result (λ n. (k : ℕ) → IsTrue (N.is_open n k) → IsTrue (N.is_open node k)) }
{
    match node.seal_below(alloc) {
        Err(_) => Err(node),
        Ok(()) => match Arc::new(alloc, node) {
            Ok(shared) => Ok(shared),
            Err(failed) => Err(failed.value),
        },
    }
}

impl<N: Node> Child<N> {
    /// No rows. Takes no memory.
    #[tactic(auto, unfolding(crate::specs::Children::row_in, crate::specs::Children::open_in))]
    pub(crate) fn empty() -> Child<N>
        ensures { (k : ℕ) → row_in N.row_at result k ≡ None }
    {
        Child::Empty
    }

    /// The row at a place.
    #[tactic(auto, unfolding(crate::specs::Children::row_in, crate::specs::Children::open_in))]
    pub(crate) fn get(&self, place: usize) -> Option<&N::Row>
        ensures { option_copied result ≡ row_in N.row_at self.now place }
    {
        match self {
            Child::Empty => None,
            Child::Owned(node) => node.get(place),
            Child::Shared(shared) => (**shared).get(place),
        }
    }

    /// Opens a place, and copies what is shared on the way to it.
    #[tactic(auto, unfolding(crate::specs::Children::row_in, crate::specs::Children::open_in))]
    pub(crate) fn open(&mut self, alloc: Global, place: usize) -> Result<(), Memory>
        ensures rows { (k : ℕ) → row_in N.row_at self.new k ≡ row_in N.row_at self.old k }
        ensures kept { (k : ℕ) → IsTrue (open_in N.is_open self.old k) → IsTrue (open_in N.is_open self.new k) }
        ensures ok { OnOk result (IsTrue (open_in N.is_open self.new place)) }
    {
        match own(alloc, mem::replace(self, Child::Empty)) {
            Err(child) => {
                *self = child;
                Err(Memory)
            }
            Ok(mut node) => {
                let done = node.open(alloc, place);
                *self = Child::Owned(node);
                done
            }
        }
    }

    /// Puts a row at an open place. Takes no memory.
    #[tactic(auto, unfolding(crate::specs::Children::row_in, crate::specs::Children::open_in))]
    pub(crate) fn put(&mut self, place: usize, row: N::Row)
        requires { IsTrue (open_in N.is_open self.old place) }
        ensures here { row_in N.row_at self.new place ≡ Some row }
        ensures elsewhere { (k : ℕ) → k ≢ place → row_in N.row_at self.new k ≡ row_in N.row_at self.old k }
        ensures kept { (k : ℕ) → open_in N.is_open self.new k ≡ open_in N.is_open self.old k }
    {
        match self {
            Child::Owned(node) => node.put(place, row),
            _ => unreachable!(),
        }
    }

    /// Takes the row from an open place. Takes no memory.
    #[tactic(auto, unfolding(crate::specs::Children::row_in, crate::specs::Children::open_in))]
    pub(crate) fn take(&mut self, place: usize) -> Option<N::Row>
        requires { IsTrue (open_in N.is_open self.old place) }
        ensures taken { result ≡ row_in N.row_at self.old place }
        ensures here { row_in N.row_at self.new place ≡ None }
        ensures elsewhere { (k : ℕ) → k ≢ place → row_in N.row_at self.new k ≡ row_in N.row_at self.old k }
        ensures kept { (k : ℕ) → open_in N.is_open self.new k ≡ open_in N.is_open self.old k }
    {
        match self {
            Child::Owned(node) => node.take(place),
            _ => unreachable!(),
        }
    }

    /// Lets copies share all of it, so that a copy is one counted pointer. No place is open then.
    #[tactic(auto, unfolding(crate::specs::Children::row_in, crate::specs::Children::open_in))]
    pub(crate) fn seal(&mut self, alloc: Global) -> Result<(), Memory>
        ensures rows { (k : ℕ) → row_in N.row_at self.new k ≡ row_in N.row_at self.old k }
        ensures closed { (k : ℕ) → IsTrue (open_in N.is_open self.new k) → IsTrue (open_in N.is_open self.old k) }
        ensures ok { OnOk result ((k : ℕ) → open_in N.is_open self.new k ≡ false) }
    {
        match mem::replace(self, Child::Empty) {
            Child::Owned(node) => match share(alloc, node) {
                Ok(shared) => {
                    *self = Child::Shared(shared);
                    Ok(())
                }
                Err(node) => {
                    *self = Child::Owned(node);
                    Err(Memory)
                }
            },
            child => {
                *self = child;
                Ok(())
            }
        }
    }

    /// The same rows, at places that are open where these are. What is sealed is shared, and what is
    /// open is copied.
    #[tactic(auto, unfolding(crate::specs::Children::row_in, crate::specs::Children::open_in))]
    pub(crate) fn copy(&self, alloc: Global) -> Result<Child<N>, Memory>
        ensures rows { IfOk result (λ c. (k : ℕ) → row_in N.row_at c k ≡ row_in N.row_at self.now k) }
        ensures kept { IfOk result (λ c. (k : ℕ) → open_in N.is_open c k ≡ open_in N.is_open self.now k) }
    {
        match self {
            Child::Empty => Ok(Child::Empty),
            Child::Owned(node) => Ok(Child::Owned(node.copy(alloc)?)),
            Child::Shared(shared) => Ok(Child::Shared(Arc::try_clone(shared)?)),
        }
    }
}
