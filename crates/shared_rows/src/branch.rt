ghost use Rattle.std.specs.Prelude.{◌≡◌, ℕ, ◌*◌, ◌/◌, ◌%◌, ◌^◌, ◌-◌, ◌<◌, IfOk, OnOk, length, min, slice_get, vec_len};
ghost use Rattle.shared_rows.specs.Children.{row_in, open_in};
ghost use Rattle.shared_rows.specs.Places.{row_below, open_below, SameBelow, OpenBelow};
ghost use Rattle.shared_rows.specs.Capacity.{capacity_positive};

use crate::child::Child;
use crate::node::Node;
use std::alloc::Global;
use topo_base::Memory;

/// The rows of 64 children, one behind the other.
#[derive(Drop)]
pub(crate) struct Branch<N: Drop> {
    children: Vec<Child<N>>,
}

/// Makes children up to an index.
fn add_children<N: Node>(children: &mut Vec<Child<N>>, index: usize) -> Result<(), Memory>
    ensures rows { SameBelow (row_below (row_in N.row_at)) children.new.items children.old.items }
    ensures kept { OpenBelow (open_in N.is_open) children.old.items children.new.items }
    ensures ok { OnOk result (index < vec_len children.new) }
{
    while children.len() <= index {
        children.push(Child::empty())?;
    }
    Ok(())
}

fn seal_children<N: Node>(alloc: Global, children: &mut [Child<N>]) -> Result<(), Memory>
    ensures rows { SameBelow (row_below (row_in N.row_at)) children.new children.old }
    ensures closed { OpenBelow (open_in N.is_open) children.new children.old }
{
    for child in children.iter_mut() {
        child.seal(alloc)?;
    }
    Ok(())
}

fn copy_children<N: Node>(alloc: Global, children: &[Child<N>]) -> Result<Vec<Child<N>>, Memory>
    ensures rows { IfOk result (λ v. SameBelow (row_below (row_in N.row_at)) v.items children.now) }
    ensures kept { IfOk result (λ v. SameBelow (open_below (open_in N.is_open)) v.items children.now) }
{
    let mut copy = Vec::with_capacity(alloc, children.len())?;
    for child in children {
        copy.push(child.copy(alloc)?)?;
    }
    Ok(copy)
}

impl<N: Node> Node for Branch<N> {
    type Row = N::Row;

    ghost capacity = { min (N.capacity * 64) (2 ^ 64 - 1) };

    ghost row_at = { λ b k. row_below (row_in N.row_at) (slice_get b.children.items (k / N.capacity)) (k % N.capacity) };

    ghost is_open = { λ b k. open_below (open_in N.is_open) (slice_get b.children.items (k / N.capacity)) (k % N.capacity) };

    fn capacity() -> usize {
        N::capacity().saturating_mul(64)
    }

    fn empty(alloc: Global) -> Self {
        Branch {
            children: Vec::new(alloc),
        }
    }

    fn get(&self, place: usize) -> Option<&Self::Row> {
        let width = N::capacity();
        match self.children.get(place / width) {
            None => None,
            Some(child) => child.get(place % width),
        }
    }

    fn open(&mut self, alloc: Global, place: usize) -> Result<(), Memory> {
        let width = N::capacity();
        add_children(&mut self.children, place / width)?;
        self.children[place / width].open(alloc, place % width)
    }

    fn put(&mut self, place: usize, row: Self::Row) {
        let width = N::capacity();
        self.children[place / width].put(place % width, row);
    }

    fn take(&mut self, place: usize) -> Option<Self::Row> {
        let width = N::capacity();
        self.children[place / width].take(place % width)
    }

    fn seal_below(&mut self, alloc: Global) -> Result<(), Memory> {
        seal_children(alloc, &mut self.children)
    }

    fn copy(&self, alloc: Global) -> Result<Self, Memory> {
        Ok(Branch {
            children: copy_children(alloc, &self.children)?,
        })
    }

    ghost is_positive = { capacity_positive N.capacity N.is_positive };
}
