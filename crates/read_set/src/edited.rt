// What a planner answers of an edit, before the plan is made.
ghost use Rattle.std.specs.Prelude.{◌≡◌, ◌∷◌, [], IfOk, Ok};
ghost use Rattle.drawing.specs.Drawing.{Drawing};
ghost use Rattle.drawing.specs.Outcome.{Accepted, Outcome};
ghost use Rattle.read_set.specs.Edited.{IsTried};
ghost use Rattle.read_set.specs.Plans.{AreWritesOf};

use crate::draft::Draft;
use std::alloc::Global;
use topo_base::{Element, Ids, Memory, RowWrite};
use topo_tables::Writes;

/// The row writes by which tables follow an edit, in order, and what its reply names.
#[derive(Drop)]
pub struct Edited {
    pub writes: Writes,
    pub ids: Ids,
}

/// The ids of a reply that names one element.
pub fn one_id(element: Element) -> Ids
    ensures { result ≡ element ∷ [] }
{
    let mut ids = Ids::new();
    ids.push(element);
    ids
}

impl Edited {
    /// One row write, and a reply that names one element.
    pub fn by_one(alloc: Global, one: RowWrite, element: Element) -> Result<Edited, Memory>
        ensures writes { IfOk result (λ d. d.writes ≡ one ∷ []) }
        ensures ids { IfOk result (λ d. d.ids ≡ element ∷ []) }
    {
        let mut writes = Writes::new(alloc);
        writes.push(one)?;
        Ok(Edited {
            writes,
            ids: one_id(element),
        })
    }
}

/// The draft on which an edit was tried, and what its reply names.
#[derive(Drop)]
pub struct Tried {
    pub draft: Draft,
    pub ids: Ids,
}

impl Tried {
    /// The draft's writes. Where the draft has the tables of what is done, they are right for it.
    pub fn into_edited(self) -> Edited
        ensures { (S : Drawing) (o : Outcome) (done : Accepted) → o ≡ Ok done → IsTried S done self → AreWritesOf S o result.writes result.ids }
    {
        Edited {
            writes: self.draft.into_writes(),
            ids: self.ids,
        }
    }
}
