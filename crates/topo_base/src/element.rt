ghost use Rattle.std.specs.Prelude.{◌≡◌, ◌<◌, ◌≤◌, [], ◌∷◌, ◌++◌, length};

use crate::{EdgeId, FaceId, FeatureId, LayerId, NodeId};
use std::marker::Model;

/// What an edit reads, makes or names: the drawing as a whole, or a row of one of the tables.
#[derive(Clone, Copy, Debug, PartialEq, Eq)]
pub enum Element {
    Drawing,
    Node(NodeId),
    Edge(EdgeId),
    Face(FaceId),
    Layer(LayerId),
    Feature(FeatureId),
}

/// At most three elements, as a reply names them. It takes no memory.
#[derive(Debug, Drop)]
pub struct Ids {
    slots: [Element; 3],
    count: usize,
}

impl Model for Ids {
    ghost use Rattle.std.specs.Prelude.{List, take, ◌≤◌};
    ghost use Rattle.topo_base.specs.declared.element.Element.{Element};

    ghost Value = { List Element };

    ghost view = { λ s. take s.count s.slots };

    ghost invariant = { λ s. s.count ≤ 3 };
}

impl Ids {
    pub fn new() -> Ids
        ensures { result ≡ [] }
    {
        Ids {
            slots: [Element::Drawing; 3],
            count: 0,
        }
    }

    /// Puts an element behind the others.
    pub fn push(&mut self, element: Element)
        requires { length self.old < 3 }
        ensures { self.new ≡ self.old ++ element ∷ [] }
    {
        self.slots[self.count] = element;
        self.count += 1;
    }

    pub fn as_slice(&self) -> &[Element]
        ensures elements { result.now ≡ self.now }
        ensures few { length self.now ≤ 3 }
    {
        &self.slots[..self.count]
    }
}
