ghost use Rattle.std.specs.Prelude.{◌≡◌, ◌<◌, ◌≤◌, length, OnErr, IfOk, IfErr};

use crate::{Grid, Kind, Line, Name};
use std::marker::Model;

/// An id as a script writes it: a number, or a name that an earlier line bound, written `$name`.
#[derive(Debug, Drop)]
pub enum IdWord {
    Number(u32),
    Bound(Name),
}

/// An element as `createtopogeom` lists it: the words of its id and of its type.
#[derive(Debug, Drop)]
pub struct NamedPair {
    pub id: IdWord,
    pub element_type: IdWord,
}

/// At most 4096 elements, as `createtopogeom` lists them.
#[derive(Debug, Drop)]
pub struct NamedPairList {
    pairs: Vec<NamedPair>,
}

impl Model for NamedPairList {
    ghost use Rattle.std.specs.Prelude.{List, length, ◌≤◌};
    ghost use Rattle.topo_base.specs.declared.named.NamedPair.{NamedPair};

    ghost Value = { List NamedPair };

    ghost view = { λ l. l.pairs.items };

    ghost invariant = { λ l. length l.pairs.items ≤ 4096 };
}

impl NamedPairList {
    /// The list of these pairs, or the pairs where there are more than 4096.
    pub fn of(pairs: Vec<NamedPair>) -> Result<NamedPairList, Vec<NamedPair>>
        ensures list { IfOk result (λ l. l ≡ pairs.items) }
        ensures back { IfErr result (λ v. v ≡ pairs) }
        ensures long { OnErr result (4096 < length pairs.items) }
    {
        if pairs.len() > 4096 {
            Err(pairs)
        } else {
            Ok(NamedPairList { pairs })
        }
    }

    pub fn pairs(&self) -> &[NamedPair]
        ensures pairs { result.now ≡ self.now }
        ensures short { length self.now ≤ 4096 }
    {
        &self.pairs
    }
}

/// One edit of a topology, as a script writes it: a word in place of each id and of each element's
/// type.
#[derive(Debug, Drop)]
pub enum NamedEdit {
    AddIsoNode {
        face: Option<IdWord>,
        geom: Grid,
    },
    MoveIsoNode {
        node: IdWord,
        geom: Grid,
    },
    RemoveIsoNode {
        node: IdWord,
    },
    AddIsoEdge {
        start: IdWord,
        end: IdWord,
        line: Line,
    },
    RemoveIsoEdge {
        edge: IdWord,
    },
    AddEdgeModFace {
        start: IdWord,
        end: IdWord,
        line: Line,
    },
    AddEdgeNewFaces {
        start: IdWord,
        end: IdWord,
        line: Line,
    },
    RemEdgeModFace {
        edge: IdWord,
    },
    RemEdgeNewFace {
        edge: IdWord,
    },
    ModEdgeSplit {
        edge: IdWord,
        geom: Grid,
    },
    NewEdgesSplit {
        edge: IdWord,
        geom: Grid,
    },
    ModEdgeHeal {
        edge: IdWord,
        other: IdWord,
    },
    NewEdgeHeal {
        edge: IdWord,
        other: IdWord,
    },
    AddLayer {
        name: Name,
        kind: Kind,
        child: Option<IdWord>,
    },
    CreateTopoGeom {
        layer: IdWord,
        elements: NamedPairList,
    },
    AddElement {
        feature: IdWord,
        id: IdWord,
        element_type: IdWord,
    },
    RemElement {
        feature: IdWord,
        id: IdWord,
        element_type: IdWord,
    },
    DropFeature {
        feature: IdWord,
    },
}
