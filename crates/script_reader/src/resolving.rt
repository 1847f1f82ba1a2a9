ghost use Rattle.std.specs.Prelude.{◌≡◌, Some, None, IfOk, IfErr, OnErr, IsErrOf};
ghost use Rattle.script_model.specs.Bindings.{id_of, pair_of, pairs_of, resolve};
ghost use Rattle.script_reader.specs.Bindings.{names_of, IsResolved};

use crate::{Bindings, ResolveEnd};
use std::alloc::Global;
use topo_base::{
    EdgeId, Edit, FaceId, FeatureId, Grid, IdWord, Kind, LayerId, Line, Name, NamedEdit, NamedPair,
    NamedPairList, NodeId, Pair, PairList,
};

impl Bindings {
    /// The edit that a line gives with these bindings. `Unbound`: a name that it uses isn't bound.
    pub fn resolve(&self, alloc: Global, edit: &NamedEdit) -> Result<Edit, ResolveEnd>
        ensures edit { IfOk result (λ e. resolve (names_of self.now) edit.now ≡ Some e) }
        ensures unbound { IsErrOf result ResolveEnd.Unbound → resolve (names_of self.now) edit.now ≡ None }
    {
        match edit {
            NamedEdit::AddIsoNode { face, geom } => self.add_iso_node(face, *geom),
            NamedEdit::MoveIsoNode { node, geom } => self.move_iso_node(node, *geom),
            NamedEdit::RemoveIsoNode { node } => self.remove_iso_node(node),
            NamedEdit::AddIsoEdge { start, end, line } => self.add_iso_edge(
                alloc, start, end, line,
            ),
            NamedEdit::RemoveIsoEdge { edge } => self.remove_iso_edge(edge),
            NamedEdit::AddEdgeModFace { start, end, line } => {
                self.add_edge_mod_face(alloc, start, end, line)
            }
            NamedEdit::AddEdgeNewFaces { start, end, line } => {
                self.add_edge_new_faces(alloc, start, end, line)
            }
            NamedEdit::RemEdgeModFace { edge } => self.rem_edge_mod_face(edge),
            NamedEdit::RemEdgeNewFace { edge } => self.rem_edge_new_face(edge),
            NamedEdit::ModEdgeSplit { edge, geom } => self.mod_edge_split(edge, *geom),
            NamedEdit::NewEdgesSplit { edge, geom } => self.new_edges_split(edge, *geom),
            NamedEdit::ModEdgeHeal { edge, other } => self.mod_edge_heal(edge, other),
            NamedEdit::NewEdgeHeal { edge, other } => self.new_edge_heal(edge, other),
            NamedEdit::AddLayer { name, kind, child } => self.add_layer(alloc, name, *kind, child),
            NamedEdit::CreateTopoGeom { layer, elements } => {
                self.create_topo_geom(alloc, layer, elements)
            }
            NamedEdit::AddElement {
                feature,
                id,
                element_type,
            } => { self.add_element(feature, id, element_type) }
            NamedEdit::RemElement {
                feature,
                id,
                element_type,
            } => { self.rem_element(feature, id, element_type) }
            NamedEdit::DropFeature { feature } => self.drop_feature(feature),
        }
    }

    // One function for each kind of edit, each with the ids for the edit's words.

    fn add_iso_node(&self, face: &Option<IdWord>, geom: Grid) -> Result<Edit, ResolveEnd>
        ensures { IsResolved (names_of self.now) (NamedEdit.AddIsoNode face.now geom) result }
    {
        let face = match face {
            Some(word) => Some(FaceId(self.id(word)?)),
            None => None,
        };
        Ok(Edit::AddIsoNode { face, geom })
    }

    fn move_iso_node(&self, node: &IdWord, geom: Grid) -> Result<Edit, ResolveEnd>
        ensures { IsResolved (names_of self.now) (NamedEdit.MoveIsoNode node.now geom) result }
    {
        let node = NodeId(self.id(node)?);
        Ok(Edit::MoveIsoNode { node, geom })
    }

    fn remove_iso_node(&self, node: &IdWord) -> Result<Edit, ResolveEnd>
        ensures { IsResolved (names_of self.now) (NamedEdit.RemoveIsoNode node.now) result }
    {
        let node = NodeId(self.id(node)?);
        Ok(Edit::RemoveIsoNode { node })
    }

    fn add_iso_edge(
        &self,
        alloc: Global,
        start: &IdWord,
        end: &IdWord,
        line: &Line,
    ) -> Result<Edit, ResolveEnd>
        ensures { IsResolved (names_of self.now) (NamedEdit.AddIsoEdge start.now end.now line.now) result }
    {
        let start = NodeId(self.id(start)?);
        let end = NodeId(self.id(end)?);
        let line = line.copy(alloc)?;
        Ok(Edit::AddIsoEdge { start, end, line })
    }

    fn remove_iso_edge(&self, edge: &IdWord) -> Result<Edit, ResolveEnd>
        ensures { IsResolved (names_of self.now) (NamedEdit.RemoveIsoEdge edge.now) result }
    {
        let edge = EdgeId(self.id(edge)?);
        Ok(Edit::RemoveIsoEdge { edge })
    }

    fn add_edge_mod_face(
        &self,
        alloc: Global,
        start: &IdWord,
        end: &IdWord,
        line: &Line,
    ) -> Result<Edit, ResolveEnd>
        ensures { IsResolved (names_of self.now) (NamedEdit.AddEdgeModFace start.now end.now line.now) result }
    {
        let start = NodeId(self.id(start)?);
        let end = NodeId(self.id(end)?);
        let line = line.copy(alloc)?;
        Ok(Edit::AddEdgeModFace { start, end, line })
    }

    fn add_edge_new_faces(
        &self,
        alloc: Global,
        start: &IdWord,
        end: &IdWord,
        line: &Line,
    ) -> Result<Edit, ResolveEnd>
        ensures { IsResolved (names_of self.now) (NamedEdit.AddEdgeNewFaces start.now end.now line.now) result }
    {
        let start = NodeId(self.id(start)?);
        let end = NodeId(self.id(end)?);
        let line = line.copy(alloc)?;
        Ok(Edit::AddEdgeNewFaces { start, end, line })
    }

    fn rem_edge_mod_face(&self, edge: &IdWord) -> Result<Edit, ResolveEnd>
        ensures { IsResolved (names_of self.now) (NamedEdit.RemEdgeModFace edge.now) result }
    {
        let edge = EdgeId(self.id(edge)?);
        Ok(Edit::RemEdgeModFace { edge })
    }

    fn rem_edge_new_face(&self, edge: &IdWord) -> Result<Edit, ResolveEnd>
        ensures { IsResolved (names_of self.now) (NamedEdit.RemEdgeNewFace edge.now) result }
    {
        let edge = EdgeId(self.id(edge)?);
        Ok(Edit::RemEdgeNewFace { edge })
    }

    fn mod_edge_split(&self, edge: &IdWord, geom: Grid) -> Result<Edit, ResolveEnd>
        ensures { IsResolved (names_of self.now) (NamedEdit.ModEdgeSplit edge.now geom) result }
    {
        let edge = EdgeId(self.id(edge)?);
        Ok(Edit::ModEdgeSplit { edge, geom })
    }

    fn new_edges_split(&self, edge: &IdWord, geom: Grid) -> Result<Edit, ResolveEnd>
        ensures { IsResolved (names_of self.now) (NamedEdit.NewEdgesSplit edge.now geom) result }
    {
        let edge = EdgeId(self.id(edge)?);
        Ok(Edit::NewEdgesSplit { edge, geom })
    }

    fn mod_edge_heal(&self, edge: &IdWord, other: &IdWord) -> Result<Edit, ResolveEnd>
        ensures { IsResolved (names_of self.now) (NamedEdit.ModEdgeHeal edge.now other.now) result }
    {
        let edge = EdgeId(self.id(edge)?);
        let other = EdgeId(self.id(other)?);
        Ok(Edit::ModEdgeHeal { edge, other })
    }

    fn new_edge_heal(&self, edge: &IdWord, other: &IdWord) -> Result<Edit, ResolveEnd>
        ensures { IsResolved (names_of self.now) (NamedEdit.NewEdgeHeal edge.now other.now) result }
    {
        let edge = EdgeId(self.id(edge)?);
        let other = EdgeId(self.id(other)?);
        Ok(Edit::NewEdgeHeal { edge, other })
    }

    fn add_layer(
        &self,
        alloc: Global,
        name: &Name,
        kind: Kind,
        child: &Option<IdWord>,
    ) -> Result<Edit, ResolveEnd>
        ensures { IsResolved (names_of self.now) (NamedEdit.AddLayer name.now kind child.now) result }
    {
        let child = match child {
            Some(word) => Some(LayerId(self.id(word)?)),
            None => None,
        };
        let name = name.copy(alloc)?;
        Ok(Edit::AddLayer { name, kind, child })
    }

    fn create_topo_geom(
        &self,
        alloc: Global,
        layer: &IdWord,
        elements: &NamedPairList,
    ) -> Result<Edit, ResolveEnd>
        ensures { IsResolved (names_of self.now) (NamedEdit.CreateTopoGeom layer.now elements.now) result }
    {
        let layer = LayerId(self.id(layer)?);
        let elements = self.pairs(alloc, elements)?;
        Ok(Edit::CreateTopoGeom { layer, elements })
    }

    fn add_element(
        &self,
        feature: &IdWord,
        id: &IdWord,
        element_type: &IdWord,
    ) -> Result<Edit, ResolveEnd>
        ensures { IsResolved (names_of self.now) (NamedEdit.AddElement feature.now id.now element_type.now) result }
    {
        let feature = FeatureId(self.id(feature)?);
        let id = self.id(id)?;
        let element_type = self.id(element_type)?;
        Ok(Edit::AddElement {
            feature,
            id,
            element_type,
        })
    }

    fn rem_element(
        &self,
        feature: &IdWord,
        id: &IdWord,
        element_type: &IdWord,
    ) -> Result<Edit, ResolveEnd>
        ensures { IsResolved (names_of self.now) (NamedEdit.RemElement feature.now id.now element_type.now) result }
    {
        let feature = FeatureId(self.id(feature)?);
        let id = self.id(id)?;
        let element_type = self.id(element_type)?;
        Ok(Edit::RemElement {
            feature,
            id,
            element_type,
        })
    }

    fn drop_feature(&self, feature: &IdWord) -> Result<Edit, ResolveEnd>
        ensures { IsResolved (names_of self.now) (NamedEdit.DropFeature feature.now) result }
    {
        let feature = FeatureId(self.id(feature)?);
        Ok(Edit::DropFeature { feature })
    }

    /// The elements of a list.
    fn pairs(&self, alloc: Global, named: &NamedPairList) -> Result<PairList, ResolveEnd>
        ensures pairs { IfOk result (λ l. pairs_of (names_of self.now) named.now ≡ Some l) }
        ensures unbound { IsErrOf result ResolveEnd.Unbound → pairs_of (names_of self.now) named.now ≡ None }
    {
        let named = named.pairs();
        let mut pairs = Vec::with_capacity(alloc, named.len())?;
        for pair in named {
            pairs.push(self.pair(pair)?)?;
        }
        match PairList::of(pairs) {
            Ok(list) => Ok(list),
            Err(_) => unreachable!(),
        }
    }

    /// An element of a list.
    fn pair(&self, named: &NamedPair) -> Result<Pair, ResolveEnd>
        ensures pair { IfOk result (λ p. pair_of (names_of self.now) named.now ≡ Some p) }
        ensures unbound { OnErr result (pair_of (names_of self.now) named.now ≡ None) }
    {
        let id = self.id(&named.id)?;
        let element_type = self.id(&named.element_type)?;
        Ok(Pair { id, element_type })
    }

    /// The id that a word stands for, or `Unbound`.
    fn id(&self, word: &IdWord) -> Result<u32, ResolveEnd>
        ensures id { IfOk result (λ n. id_of (names_of self.now) word.now ≡ Some n) }
        ensures unbound { OnErr result (id_of (names_of self.now) word.now ≡ None) }
        ensures end { IfErr result (λ e. e ≡ ResolveEnd.Unbound) }
    {
        self.id_of(word).ok_or(ResolveEnd::Unbound)
    }
}
