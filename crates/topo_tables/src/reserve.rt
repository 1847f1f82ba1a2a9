// Room for the rows that writes add.
ghost use Rattle.std.specs.Prelude.{◌≡◌, OnOk};
ghost use Rattle.std.specs.List.{count_by};
ghost use Rattle.topo_tables.specs.Room.{HasRoom, IsKept, adds_node, adds_edge, adds_face, adds_layer, adds_feature, adds_relation};

use crate::tables::Tables;
use crate::writes::Writes;
use topo_base::{Memory, RowWrite};

fn adds_node(one: &RowWrite) -> bool
    ensures { result ≡ adds_node one.now }
{
    matches!(one, RowWrite::AddNode { .. })
}

fn nodes_added(writes: &[RowWrite]) -> usize
    ensures { result ≡ count_by adds_node writes.now }
{
    writes.iter().filter(|one| adds_node(one)).count()
}

fn adds_edge(one: &RowWrite) -> bool
    ensures { result ≡ adds_edge one.now }
{
    matches!(one, RowWrite::AddEdge { .. })
}

fn edges_added(writes: &[RowWrite]) -> usize
    ensures { result ≡ count_by adds_edge writes.now }
{
    writes.iter().filter(|one| adds_edge(one)).count()
}

fn adds_face(one: &RowWrite) -> bool
    ensures { result ≡ adds_face one.now }
{
    matches!(one, RowWrite::AddFace { .. })
}

fn faces_added(writes: &[RowWrite]) -> usize
    ensures { result ≡ count_by adds_face writes.now }
{
    writes.iter().filter(|one| adds_face(one)).count()
}

fn adds_layer(one: &RowWrite) -> bool
    ensures { result ≡ adds_layer one.now }
{
    matches!(one, RowWrite::AddLayer { .. })
}

fn layers_added(writes: &[RowWrite]) -> usize
    ensures { result ≡ count_by adds_layer writes.now }
{
    writes.iter().filter(|one| adds_layer(one)).count()
}

fn adds_feature(one: &RowWrite) -> bool
    ensures { result ≡ adds_feature one.now }
{
    matches!(one, RowWrite::AddFeature { .. })
}

fn features_added(writes: &[RowWrite]) -> usize
    ensures { result ≡ count_by adds_feature writes.now }
{
    writes.iter().filter(|one| adds_feature(one)).count()
}

fn adds_relation(one: &RowWrite) -> bool
    ensures { result ≡ adds_relation one.now }
{
    matches!(one, RowWrite::AddRow { .. })
}

fn relations_added(writes: &[RowWrite]) -> usize
    ensures { result ≡ count_by adds_relation writes.now }
{
    writes.iter().filter(|one| adds_relation(one)).count()
}

impl Tables {
    /// Makes room for the rows that these writes add: after Ok they take no memory. The rows stay as
    /// they are in any case.
    pub fn reserve(&mut self, writes: &Writes) -> Result<(), Memory>
        ensures rows { self.new.rows ≡ self.old.rows }
        ensures kept { IsKept self.old.room self.new.room }
        ensures ok { OnOk result (HasRoom self.new.room writes.now) }
    {
        let writes = writes.as_slice();
        self.nodes.reserve(nodes_added(writes))?;
        self.edges.reserve(edges_added(writes))?;
        self.faces.reserve(faces_added(writes))?;
        self.layers.reserve(layers_added(writes))?;
        self.features.reserve(features_added(writes))?;
        self.relations.reserve(relations_added(writes))?;
        Ok(())
    }
}
