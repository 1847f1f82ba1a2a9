// Links where darts have other names after an edit: those of an edge that is split, and any others.
ghost use Rattle.std.specs.Prelude.{◌≡◌, ◌++◌, OnOk};
ghost use Rattle.topo_base.specs.Darts.{same_dart};
ghost use Rattle.topo_base.specs.declared.ids.Dart.{Dart as DartValue};
ghost use Rattle.drawing.specs.Places.{rows_of};
ghost use Rattle.edge_links.specs.Links.{row_dart};
ghost use Rattle.edge_split.specs.Renamed.{renamed};
ghost use Rattle.edge_split.specs.Relinks.{all_relinks, relink, relinks};

use topo_base::{
    Dart, EdgeId, EdgeRow, Hand, Memory, NodeId, RowDart, RowId, RowWrite, is_same_dart,
};
use topo_tables::Writes;

/// An edge that is split at a node, and the edges that are its parts. The first part may be the edge.
#[derive(Clone, Copy)]
pub struct Parts {
    pub edge: EdgeId,
    pub node: NodeId,
    pub first: EdgeId,
    pub second: EdgeId,
}

/// A dart by its name after the split: one of the edge, which leaves one of its nodes, is that of the
/// part there.
pub fn renamed(parts: &Parts, dart: &Dart) -> Dart
    ensures { result ≡ renamed parts.now.edge parts.now.first parts.now.second dart.now }
{
    if dart.edge.0 != parts.edge.0 {
        return *dart;
    }
    let forward = dart.forward;
    let edge = if forward { parts.first } else { parts.second };
    Dart { edge, forward }
}

/// A dart as a row write names it, by the id that its edge has.
pub fn row_dart(dart: &Dart) -> RowDart
    ensures { result ≡ row_dart dart.now }
{
    RowDart {
        edge: RowId::Old(dart.edge.0),
        forward: dart.forward,
    }
}

/// Names of darts after an edit, where edges come in the place of others.
pub trait Names {
    ghost named: { Self → DartValue → DartValue };

    /// A dart by its name after the edit.
    fn renamed(&self, dart: &Dart) -> Dart
        ensures { result ≡ named self.now dart.now };
}

impl Names for Parts {
    ghost named = { λ parts d. renamed parts.edge parts.first parts.second d };

    fn renamed(&self, dart: &Dart) -> Dart {
        renamed(self, dart)
    }
}

/// Sets a link of an edge anew, if it names a dart that has another name after the edit.
fn relink<N: Names>(
    writes: &mut Writes,
    names: &N,
    edge: EdgeId,
    hand: Hand,
    next: &Dart,
) -> Result<(), Memory>
    ensures { OnOk result (writes.new ≡ writes.old ++ relink (N.named names.now) edge hand next.now) }
{
    let new = names.renamed(next);
    if is_same_dart(&new, next) {
        return Ok(());
    }
    writes.push(RowWrite::SetNext {
        edge: RowId::Old(edge.0),
        hand,
        next: row_dart(&new),
    })
}

/// Sets both links of an edge anew, where they name such darts.
fn relink_row<N: Names>(writes: &mut Writes, names: &N, row: &EdgeRow) -> Result<(), Memory>
    ensures { OnOk result (writes.new ≡ writes.old ++ relinks (N.named names.now) row.now) }
{
    relink(writes, names, row.edge_id, Hand::Left, &row.next_left_edge)?;
    relink(
        writes,
        names,
        row.edge_id,
        Hand::Right,
        &row.next_right_edge,
    )
}

/// Puts row writes behind others that set the links of the edges at these places anew, each that names a
/// dart which has another name after the edit. The only error is want of memory.
pub fn relink_rows<N: Names>(
    writes: &mut Writes,
    names: &N,
    slots: &[Option<EdgeRow>],
) -> Result<(), Memory>
    ensures { OnOk result (writes.new ≡ writes.old ++ all_relinks (N.named names.now) (rows_of slots.now)) }
{
    for slot in slots {
        if let Some(row) = slot {
            relink_row(writes, names, row)?;
        }
    }
    Ok(())
}
