// The changes of rows.
ghost use Rattle.std.specs.Prelude.{◌≡◌, refl};
ghost use Rattle.drawing.specs.Writes.{with_next, with_side};
ghost use Rattle.drawing.proofs.RowLemmas.{next-id, side-id};

use crate::row::Change;
use topo_base::{Box4, Dart, EdgeRow, FaceId, FaceRow, Grid, Hand, Line, NodeId, NodeRow};

/// The containing face of a node.
#[derive(Drop)]
pub struct Containing(pub Option<FaceId>);

impl Change<NodeRow> for Containing {
    ghost changed = { λ c r. record r { containing_face = c.0 } };

    fn make(self, row: &mut NodeRow) {
        row.containing_face = self.0;
    }

    ghost keeps = { λ c r. refl };
}

/// The point of a node.
#[derive(Drop)]
pub struct Point(pub Grid);

impl Change<NodeRow> for Point {
    ghost changed = { λ c r. record r { geom = c.0 } };

    fn make(self, row: &mut NodeRow) {
        row.geom = self.0;
    }

    ghost keeps = { λ c r. refl };
}

/// A link of an edge.
#[derive(Drop)]
pub struct Next {
    pub hand: Hand,
    pub dart: Dart,
}

impl Change<EdgeRow> for Next {
    ghost changed = { λ c r. with_next c.hand c.dart r };

    fn make(self, row: &mut EdgeRow) {
        match self.hand {
            Hand::Left => row.next_left_edge = self.dart,
            Hand::Right => row.next_right_edge = self.dart,
        }
    }

    ghost keeps = { λ c r. next-id c.hand c.dart r };
}

/// A side of an edge.
#[derive(Drop)]
pub struct Side {
    pub hand: Hand,
    pub face: FaceId,
}

impl Change<EdgeRow> for Side {
    ghost changed = { λ c r. with_side c.hand c.face r };

    fn make(self, row: &mut EdgeRow) {
        match self.hand {
            Hand::Left => row.left_face = self.face,
            Hand::Right => row.right_face = self.face,
        }
    }

    ghost keeps = { λ c r. side-id c.hand c.face r };
}

/// The nodes and the line of an edge.
#[derive(Drop)]
pub struct Course {
    pub start: NodeId,
    pub end: NodeId,
    pub line: Line,
}

impl Change<EdgeRow> for Course {
    ghost changed = { λ c r. record r { start_node = c.start; end_node = c.end; geom = c.line } };

    fn make(self, row: &mut EdgeRow) {
        row.start_node = self.start;
        row.end_node = self.end;
        row.geom = self.line;
    }

    ghost keeps = { λ c r. refl };
}

/// The box of a face.
#[derive(Drop)]
pub struct Bounds(pub Option<Box4>);

impl Change<FaceRow> for Bounds {
    ghost changed = { λ c r. record r { mbr = c.0 } };

    fn make(self, row: &mut FaceRow) {
        row.mbr = self.0;
    }

    ghost keeps = { λ c r. refl };
}
