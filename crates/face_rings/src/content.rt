ghost use Rattle.std.specs.Prelude.{◌≡◌, [], ◌∷◌, ◌++◌, length, IsTrue, OnOk, OnErr};

use crate::places::place_of;
use std::alloc::Global;
use std::marker::Model;
use topo_base::{Dart, EdgeRow, FaceId, Memory};

/// A dart of a border, and the dart that follows it.
#[derive(Clone, Copy, Debug, PartialEq, Eq)]
pub struct BorderDart {
    pub dart: Dart,
    pub next: Dart,
}

/// The border of a face: each dart that has the face on its left, with the dart that follows it.
/// They ascend by edge, forward before backward; an edge that is still to come has the next id, and so
/// its darts come last. Contracts see the list of them.
#[derive(Drop)]
pub struct FaceContent {
    darts: Vec<BorderDart>,
}

impl Model for FaceContent {
    ghost use Rattle.std.specs.Prelude.{List, IsTrue};
    ghost use Rattle.face_rings.specs.declared.content.BorderDart.{BorderDart as BorderDartValue};
    ghost use Rattle.face_rings.specs.Border.{darts_ascend};

    ghost Value = { List BorderDartValue };

    ghost view = { λ c. c.darts.items };

    ghost invariant = { λ c. IsTrue (darts_ascend c.darts.items) };
}

impl FaceContent {
    ghost use Rattle.std.specs.Prelude.{Contains, IfOk, map};
    ghost use Rattle.std.specs.Borrow.{Bor};
    ghost use Rattle.topo_base.specs.declared.rows.EdgeRow.{EdgeRow as EdgeValue};
    ghost use Rattle.face_rings.specs.Border.{darts_ascend, darts_of, next_dart};
    ghost use Rattle.face_rings.specs.RowBorder.{only_if, row_border, rows_border, with_next};

    /// The empty border. Takes no memory.
    pub fn new(alloc: Global) -> FaceContent
        ensures { result ≡ [] }
    {
        FaceContent {
            darts: Vec::new(alloc),
        }
    }

    /// The border of these darts, which ascend.
    pub fn of(darts: Vec<BorderDart>) -> FaceContent
        requires { IsTrue (darts_ascend darts.items) }
        ensures { result ≡ darts.items }
    {
        FaceContent { darts }
    }

    /// Adds a dart behind all others.
    pub fn push(&mut self, one: BorderDart) -> Result<(), Memory>
        requires { IsTrue (darts_ascend (self.old ++ one ∷ [])) }
        ensures ok { OnOk result (self.new ≡ self.old ++ one ∷ []) }
        ensures err { OnErr result (self.new ≡ self.old) }
    {
        self.darts.push(one)?;
        Ok(())
    }

    /// Adds a dart behind all others, if it is beside the face.
    fn push_if(&mut self, beside: bool, one: BorderDart) -> Result<(), Memory>
        requires { IsTrue (darts_ascend (self.old ++ only_if beside one)) }
        ensures ok { OnOk result (self.new ≡ self.old ++ only_if beside one) }
    {
        if beside {
            return self.push(one);
        }
        Ok(())
    }

    /// Adds those darts of an edge that have the face on their left.
    fn push_row(&mut self, row: &EdgeRow, face: FaceId) -> Result<(), Memory>
        requires { IsTrue (darts_ascend (self.old ++ row_border face row.now)) }
        ensures ok { OnOk result (self.new ≡ self.old ++ row_border face row.now) }
    {
        let forward = BorderDart {
            dart: Dart {
                edge: row.edge_id,
                forward: true,
            },
            next: row.next_left_edge,
        };
        let backward = BorderDart {
            dart: Dart {
                edge: row.edge_id,
                forward: false,
            },
            next: row.next_right_edge,
        };
        self.push_if(row.left_face == face, forward)?;
        self.push_if(row.right_face == face, backward)
    }

    /// The border of a face, out of the rows of edges, which ascend by their ids.
    pub fn of_rows(alloc: Global, edges: &[&EdgeRow], face: FaceId) -> Result<FaceContent, Memory>
        requires { IsTrue (darts_ascend (rows_border face (map (λ (r : Bor EdgeValue). r.now) edges.now))) }
        ensures { IfOk result (λ content. content ≡ rows_border face (map (λ (r : Bor EdgeValue). r.now) edges.now)) }
    {
        let mut content = FaceContent::new(alloc);
        for row in edges {
            content.push_row(row, face)?;
        }
        Ok(content)
    }

    /// Sets which dart follows a dart of the border.
    pub fn set_next(&mut self, dart: &Dart, next: Dart)
        requires { Contains (darts_of self.old) dart.now }
        ensures { self.new ≡ with_next dart.now next self.old }
    {
        let place = place_of(&self.darts, dart).unwrap();
        self.darts[place].next = next;
    }

    /// The dart that follows.
    pub fn next_of(&self, dart: &Dart) -> Dart
        requires { Contains (darts_of self.now) dart.now }
        ensures { result ≡ next_dart self.now dart.now }
    {
        let place = place_of(&self.darts, dart).unwrap();
        self.darts[place].next
    }

    /// The darts, each with the one that follows it.
    pub fn darts(&self) -> &[BorderDart]
        ensures darts { result.now ≡ self.now }
        ensures ascend { IsTrue (darts_ascend self.now) }
    {
        &self.darts
    }
}
