// The lines of a dump in their order.
ghost use Rattle.std.specs.Prelude.{◌≡◌, ◌&&◌, ℕ, Some, Err, IfOk};
ghost use Rattle.table_dump.specs.Dump.{IsDump, IsFirstBad};
ghost use Rattle.table_dump.specs.Lines.{words_of, words_behind};
ghost use Rattle.table_dump.specs.Rows.{Node, Edge, Universal, Layer, Feature, Relation, alone_as, node_at, edge_at, face_in, layer_at, feature_at, relation_at, named_row, row_in};
ghost use Rattle.table_dump.specs.Steps.{Pushes, Puts, begun, front_of, is_none};

use crate::ends::LineEnd;
use crate::pieces::{first_line, front_word};
use crate::rows::{
    NodeFields, edge_row, face_row, feature_row, is_face_0, layer_row, node_fields, read_next,
    relation_row,
};
use std::alloc::Global;
use topo_base::{Counters, FaceId, Memory, NodeId, NodeRow};
use validate_topology::{RawTables, Rows};

/// Why a dump isn't read.
#[derive(Clone, Copy, Debug, PartialEq, Eq)]
pub enum DumpEnd {
    /// This line, counted from 1, is the first that doesn't stand in its place in a dump. A line that is wanted and
    /// missing is the one in its place, or the one after the last.
    BadLine { line: u64 },
    /// Memory ran out.
    Memory,
}

/// What was read of a dump so far.
#[derive(Drop)]
struct Reading {
    raw: RawTables,
    has_face_0: bool,
}

fn is_none<T>(rows: &[T]) -> bool
    ensures { result ≡ is_none rows.now }
{
    match rows {
        [] => true,
        _ => false,
    }
}

/// Puts a node behind the others, and says whether it stands there.
fn push_node(nodes: &mut Rows<NodeRow>, fields: NodeFields) -> Result<bool, Memory>
    ensures { Pushes (λ n. n.node_id) (record { node_id = fields.id; containing_face = fields.face; geom = fields.geom }) nodes.old nodes.new result }
{
    match fields.face {
        None => nodes.push(NodeRow {
            node_id: NodeId(fields.id),
            containing_face: None,
            geom: fields.geom,
        }),
        Some(face) => nodes.push(NodeRow {
            node_id: NodeId(fields.id),
            containing_face: Some(FaceId(face)),
            geom: fields.geom,
        }),
    }
}

impl Reading {
    fn read_node(&mut self, words: &[u8]) -> Result<(), LineEnd>
        ensures { Puts (alone_as Node node_at (words_behind words.now)) (front_of self.old) (front_of self.new) result }
    {
        let fields = node_fields(words)?;
        if self.has_face_0 || !is_none(self.raw.edges.rows()) {
            return Err(LineEnd::Bad);
        }
        if push_node(&mut self.raw.nodes, fields)? {
            Ok(())
        } else {
            Err(LineEnd::Bad)
        }
    }

    fn read_edge(&mut self, alloc: Global, words: &[u8]) -> Result<(), LineEnd>
        ensures { Puts (alone_as Edge edge_at (words_behind words.now)) (front_of self.old) (front_of self.new) result }
    {
        let row = match edge_row(alloc, words) {
            Ok(row) => row,
            Err(end) => return Err(end),
        };
        if self.has_face_0 {
            return Err(LineEnd::Bad);
        }
        if self.raw.edges.push(row)? {
            Ok(())
        } else {
            Err(LineEnd::Bad)
        }
    }

    /// The first line of a face is that of face 0.
    #[tactic(auto, unfolding(crate::specs::Rows::face_in))]
    fn read_face(&mut self, words: &[u8]) -> Result<(), LineEnd>
        ensures { Puts (face_in (words_behind words.now)) (front_of self.old) (front_of self.new) result }
    {
        if is_face_0(words) {
            return self.read_face_0();
        }
        let row = face_row(words)?;
        if !self.may_have_faces() {
            return Err(LineEnd::Bad);
        }
        if self.raw.faces.push(row)? {
            Ok(())
        } else {
            Err(LineEnd::Bad)
        }
    }

    fn read_face_0(&mut self) -> Result<(), LineEnd>
        ensures { Puts (Some Universal) (front_of self.old) (front_of self.new) result }
    {
        if self.has_face_0 {
            return Err(LineEnd::Bad);
        }
        self.has_face_0 = true;
        Ok(())
    }

    /// Whether face 0 was there, and neither layers nor features nor relation rows.
    fn may_have_faces(&self) -> bool
        ensures { result ≡ (self.now.has_face_0 && (is_none self.now.raw.layers && (is_none self.now.raw.features && is_none self.now.raw.relations))) }
    {
        self.has_face_0
            && is_none(self.raw.layers.rows())
            && is_none(self.raw.features.rows())
            && is_none(self.raw.relations.rows())
    }

    fn read_layer(&mut self, alloc: Global, words: &[u8]) -> Result<(), LineEnd>
        ensures { Puts (alone_as Layer layer_at (words_behind words.now)) (front_of self.old) (front_of self.new) result }
    {
        let row = match layer_row(alloc, words) {
            Ok(row) => row,
            Err(end) => return Err(end),
        };
        if !self.has_face_0
            || !is_none(self.raw.features.rows())
            || !is_none(self.raw.relations.rows())
        {
            return Err(LineEnd::Bad);
        }
        if self.raw.layers.push(row)? {
            Ok(())
        } else {
            Err(LineEnd::Bad)
        }
    }

    fn read_feature(&mut self, words: &[u8]) -> Result<(), LineEnd>
        ensures { Puts (alone_as Feature feature_at (words_behind words.now)) (front_of self.old) (front_of self.new) result }
    {
        let row = feature_row(words)?;
        if !self.has_face_0 || !is_none(self.raw.relations.rows()) {
            return Err(LineEnd::Bad);
        }
        if self.raw.features.push(row)? {
            Ok(())
        } else {
            Err(LineEnd::Bad)
        }
    }

    fn read_relation(&mut self, words: &[u8]) -> Result<(), LineEnd>
        ensures { Puts (alone_as Relation relation_at (words_behind words.now)) (front_of self.old) (front_of self.new) result }
    {
        let row = relation_row(words)?;
        if !self.has_face_0 {
            return Err(LineEnd::Bad);
        }
        if self.raw.relations.push(row)? {
            Ok(())
        } else {
            Err(LineEnd::Bad)
        }
    }

    /// Reads the row whose line has this first word.
    #[tactic(auto, unfolding(crate::specs::Rows::named_row))]
    fn read_row(&mut self, alloc: Global, first: &[u8], words: &[u8]) -> Result<(), LineEnd>
        ensures { Puts (named_row first.now (words_behind words.now)) (front_of self.old) (front_of self.new) result }
    {
        if first == b"node".as_slice() {
            self.read_node(words)
        } else if first == b"edge".as_slice() {
            self.read_edge(alloc, words)
        } else if first == b"face".as_slice() {
            self.read_face(words)
        } else if first == b"layer".as_slice() {
            self.read_layer(alloc, words)
        } else if first == b"feature".as_slice() {
            self.read_feature(words)
        } else if first == b"relation".as_slice() {
            self.read_relation(words)
        } else {
            Err(LineEnd::Bad)
        }
    }

    /// Reads a line.
    #[tactic(auto, unfolding(crate::specs::Rows::row_in))]
    fn read_line(&mut self, alloc: Global, line: &[u8]) -> Result<(), LineEnd>
        ensures { Puts (row_in (words_of line.now)) (front_of self.old) (front_of self.new) result }
    {
        let (first, words) = front_word(line);
        self.read_row(alloc, first, words)
    }
}

/// What was read behind the first line: the next ids, and no rows.
fn begin(alloc: Global, next: Counters) -> Reading
    ensures { front_of result ≡ begun next }
{
    Reading {
        raw: RawTables::new(alloc, next),
        has_face_0: false,
    }
}

/// The tables of a dump, or its first bad line.
pub fn read_tables(alloc: Global, text: &[u8]) -> Result<RawTables, DumpEnd>
    ensures dump { IfOk result (IsDump text.now) }
    ensures bad { (n : ℕ) → result ≡ Err (DumpEnd.BadLine n) → IsFirstBad text.now n }
{
    if text.is_empty() {
        return Err(DumpEnd::BadLine { line: 1 });
    }
    let (first, mut rest) = first_line(text);
    let next = match read_next(first) {
        Ok(next) => next,
        Err(LineEnd::Bad) => return Err(DumpEnd::BadLine { line: 1 }),
        Err(LineEnd::Memory) => return Err(DumpEnd::Memory),
    };
    let mut reading = begin(alloc, next);
    let mut line = 1;
    while !rest.is_empty() {
        let (one, after) = first_line(rest);
        line += 1;
        match reading.read_line(alloc, one) {
            Ok(()) => {}
            Err(LineEnd::Bad) => return Err(DumpEnd::BadLine { line }),
            Err(LineEnd::Memory) => return Err(DumpEnd::Memory),
        }
        rest = after;
    }
    if !reading.has_face_0 {
        return Err(DumpEnd::BadLine { line: line + 1 });
    }
    Ok(reading.raw)
}
