//! Printed lines that are read back as rows.

use std::alloc::{AllocError, AllocFailed, Global};
use topo_base::{
    Box4, Counters, Dart, EdgeId, EdgeRow, FaceId, FaceRow, FeatureId, FeatureRow, Grid, Kind,
    LayerId, LayerRow, Line, Name, NodeId, NodeRow, RelationRow,
};
use topo_io::number;

/// Why a line isn't read.
#[derive(Debug, Drop)]
pub enum Unread {
    /// It isn't the line of such a row.
    Word,
    /// Memory ran out.
    Memory,
}

impl From<AllocError> for Unread {
    fn from(_: AllocError) -> Self {
        Unread::Memory
    }
}

impl<T: Drop> From<AllocFailed<T>> for Unread {
    fn from(_: AllocFailed<T>) -> Self {
        Unread::Memory
    }
}

/// What stands before the first such byte, and behind it.
fn split(text: &[u8], byte: u8) -> Option<(&[u8], &[u8])> {
    for (at, one) in text.iter().enumerate() {
        if *one == byte {
            let (front, rest) = text.split_at(at);
            let (_, after) = rest.split_at(1);
            return Some((front, after));
        }
    }
    None
}

/// The id or the count that a word is.
fn count_of(word: &[u8]) -> Result<u32, Unread> {
    match number(word) {
        None => Err(Unread::Word),
        Some(n) => u32::try_from(n).map_err(|_| Unread::Word),
    }
}

/// The words of a line from one of them on: `None` behind the last.
#[derive(Drop)]
pub struct Words<'a> {
    rest: Option<&'a [u8]>,
}

impl<'a> Words<'a> {
    fn word(&mut self) -> Result<&'a [u8], Unread> {
        let Some(rest) = self.rest else {
            return Err(Unread::Word);
        };
        match split(rest, b' ') {
            None => {
                self.rest = None;
                Ok(rest)
            }
            Some((word, after)) => {
                self.rest = Some(after);
                Ok(word)
            }
        }
    }

    /// The word that begins the lines of a table.
    fn begin(&mut self, due: &[u8]) -> Result<(), Unread> {
        if self.word()? == due {
            Ok(())
        } else {
            Err(Unread::Word)
        }
    }

    fn number(&mut self) -> Result<i64, Unread> {
        number(self.word()?).ok_or(Unread::Word)
    }

    fn count(&mut self) -> Result<u32, Unread> {
        count_of(self.word()?)
    }

    /// An id, or `-` where there is none.
    fn option(&mut self) -> Result<Option<u32>, Unread> {
        let word = self.word()?;
        if word == b"-".as_slice() {
            return Ok(None);
        }
        Ok(Some(count_of(word)?))
    }

    /// An edge, with a minus where it is walked from its end to its start.
    fn dart(&mut self) -> Result<Dart, Unread> {
        let word = self.word()?;
        match word.strip_prefix(b"-".as_slice()) {
            None => Ok(Dart {
                edge: EdgeId(count_of(word)?),
                forward: true,
            }),
            Some(edge) => Ok(Dart {
                edge: EdgeId(count_of(edge)?),
                forward: false,
            }),
        }
    }

    fn point(&mut self) -> Result<Grid, Unread> {
        let x = self.number()?;
        let y = self.number()?;
        Grid::of(x, y).ok_or(Unread::Word)
    }

    /// The number of the vertices, and these.
    fn line(&mut self, alloc: Global) -> Result<Line, Unread> {
        let mut vertices = Vec::new(alloc);
        for _ in 0..self.count()? {
            vertices.push(self.point()?)?;
        }
        Line::of(vertices).map_err(|_| Unread::Word)
    }

    /// The corners of a box, or `-` where there is none.
    fn mbr(&mut self) -> Result<Option<Box4>, Unread> {
        if self.rest == Some(b"-".as_slice()) {
            self.rest = None;
            return Ok(None);
        }
        Ok(Some(Box4 {
            min_x: self.number()?,
            min_y: self.number()?,
            max_x: self.number()?,
            max_y: self.number()?,
        }))
    }

    fn kind(&mut self) -> Result<Kind, Unread> {
        match self.count()? {
            1 => Ok(Kind::Puntal),
            2 => Ok(Kind::Lineal),
            3 => Ok(Kind::Areal),
            _ => Err(Unread::Word),
        }
    }

    fn name(&mut self, alloc: Global) -> Result<Name, Unread> {
        let bytes = Vec::from_slice(alloc, self.word()?)?;
        Name::of(bytes).map_err(|_| Unread::Word)
    }

    fn end(&self) -> Result<(), Unread> {
        match self.rest {
            None => Ok(()),
            Some(_) => Err(Unread::Word),
        }
    }
}

/// A row that is read from the words of a line.
pub trait ReadRow: Sized + Drop {
    fn read(alloc: Global, words: &mut Words<'_>) -> Result<Self, Unread>;

    fn is_same(&self, other: &Self) -> bool;
}

impl ReadRow for Counters {
    fn read(_: Global, words: &mut Words<'_>) -> Result<Counters, Unread> {
        words.begin(b"next")?;
        Ok(Counters {
            node: words.count()?,
            edge: words.count()?,
            face: words.count()?,
            layer: words.count()?,
            feature: words.count()?,
        })
    }

    fn is_same(&self, other: &Counters) -> bool {
        self == other
    }
}

impl ReadRow for NodeRow {
    fn read(_: Global, words: &mut Words<'_>) -> Result<NodeRow, Unread> {
        words.begin(b"node")?;
        Ok(NodeRow {
            node_id: NodeId(words.count()?),
            containing_face: words.option()?.map(|face| FaceId(face)),
            geom: words.point()?,
        })
    }

    fn is_same(&self, other: &NodeRow) -> bool {
        self == other
    }
}

/// Whether the ids of two rows and their nodes are the same.
fn are_same_ends(row: &EdgeRow, other: &EdgeRow) -> bool {
    row.edge_id == other.edge_id
        && row.start_node == other.start_node
        && row.end_node == other.end_node
}

fn are_same_links(row: &EdgeRow, other: &EdgeRow) -> bool {
    row.next_left_edge == other.next_left_edge && row.next_right_edge == other.next_right_edge
}

fn are_same_faces(row: &EdgeRow, other: &EdgeRow) -> bool {
    row.left_face == other.left_face && row.right_face == other.right_face
}

impl ReadRow for EdgeRow {
    fn read(alloc: Global, words: &mut Words<'_>) -> Result<EdgeRow, Unread> {
        words.begin(b"edge")?;
        Ok(EdgeRow {
            edge_id: EdgeId(words.count()?),
            start_node: NodeId(words.count()?),
            end_node: NodeId(words.count()?),
            next_left_edge: words.dart()?,
            next_right_edge: words.dart()?,
            left_face: FaceId(words.count()?),
            right_face: FaceId(words.count()?),
            geom: words.line(alloc)?,
        })
    }

    fn is_same(&self, other: &EdgeRow) -> bool {
        are_same_ends(self, other)
            && are_same_links(self, other)
            && are_same_faces(self, other)
            && self.geom.vertices() == other.geom.vertices()
    }
}

impl ReadRow for FaceRow {
    fn read(_: Global, words: &mut Words<'_>) -> Result<FaceRow, Unread> {
        words.begin(b"face")?;
        Ok(FaceRow {
            face_id: FaceId(words.count()?),
            mbr: words.mbr()?,
        })
    }

    fn is_same(&self, other: &FaceRow) -> bool {
        self == other
    }
}

impl ReadRow for LayerRow {
    fn read(alloc: Global, words: &mut Words<'_>) -> Result<LayerRow, Unread> {
        words.begin(b"layer")?;
        Ok(LayerRow {
            layer_id: LayerId(words.count()?),
            level: words.count()?,
            child_id: words.option()?.map(|child| LayerId(child)),
            feature_type: words.kind()?,
            name: words.name(alloc)?,
        })
    }

    fn is_same(&self, other: &LayerRow) -> bool {
        self.layer_id == other.layer_id
            && self.level == other.level
            && self.child_id == other.child_id
            && self.feature_type == other.feature_type
            && self.name.as_bytes() == other.name.as_bytes()
    }
}

impl ReadRow for FeatureRow {
    fn read(_: Global, words: &mut Words<'_>) -> Result<FeatureRow, Unread> {
        words.begin(b"feature")?;
        Ok(FeatureRow {
            feature_id: FeatureId(words.count()?),
            layer_id: LayerId(words.count()?),
        })
    }

    fn is_same(&self, other: &FeatureRow) -> bool {
        self == other
    }
}

impl ReadRow for RelationRow {
    fn read(_: Global, words: &mut Words<'_>) -> Result<RelationRow, Unread> {
        words.begin(b"relation")?;
        Ok(RelationRow {
            topogeo_id: FeatureId(words.count()?),
            layer_id: LayerId(words.count()?),
            element_id: words.count()?,
            element_type: words.count()?,
        })
    }

    fn is_same(&self, other: &RelationRow) -> bool {
        self == other
    }
}

/// The lines of a text from one of them on.
#[derive(Drop)]
pub struct Lines<'a> {
    rest: &'a [u8],
}

impl<'a> Lines<'a> {
    pub fn of(text: &'a [u8]) -> Lines<'a> {
        Lines { rest: text }
    }

    /// The words of the next line.
    fn line(&mut self) -> Result<Words<'a>, Unread> {
        let Some((line, rest)) = split(self.rest, b'\n') else {
            return Err(Unread::Word);
        };
        self.rest = rest;
        Ok(Words { rest: Some(line) })
    }

    /// The row of the next line.
    fn row<R: ReadRow>(&mut self, alloc: Global) -> Result<R, Unread> {
        let mut words = self.line()?;
        let row = R::read(alloc, &mut words)?;
        words.end()?;
        Ok(row)
    }

    /// Whether the next line is that of this row.
    pub fn is_row<R: ReadRow>(&mut self, alloc: Global, due: &R) -> Result<bool, Unread> {
        let row = self.row::<R>(alloc)?;
        Ok(row.is_same(due))
    }

    /// Whether the next lines are those of the rows at their places.
    pub fn are_rows<R: ReadRow>(
        &mut self,
        alloc: Global,
        slots: &[Option<R>],
    ) -> Result<bool, Unread> {
        for slot in slots {
            if let Some(row) = slot
                && !self.is_row(alloc, row)?
            {
                return Ok(false);
            }
        }
        Ok(true)
    }

    pub fn is_end(&self) -> bool {
        self.rest.is_empty()
    }
}
