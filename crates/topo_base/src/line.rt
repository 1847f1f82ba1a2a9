ghost use Rattle.std.specs.Prelude.{◌≡◌, ◌<◌, ◌≤◌, length, OnErr, IfOk, IfErr};

use crate::{Grid, Memory};
use std::alloc::Global;
use std::marker::Model;

/// A line of at least two vertices.
#[derive(Debug, Drop)]
pub struct Line {
    vertices: Vec<Grid>,
}

impl Model for Line {
    ghost use Rattle.std.specs.Prelude.{List, length, ◌≤◌};
    ghost use Rattle.topo_base.specs.Point.{Point};

    ghost Value = { List Point };

    ghost view = { λ l. l.vertices.items };

    ghost invariant = { λ l. 2 ≤ length l.vertices.items };
}

impl Line {
    /// The line through these vertices, or the vertices where there are fewer than two.
    pub fn of(vertices: Vec<Grid>) -> Result<Line, Vec<Grid>>
        ensures line { IfOk result (λ l. l ≡ vertices.items) }
        ensures back { IfErr result (λ v. v ≡ vertices) }
        ensures short { OnErr result (length vertices.items < 2) }
    {
        if vertices.len() < 2 {
            Err(vertices)
        } else {
            Ok(Line { vertices })
        }
    }

    /// The vertices in order.
    pub fn vertices(&self) -> &[Grid]
        ensures vertices { result.now ≡ self.now }
        ensures some { 2 ≤ length self.now }
    {
        &self.vertices
    }

    /// The same line once more.
    pub fn copy(&self, alloc: Global) -> Result<Line, Memory>
        ensures { IfOk result (λ l. l ≡ self.now) }
    {
        let vertices = Vec::from_slice(alloc, &self.vertices)?;
        Ok(Line { vertices })
    }
}
