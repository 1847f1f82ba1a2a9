ghost use Rattle.std.specs.Prelude.{◌≡◌, ◌<◌, ◌≤◌, length, OnErr, IfOk, IfErr};

use std::marker::Model;
use topo_base::Grid;

/// A closed walk, by its vertices in order, of which there are at least two: it goes from each to
/// the next, and from the last back to the first. A vertex may stand in it several times.
#[derive(Debug, Drop)]
pub struct Ring {
    vertices: Vec<Grid>,
}

impl Model for Ring {
    ghost use Rattle.std.specs.Prelude.{List, length, ◌≤◌};
    ghost use Rattle.topo_base.specs.Point.{Point};

    ghost Value = { List Point };

    ghost view = { λ r. r.vertices.items };

    ghost invariant = { λ r. 2 ≤ length r.vertices.items };
}

impl Ring {
    /// The walk through these vertices, or the vertices back where there are fewer than two. The
    /// last is not the first again: the way back to the first is part of the walk.
    pub fn of(vertices: Vec<Grid>) -> Result<Ring, Vec<Grid>>
        ensures ring { IfOk result (λ r. r ≡ vertices.items) }
        ensures back { IfErr result (λ v. v ≡ vertices) }
        ensures short { OnErr result (length vertices.items < 2) }
    {
        if vertices.len() < 2 {
            Err(vertices)
        } else {
            Ok(Ring { vertices })
        }
    }

    /// The vertices in order.
    pub fn vertices(&self) -> &[Grid]
        ensures vertices { result.now ≡ self.now }
        ensures some { 2 ≤ length self.now }
    {
        &self.vertices
    }
}
