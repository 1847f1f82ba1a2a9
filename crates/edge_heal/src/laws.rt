//! The law of splits and heals, carried by a function that does nothing.

ghost use Rattle.edge_heal.specs.HealLaw.{HealUndoesSplit};

/// Where references are known, ids ascend and rings have one face each, as after every legal history,
/// a heal undoes a split. After `ModEdgeSplit` of an edge, `ModEdgeHeal` of its two parts is accepted,
/// and nothing has changed but that the point of the split is a vertex of the edge's line and that ids
/// are used up. After `NewEdgesSplit`, `NewEdgeHeal` is accepted and puts a new edge with that line, in
/// the same features, in the place of the old one. The line has the same points as before, and where
/// the point was a vertex it is the same line. The edits are ST_ModEdgeSplit, ST_NewEdgesSplit,
/// ST_ModEdgeHeal and ST_NewEdgeHeal of SQL/MM Topo-Geo.
pub fn heal_law()
    ensures { HealUndoesSplit }
{}
