//! Laws of stars and links, carried by a function that does nothing.

ghost use Rattle.edge_links.specs.LinksLaw.{LinksAreRight};
ghost use Rattle.edge_links.specs.UnlinksLaw.{UnlinksAreRight};

/// In a plain drawing a star is in clockwise order, what follows a half-edge is the dart after it,
/// walked back, in the star of the node where it arrives, and after the writes of an edge that comes
/// and of the links round its two darts each link is right.
pub fn links_law()
    ensures { LinksAreRight }
{}

/// In a plain drawing the darts of a star that stay where an edge goes are the star without it, and
/// after the writes by which the edge's row goes and links follow, the tables are those without the
/// edge, each link is right and nothing else has changed. The writes may be made in this order.
pub fn unlinks_law()
    ensures { UnlinksAreRight }
{}
