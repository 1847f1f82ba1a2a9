ghost use Rattle.std.specs.Prelude.{◌≡◌};
ghost use Rattle.topo_base.specs.Kinds.{kind_number};

/// The type of a layer's features: nodes, edges or faces.
#[derive(Clone, Copy, Debug, PartialEq, Eq)]
pub enum Kind {
    Puntal,
    Lineal,
    Areal,
}

impl Kind {
    /// The number of the type in the tables: 1, 2 or 3.
    pub fn number(&self) -> u32
        ensures { result ≡ kind_number self.now }
    {
        match self {
            Kind::Puntal => 1,
            Kind::Lineal => 2,
            Kind::Areal => 3,
        }
    }
}
