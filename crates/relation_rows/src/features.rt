ghost use Rattle.std.specs.Prelude.{◌≡◌, [], ◌∷◌, ◌++◌, OnOk, OnErr};

use std::alloc::Global;
use std::marker::Model;
use topo_base::{FeatureRow, Memory};

/// Features, each with its layer. Contracts see the list.
#[derive(Debug, Drop)]
pub struct FeatureList {
    rows: Vec<FeatureRow>,
}

impl Model for FeatureList {
    ghost use Rattle.std.specs.Prelude.{List};
    ghost use Rattle.topo_base.specs.declared.rows.FeatureRow.{FeatureRow as FeatureValue};

    ghost Value = { List FeatureValue };

    ghost view = { λ l. l.rows.items };
}

impl FeatureList {
    /// No features. Takes no memory.
    pub fn new(alloc: Global) -> FeatureList
        ensures { result ≡ [] }
    {
        FeatureList {
            rows: Vec::new(alloc),
        }
    }

    /// Puts a feature behind the others.
    pub fn push(&mut self, feature: FeatureRow) -> Result<(), Memory>
        ensures ok { OnOk result (self.new ≡ self.old ++ feature ∷ []) }
        ensures err { OnErr result (self.new ≡ self.old) }
    {
        self.rows.push(feature)?;
        Ok(())
    }

    /// The features in order.
    pub fn as_slice(&self) -> &[FeatureRow]
        ensures { result.now ≡ self.now }
    {
        &self.rows
    }
}
