// The edits of layers and features, read from the bytes behind their tags.
ghost use Rattle.std.specs.Prelude.{ℕ};
ghost use Rattle.topo_base.specs.declared.edit.Edit.TheVariants.{AddLayer, CreateTopoGeom, AddElement, RemElement, DropFeature};
ghost use Rattle.entry_codec.specs.Gives.{Gives};
ghost use Rattle.entry_codec.specs.Reading.{made, both, number_at, option_at, name_at, kind_at, pairs_at, three_at, feature_at};

use crate::CodecEnd;
use crate::parts::{kind_of, name_of, number_of, option_of, pairs_of};
use std::alloc::Global;
use topo_base::{Edit, FeatureId, LayerId, Name};

/// The type and the child of a layer of this name.
fn layer_of(name: Name, bytes: &[u8]) -> Result<(Edit, &[u8]), CodecEnd>
    ensures { Gives (λ x. (x.0, x.1.now)) result (made (λ p. AddLayer name p.0 p.1) (both kind_at option_at) bytes.now) }
{
    let (kind, rest) = kind_of(bytes)?;
    let (child, rest) = option_of(rest)?;
    let child = child.map(|child| LayerId(child));
    Ok((Edit::AddLayer { name, kind, child }, rest))
}

/// A layer's name, its type and its child.
fn add_layer(alloc: Global, bytes: &[u8]) -> Result<(Edit, &[u8]), CodecEnd>
    ensures { Gives (λ x. (x.0, x.1.now)) result (made (λ p. AddLayer p.0 p.1.0 p.1.1) (both name_at (both kind_at option_at)) bytes.now) }
{
    match name_of(alloc, bytes) {
        Ok((name, rest)) => layer_of(name, rest),
        Err(end) => Err(end),
    }
}

/// A layer, and the elements of its new feature.
fn create_topo_geom(alloc: Global, bytes: &[u8]) -> Result<(Edit, &[u8]), CodecEnd>
    ensures { Gives (λ x. (x.0, x.1.now)) result (made (λ p. CreateTopoGeom p.0 p.1) (both number_at pairs_at) bytes.now) }
{
    let (layer, rest) = number_of(bytes)?;
    let layer = LayerId(layer);
    match pairs_of(alloc, rest) {
        Ok((elements, rest)) => Ok((Edit::CreateTopoGeom { layer, elements }, rest)),
        Err(end) => Err(end),
    }
}

/// A feature, and an element that it comes to list.
fn add_element(bytes: &[u8]) -> Result<(Edit, &[u8]), CodecEnd>
    ensures { Gives (λ x. (x.0, x.1.now)) result (made (λ p. AddElement p.0 p.1.0 p.1.1) three_at bytes.now) }
{
    let (feature, rest) = number_of(bytes)?;
    let (id, rest) = number_of(rest)?;
    let (element_type, rest) = number_of(rest)?;
    let feature = FeatureId(feature);
    Ok((
        Edit::AddElement {
            feature,
            id,
            element_type,
        },
        rest,
    ))
}

/// A feature, and an element that it lists no more.
fn rem_element(bytes: &[u8]) -> Result<(Edit, &[u8]), CodecEnd>
    ensures { Gives (λ x. (x.0, x.1.now)) result (made (λ p. RemElement p.0 p.1.0 p.1.1) three_at bytes.now) }
{
    let (feature, rest) = number_of(bytes)?;
    let (id, rest) = number_of(rest)?;
    let (element_type, rest) = number_of(rest)?;
    let feature = FeatureId(feature);
    Ok((
        Edit::RemElement {
            feature,
            id,
            element_type,
        },
        rest,
    ))
}

/// A feature that goes.
fn drop_feature(bytes: &[u8]) -> Result<(Edit, &[u8]), CodecEnd>
    ensures { Gives (λ x. (x.0, x.1.now)) result (made (λ n. DropFeature n) number_at bytes.now) }
{
    let (feature, rest) = number_of(bytes)?;
    let feature = FeatureId(feature);
    Ok((Edit::DropFeature { feature }, rest))
}

/// The edit of layers and features that has this tag, from the bytes behind it.
#[tactic(auto, unfolding(crate::specs::Reading::feature_at))]
pub fn feature_edit(alloc: Global, tag: u8, bytes: &[u8]) -> Result<(Edit, &[u8]), CodecEnd>
    ensures { Gives (λ x. (x.0, x.1.now)) result (feature_at tag bytes.now) }
{
    match tag {
        14 => add_layer(alloc, bytes),
        15 => create_topo_geom(alloc, bytes),
        16 => add_element(bytes),
        17 => rem_element(bytes),
        18 => drop_feature(bytes),
        _ => Err(CodecEnd::NoEntry),
    }
}
