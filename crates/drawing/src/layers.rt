//! The layers of a map.

ghost use Rattle.std.specs.Prelude.{◌≡◌};
ghost use Rattle.drawing.specs.Layers.{is_on, layer_of, layers, same_layer, shape_layer};

use crate::marks::Mark;
use plane::{Shape, corners};

/// A layer of a map: its marks are drawn together. Polygons are the lowest and points are above
/// segments, so that no feature hides one that lies on it.
#[derive(Clone, Copy, Debug)]
pub(crate) enum Layer {
    /// The features that are polygons.
    Polygons,
    /// The features that are segments.
    Segments,
    /// The features that are points.
    Points,
    /// The windows of searches.
    Windows,
}

impl Layer {
    /// Whether it is the same layer.
    fn is(&self, other: Layer) -> bool
        ensures { result ≡ same_layer other self.now }
    {
        match (other, self) {
            (Layer::Polygons, Layer::Polygons)
            | (Layer::Segments, Layer::Segments)
            | (Layer::Points, Layer::Points)
            | (Layer::Windows, Layer::Windows) => true,
            _ => false,
        }
    }

    /// Whether a mark is on this layer.
    pub(crate) fn has(&self, mark: &Mark) -> bool
        ensures { result ≡ is_on self.now mark.now }
    {
        self.is(layer_of(mark))
    }
}

/// The layer of a feature's shape.
fn shape_layer(shape: &Shape) -> Layer
    ensures { result ≡ shape_layer shape.now }
{
    match corners(shape) {
        [] | [_] => Layer::Points,
        [_, _] => Layer::Segments,
        [_, _, _, ..] => Layer::Polygons,
    }
}

/// The one layer that a mark is on.
fn layer_of(mark: &Mark) -> Layer
    ensures { result ≡ layer_of mark.now }
{
    match mark {
        Mark::Window(_) => Layer::Windows,
        Mark::Row(feature) => shape_layer(&feature.shape),
    }
}

/// The layers, the lowest first.
pub(crate) fn all_layers() -> [Layer; 4]
    ensures { result ≡ layers }
{
    [
        Layer::Polygons,
        Layer::Segments,
        Layer::Points,
        Layer::Windows,
    ]
}
