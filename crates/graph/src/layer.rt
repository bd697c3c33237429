//! The layers that a refusal comes from.
ghost use Rattle.std.specs.Prelude.{◌≡◌};
ghost use Rattle.graph.specs.Layer.{layer_number};

/// The layer that refuses.
#[derive(Clone, Copy, PartialEq, Eq, Debug)]
pub enum Layer {
    /// The text itself.
    Text = 1,
    /// The store of the graph.
    Store = 2,
    /// The replay of a list, and the build request.
    Replay = 3,
    /// Marks, the driving request and row counts.
    Rows = 4,
}

/// The number that an X line has for it.
impl From<Layer> for u32 {
    ghost from_gives = { λ layer r. r ≡ layer_number layer };

    fn from(layer: Layer) -> u32 {
        layer as u32
    }
}
