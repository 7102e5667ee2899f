use crate::cover::Covers;
use crate::names::Names;
use pch_base::Name;

/// The value of a BLIF text. `blif_of` gives the plain record that definitions speak of.
#[derive(Debug, Drop)]
pub struct Blif {
    /// The name of the model, empty where it has none.
    pub model: Name,
    /// The names of the inputs.
    pub inputs: Names,
    /// The names of the outputs.
    pub outputs: Names,
    /// The covers in the order of the text.
    pub covers: Covers,
}
