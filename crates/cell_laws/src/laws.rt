ghost use Rattle.std.specs.Prelude.{◌≡◌, ℕ, ◌+◌, ◌<◌, List, length, slice_index};
ghost use Rattle.fabric_defs.specs.Configurations.{ConfigValue, IsConfig};
ghost use Rattle.fabric_defs.specs.Wirings.{FabOut, CellBit};
ghost use Rattle.cell_defs.specs.Cells.{CellsValue, AreCells};
ghost use Rattle.cell_defs.specs.Cones.{IsClosed, in_cone};
ghost use Rattle.cell_defs.specs.Sources.{AreSourcesOf, AreCellsOf};
ghost use Rattle.cell_defs.specs.Evaluation.{CellBits, ConeBits, output_bits};

/// The equations of the cells in the cone alone determine the output pads: whatever bits obey them,
/// the output pads of the configured fabric have the bits of their sources. Of the cone it is
/// enough that it has all the cells to which the output pads and its members listen.
pub fn cone_determines_the_outputs()
    ensures { (config : ConfigValue) (cells : CellsValue) (x a : List ℕ) → IsConfig config
        → AreSourcesOf config cells → IsClosed cells (in_cone cells) → ConeBits cells x a
        → FabOut config x (output_bits cells x a) }
{}

/// Bits that obey the equations of all cells are the bits of the configured fabric: of each cell,
/// and of the output pads.
pub fn cells_have_their_bits()
    ensures cells { (config : ConfigValue) (cells : CellsValue) (x a : List ℕ) → IsConfig config
        → AreSourcesOf config cells → CellBits cells x a
        → (k : ℕ) → k < length cells.cells → CellBit config x k (slice_index a k) }
    ensures outputs { (config : ConfigValue) (cells : CellsValue) (x a : List ℕ) → IsConfig config
        → AreSourcesOf config cells → CellBits cells x a
        → FabOut config x (output_bits cells x a) }
{}

/// The equations of the cells have exactly one solution.
pub fn bits_exist()
    ensures exist { (cells : CellsValue) (x : List ℕ) → AreCells cells
        → (a : List ℕ) × CellBits cells x a }
    ensures unique { (cells : CellsValue) (x a b : List ℕ) → AreCells cells
        → CellBits cells x a → CellBits cells x b → a ≡ b }
{}

/// The cells of a configuration listen to cells with lower numbers only, and each has all its pins
/// and a table that fits them.
pub fn sources_are_cells()
    ensures { (config : ConfigValue) (cells : CellsValue) → IsConfig config
        → AreSourcesOf config cells → AreCells cells }
{}

/// A configuration has one list of cells, one list of sources of output pads and one cone.
pub fn cells_are_unique()
    ensures { (config : ConfigValue) (cells others : CellsValue)
        → AreCellsOf config cells → AreCellsOf config others → cells ≡ others }
{}

/// A configuration has cells and a cone.
pub fn configuration_has_cells()
    ensures { (config : ConfigValue) → IsConfig config
        → (cells : CellsValue) × AreCellsOf config cells }
{}
