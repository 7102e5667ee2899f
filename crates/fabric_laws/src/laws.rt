ghost use Rattle.std.specs.Prelude.{◌≡◌, ℕ, List, length, Result};
ghost use Rattle.fabric_defs.specs.Bits.{AreBits};
ghost use Rattle.fabric_defs.specs.Geometries.{GeometryValue, IsGeometry};
ghost use Rattle.fabric_defs.specs.Configurations.{ConfigValue, IsConfig, ConfigOf};
ghost use Rattle.fabric_defs.specs.Spelling.{words_in};
ghost use Rattle.fabric_defs.specs.Wirings.{Wiring, Wired, FabOut, CellBit, channel, cell_pins};
ghost use Rattle.fabric_defs.specs.declared.faults.ConfigError.{ConfigError};
ghost use Rattle.fabric_laws.specs.Columns.{TakesOwnColumns};
ghost use Rattle.fabric_laws.specs.Ranges.{HasRanges};

/// The words and the bits of the input pads, however many are given, determine the bits of all
/// tracks, pins and cells: there is exactly one wiring (`Wired`). It is enough that no track takes
/// a cell of another column, as in every configuration (`words_have_their_ranges`).
pub fn wiring_exists_and_is_unique()
    ensures exists { (config : ConfigValue) (x : List ℕ) → TakesOwnColumns config
        → (w : Wiring) × Wired config x w }
    ensures unique { (config : ConfigValue) (x : List ℕ) (v w : Wiring) → TakesOwnColumns config
        → Wired config x v → Wired config x w → v ≡ w }
{}

/// The words and the input bits determine the bits of the output pads (`FabOut`).
pub fn outputs_are_unique()
    ensures { (config : ConfigValue) (x y z : List ℕ) → TakesOwnColumns config
        → FabOut config x y → FabOut config x z → y ≡ z }
{}

/// The words and the input bits determine the bit of each cell (`CellBit`).
pub fn cell_bit_is_unique()
    ensures { (config : ConfigValue) (x : List ℕ) (cell a b : ℕ) → TakesOwnColumns config
        → CellBit config x cell a → CellBit config x cell b → a ≡ b }
{}

/// A configuration has all its words, and each is at most what its part allows. So no track takes a
/// cell of another column.
pub fn words_have_their_ranges()
    ensures ranges { (config : ConfigValue) → IsConfig config → HasRanges config }
    ensures own_columns { (config : ConfigValue) → IsConfig config → TakesOwnColumns config }
{}

/// Where the input bits are 0 or 1 (`AreBits`), so are those of all tracks, pins and output pads.
/// Those of cells are always.
pub fn bits_are_bits()
    ensures channels { (config : ConfigValue) (x : List ℕ) (w : Wiring) (c : ℕ) → AreBits x
        → Wired config x w → AreBits (channel w c) }
    ensures pins { (config : ConfigValue) (x : List ℕ) (w : Wiring) (cell : ℕ) → AreBits x
        → Wired config x w → AreBits (cell_pins w cell) }
    ensures cells { (config : ConfigValue) (x : List ℕ) (w : Wiring) → Wired config x w
        → AreBits w.cells }
    ensures outputs { (config : ConfigValue) (x y : List ℕ) → AreBits x → FabOut config x y
        → AreBits y }
{}

/// Bytes are one configuration of a geometry, or else have one first fault.
pub fn bytes_have_one_configuration_or_fault()
    ensures some { (g : GeometryValue) (bytes : List ℕ) → IsGeometry g
        → (answer : Result ConfigValue ConfigError)
        × ConfigOf g (length bytes) (words_in bytes) answer }
    ensures one { (g : GeometryValue) (bytes : ℕ) (words : List ℕ)
        (a b : Result ConfigValue ConfigError)
        → ConfigOf g bytes words a → ConfigOf g bytes words b → a ≡ b }
{}
