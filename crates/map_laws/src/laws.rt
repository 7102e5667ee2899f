ghost use Rattle.std.specs.Prelude.{◌≡◌, ◌<◌, ◌≤◌, ◌↔◌, ℕ, List, length};
ghost use Rattle.fabric_defs.specs.Bits.{IsBits};
ghost use Rattle.fabric_defs.specs.Geometries.{GeometryValue, pin_count};
ghost use Rattle.net_defs.specs.Networks.{Network};
ghost use Rattle.net_defs.specs.Nets.{IsNet};
ghost use Rattle.net_defs.specs.Evaluation.{SpecOut};
ghost use Rattle.map_defs.specs.Mapped.{MappedValue, mapped_cell, AreSettled, AreMapped};
ghost use Rattle.map_defs.specs.Outputs.{MappedBits, LutOut};
ghost use Rattle.map_defs.specs.Columns.{AreColumns};
ghost use Rattle.map_defs.specs.Reference.{RefMap};

/// Settled cells have exactly one list of bits.
pub fn mapped_bits_exist()
    ensures exist { (l : MappedValue) (x : List ℕ) → AreSettled l
        → (a : List ℕ) × MappedBits l x a }
    ensures unique { (l : MappedValue) (x a b : List ℕ) → AreSettled l
        → MappedBits l x a → MappedBits l x b → a ≡ b }
    ensures outputs { (l : MappedValue) (x y z : List ℕ) → AreSettled l
        → LutOut l x y → LutOut l x z → y ≡ z }
{}

/// The reference mapping of a net has the outputs of the net.
pub fn reference_has_the_outputs()
    ensures { (net : Network) (l : MappedValue) (x y : List ℕ) → IsNet net → RefMap net l
        → IsBits (length net.inputs) x → (LutOut l x y ↔ SpecOut net x y) }
{}

/// The reference mapping of a net is a list of mapped cells.
pub fn reference_is_mapped()
    ensures { (net : Network) (l : MappedValue) → IsNet net → RefMap net l → AreMapped l }
{}

/// No cell of the reference mapping of a net has more pins than the cells of a fabric, of whatever kind
/// they are.
pub fn reference_cells_are_narrow()
    ensures { (net : Network) (l : MappedValue) (g : GeometryValue) (k : ℕ) → IsNet net
        → RefMap net l → k < length l.cells → length (mapped_cell l k).pins ≤ pin_count g }
{}

/// Settled cells have exactly one list of columns.
pub fn columns_exist()
    ensures exist { (l : MappedValue) → AreSettled l
        → (columns : List ℕ) × AreColumns l columns }
    ensures unique { (l : MappedValue) (a b : List ℕ) → AreSettled l
        → AreColumns l a → AreColumns l b → a ≡ b }
{}

/// A net has one reference mapping.
pub fn reference_is_unique()
    ensures { (net : Network) (l m : MappedValue) → IsNet net
        → RefMap net l → RefMap net m → l ≡ m }
{}
