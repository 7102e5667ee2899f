ghost use Rattle.std.specs.Prelude.{◌≡◌, ℕ, ◌<◌, ◌≤◌, List, length, take, slice_index};
ghost use Rattle.fabric_defs.specs.Bits.{AreBits};
ghost use Rattle.fabric_defs.specs.Geometries.{GeometryValue, pin_count};
ghost use Rattle.fabric_defs.specs.Configurations.{ConfigValue, IsConfig};
ghost use Rattle.fabric_defs.specs.Wirings.{FabOut, CellBit};
ghost use Rattle.map_defs.specs.Mapped.{MappedValue, mapped_cell, AreMapped};
ghost use Rattle.map_defs.specs.Columns.{AreColumns};
ghost use Rattle.map_defs.specs.Outputs.{MappedBits, LutOut};
ghost use Rattle.route_defs.specs.declared.span.Span.{Span};
ghost use Rattle.route_defs.specs.Signals.{AreSpans};
ghost use Rattle.route_defs.specs.Tracks.{AreTracks};
ghost use Rattle.route_defs.specs.Placed.{HaveRoom, IsPlaced, PlacedOf, placed_number};
ghost use Rattle.route_laws.specs.Words.{HasPlacingWords};

/// Each mapped cell has the bit of the cell of the fabric where it is placed.
pub fn placed_cells_have_their_bits()
    ensures { (l : MappedValue) (columns tracks : List ℕ) (spans : List Span) (config : ConfigValue)
        (x a : List ℕ) → AreMapped l → IsPlaced l columns spans tracks config → AreBits x
        → length a ≡ length l.cells
        → ((k : ℕ) → k < length l.cells
        → CellBit config x (placed_number config.geometry columns k) (slice_index a k))
        → MappedBits l x a }
{}

/// A configuration that places mapped cells has their outputs on its first output pads.
pub fn placed_configuration_has_the_outputs()
    ensures { (l : MappedValue) (g : GeometryValue) (config : ConfigValue) (x z : List ℕ)
        → AreMapped l → PlacedOf l g config → AreBits x → FabOut config x z
        → LutOut l x (take (length l.outputs) z) }
{}

/// A configuration whose words are those of the placing of mapped cells places them: a signal is
/// passed on along its track from the channel that it enters to the last one that needs it.
pub fn words_place_the_cells()
    ensures { (l : MappedValue) (columns tracks : List ℕ) (spans : List Span) (config : ConfigValue)
        → AreMapped l → AreColumns l columns → AreSpans l columns config.geometry.columns spans
        → AreTracks spans config.geometry.tracks tracks → IsConfig config
        → HaveRoom l config.geometry columns
        → ((k : ℕ) → k < length l.cells
        → length (mapped_cell l k).pins ≤ pin_count config.geometry)
        → HasPlacingWords l columns spans tracks config
        → IsPlaced l columns spans tracks config }
{}
