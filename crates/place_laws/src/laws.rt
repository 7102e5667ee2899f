ghost use Rattle.std.specs.Prelude.{◌≡◌, ℕ, ◌<◌, ◌≤◌, List, Option, None, length};
ghost use Rattle.fabric_defs.specs.Geometries.{GeometryValue, pin_count};
ghost use Rattle.fabric_defs.specs.Configurations.{ConfigValue};
ghost use Rattle.cell_defs.specs.Cells.{CellsValue, cell_at};
ghost use Rattle.cell_defs.specs.Sources.{AreSourcesOf};
ghost use Rattle.map_defs.specs.Mapped.{MappedValue, mapped_cell, AreSettled, AreMapped};
ghost use Rattle.map_defs.specs.Columns.{AreColumns};
ghost use Rattle.route_defs.specs.declared.span.Span.{Span};
ghost use Rattle.route_defs.specs.declared.demand.Demand.{Demand};
ghost use Rattle.route_defs.specs.Spans.{need};
ghost use Rattle.route_defs.specs.Signals.{AreSpans};
ghost use Rattle.route_defs.specs.Demands.{demands, first_over, FirstOverOf};
ghost use Rattle.route_defs.specs.Placed.{HaveRoom, IsPlaced, placed_number};
ghost use Rattle.place_laws.specs.ReadBack.{placed_cell, placed_outputs};
ghost use Rattle.place_laws.specs.Routings.{HaveTracks, listed_config};

/// Where more is needed of no resource than is there, the cells have room, and no channel has more
/// live signals than tracks.
pub fn met_demands_leave_room()
    ensures room { (l : MappedValue) (g : GeometryValue) (columns : List ℕ) (spans : List Span)
        → AreColumns l columns → first_over (demands l g columns spans) ≡ None
        → HaveRoom l g columns }
    ensures tracks { (l : MappedValue) (g : GeometryValue) (columns : List ℕ) (spans : List Span)
        → AreColumns l columns → AreSpans l columns g.columns spans
        → first_over (demands l g columns spans) ≡ None → (c : ℕ) → need spans c ≤ g.tracks }
{}

/// Mapped cells and a fabric have one answer to which resource is wanting first, if any.
pub fn first_over_is_unique()
    ensures { (l : MappedValue) (g : GeometryValue) (a b : Option Demand) → AreSettled l
        → FirstOverOf l g a → FirstOverOf l g b → a ≡ b }
{}

/// Where signals have seats and seats have tracks, the listed words are a configuration that places
/// the cells.
pub fn listed_words_place_the_cells()
    ensures { (l : MappedValue) (g : GeometryValue) (columns rows : List ℕ) (spans : List Span)
        (seats : List ℕ) (seated : List Span) (signals : List (Option ℕ)) (chosen tracks : List ℕ)
        → HaveTracks l g columns rows spans seats seated signals chosen tracks
        → AreMapped l → AreColumns l columns
        → ((k : ℕ) → k < length l.cells → length (mapped_cell l k).pins ≤ pin_count g)
        → IsPlaced l columns spans tracks (listed_config l g seated chosen tracks signals) }
{}

/// The sources and tables that are read out of a configuration that places mapped cells are those of
/// the mapped cells, each at its place, and the output pads listen where the outputs do.
pub fn placed_cells_are_read_back()
    ensures cells { (l : MappedValue) (columns tracks : List ℕ) (spans : List Span)
        (config : ConfigValue) (cells : CellsValue) (k : ℕ)
        → IsPlaced l columns spans tracks config → AreSourcesOf config cells → k < length l.cells
        → cell_at cells (placed_number config.geometry columns k)
        ≡ placed_cell config.geometry columns (mapped_cell l k) }
    ensures outputs { (l : MappedValue) (columns tracks : List ℕ) (spans : List Span)
        (config : ConfigValue) (cells : CellsValue)
        → IsPlaced l columns spans tracks config → AreSourcesOf config cells
        → cells.outputs ≡ placed_outputs config.geometry columns l }
{}
