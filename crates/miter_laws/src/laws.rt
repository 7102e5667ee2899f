ghost use Rattle.std.specs.Prelude.{◌≡◌, ℕ, ◌≤◌, List, length};
ghost use Rattle.clause_defs.specs.Clauses.{Lits, Has, IsClause, WithinVariables, Unsat};
ghost use Rattle.clause_defs.specs.declared.verdict.TheConstants.{MAX_VARIABLE};
ghost use Rattle.net_defs.specs.Networks.{Network};
ghost use Rattle.net_defs.specs.Nets.{IsNet};
ghost use Rattle.fabric_defs.specs.Bits.{IsBits};
ghost use Rattle.fabric_defs.specs.Geometries.{IsGeometry, cell_count};
ghost use Rattle.fabric_defs.specs.Configurations.{ConfigValue, IsConfig};
ghost use Rattle.cell_defs.specs.Cells.{CellsValue, AreCells};
ghost use Rattle.cell_defs.specs.Cones.{in_cone, IsClosed};
ghost use Rattle.cell_defs.specs.Sources.{AreSourcesOf};
ghost use Rattle.miter_defs.specs.Equality.{FitsPads, Equal};
ghost use Rattle.miter_defs.specs.Numberings.{variable_count};
ghost use Rattle.miter_defs.specs.Miters.{Miter};
ghost use Rattle.miter_laws.specs.Extensions.{Extends};

/// Each input extends to an assignment that satisfies both circuits, and that satisfies the whole miter
/// where the outputs differ. The set of cells that counts as the cone only has to be closed.
pub fn inputs_extend()
    ensures { (net : Network) (cells : CellsValue) (x : List ℕ) → IsNet net → AreCells cells
        → IsClosed cells (in_cone cells) → length net.outputs ≤ cells.geometry.output_pads
        → IsBits (length net.inputs) x → (a : List ℕ) × Extends net cells x a }
{}

/// A network that fits the pads equals a configuration where no assignment satisfies their miter. The set
/// of cells that counts as the cone only has to be closed.
pub fn unsatisfiable_means_equal()
    ensures { (net : Network) (config : ConfigValue) (cells : CellsValue)
        → IsNet net → IsConfig config → AreSourcesOf config cells
        → IsClosed cells (in_cone cells) → FitsPads net config.geometry
        → Unsat (variable_count net cells) (Miter net cells).clauses → Equal net config }
{}

/// The clauses of the miter are clauses over its variables, of which there are no more than a clause may
/// have.
pub fn clauses_are_clauses()
    ensures clauses { (net : Network) (cells : CellsValue) → IsNet net → IsGeometry cells.geometry
        → length cells.cone ≡ cell_count cells.geometry
        → (c : Lits) → Has (Miter net cells).clauses c → IsClause c }
    ensures within { (net : Network) (cells : CellsValue) → IsNet net
        → (c : Lits) → Has (Miter net cells).clauses c
        → WithinVariables (variable_count net cells) c }
    ensures variables { (net : Network) (cells : CellsValue) → IsNet net → IsGeometry cells.geometry
        → length cells.cone ≡ cell_count cells.geometry → variable_count net cells ≤ MAX_VARIABLE }
{}
