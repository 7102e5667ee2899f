ghost use Rattle.std.specs.Prelude.{◌≡◌, ℕ, ◌<◌, ◌⊎◌, List, All, length};
ghost use Rattle.clause_defs.specs.Formulas.{Formula};
ghost use Rattle.clause_defs.specs.Traces.{Entry};
ghost use Rattle.sat_text_defs.specs.declared.limits.TheConstants.{MAX_TRACE_BYTES};
ghost use Rattle.sat_text_defs.specs.TraceText.{TraceText};
ghost use Rattle.net_defs.specs.Networks.{Network};
ghost use Rattle.net_defs.specs.Nets.{IsNet};
ghost use Rattle.fabric_defs.specs.Geometries.{GeometryValue};
ghost use Rattle.fabric_defs.specs.Configurations.{ConfigValue};
ghost use Rattle.cell_defs.specs.Cells.{CellsValue};
ghost use Rattle.cell_defs.specs.Sources.{AreCellsOf};
ghost use Rattle.miter_defs.specs.Equality.{Equal};
ghost use Rattle.bundle_defs.specs.Bundles.{BundleValue, BundleText, bundle_bytes};
ghost use Rattle.verify_defs.specs.Acceptance.{HasParts, AcceptsWith, Accepts};
ghost use Rattle.verify_defs.specs.Compacting.{compacted_bundle};
ghost use Rattle.verify_defs.specs.Deliveries.{IsDeliveredMiter, MiterFault};
ghost use Rattle.verify_defs.specs.declared.miter_error.MiterError.{MiterError};
ghost use Rattle.verify_defs.specs.Refusals.{FirstRefusal};
ghost use Rattle.verify_defs.specs.declared.refusal.Refusal.{Refusal};

/// A net equals the configuration of each bundle that is accepted for it: for every input the output
/// pads have the outputs of the net.
pub fn accepted_is_equal()
    ensures { (g : GeometryValue) (net : Network) (bytes : List ℕ) (config : ConfigValue)
        → IsNet net → AcceptsWith g net bytes config → Equal net config }
{}

/// Bytes are a bundle for one fabric, and have one configuration, one trace and one list of cells.
pub fn parts_are_unique()
    ensures fabric { (g h : GeometryValue) (bytes : List ℕ) (k l : ConfigValue) (t u : List Entry)
        → HasParts g bytes k t → HasParts h bytes l u → g ≡ h }
    ensures config { (g : GeometryValue) (bytes : List ℕ) (k l : ConfigValue) (t u : List Entry)
        → HasParts g bytes k t → HasParts g bytes l u → k ≡ l }
    ensures trace { (g : GeometryValue) (bytes : List ℕ) (k l : ConfigValue) (t u : List Entry)
        → HasParts g bytes k t → HasParts g bytes l u → t ≡ u }
    ensures cells { (g : GeometryValue) (bytes : List ℕ) (k l : ConfigValue) (t u : List Entry)
        (m n : CellsValue) → HasParts g bytes k t → HasParts g bytes l u
        → AreCellsOf k m → AreCellsOf l n → m ≡ n }
{}

/// Bytes are accepted, or else there is one first reason why not; never both.
pub fn refusal_is_first()
    ensures some { (g : GeometryValue) (net : Network) (bytes : List ℕ)
        → All (λ byte. byte < 256) bytes
        → Accepts g net bytes ⊎ ((r : Refusal) × FirstRefusal g net bytes r) }
    ensures one { (g : GeometryValue) (net : Network) (bytes : List ℕ) (r s : Refusal)
        → FirstRefusal g net bytes r → FirstRefusal g net bytes s → r ≡ s }
    ensures not_both { (g : GeometryValue) (net : Network) (bytes : List ℕ) (r : Refusal)
        → Accepts g net bytes → FirstRefusal g net bytes r → ⊥ }
{}

/// A bundle of version 1 whose trace has room for one more byte stays accepted when it is compacted, for
/// every fabric and network, with the same configuration.
pub fn compacted_is_accepted()
    ensures { (bytes : List ℕ) (bundle : BundleValue) (steps : List Entry)
        → BundleText bytes bundle → bundle.version ≡ 1 → TraceText bundle.trace 1 steps
        → length bundle.trace < MAX_TRACE_BYTES
        → (g : GeometryValue) (net : Network) (config : ConfigValue)
        → AcceptsWith g net bytes config
        → AcceptsWith g net (bundle_bytes (compacted_bundle bundle steps)) config }
{}

/// The bytes of a bundle have one miter with a net, or one first fault, and never both.
pub fn delivered_miter_is_one()
    ensures miter { (net : Network) (bytes : List ℕ) (m n : Formula)
        → IsDeliveredMiter net bytes m → IsDeliveredMiter net bytes n → m ≡ n }
    ensures fault { (net : Network) (bytes : List ℕ) (e f : MiterError)
        → MiterFault net bytes e → MiterFault net bytes f → e ≡ f }
    ensures not_both { (net : Network) (bytes : List ℕ) (m : Formula) (e : MiterError)
        → IsDeliveredMiter net bytes m → MiterFault net bytes e → ⊥ }
{}
