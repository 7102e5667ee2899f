ghost use Rattle.std.specs.Prelude.{◌≡◌, ℕ, List, length};
ghost use Rattle.net_defs.specs.Networks.{Network};
ghost use Rattle.net_defs.specs.Nets.{IsNet, output_names};
ghost use Rattle.net_defs.specs.Interfaces.{PlacePairs, IsPairing, IsRearrangement, Pairs};
ghost use Rattle.net_defs.specs.Alignments.{IsAligned, IsReordered, HasOutputsOf};

/// There is one network with inputs and outputs in the order of their partners.
pub fn aligned_network_is_unique()
    ensures { (design : Network) (p : PlacePairs) (net other : Network)
        → Pairs design p → IsAligned design p net → IsAligned design p other → net ≡ other }
{}

/// It has the specification's names in the specification's order.
pub fn aligned_network_has_the_interface()
    ensures inputs { (spec design : Network) (p : PlacePairs) (net : Network)
        → IsPairing spec design p → IsAligned design p net → net.inputs ≡ spec.inputs }
    ensures outputs { (spec design : Network) (p : PlacePairs) (net : Network)
        → IsPairing spec design p → IsAligned design p net → output_names net ≡ output_names spec }
{}

/// It computes what the design does.
pub fn aligned_network_has_the_outputs()
    ensures { (design : Network) (p : PlacePairs) (net : Network) → Pairs design p
        → IsAligned design p net → HasOutputsOf design p net }
{}

/// It is within the limits and acyclic where the design is.
pub fn aligned_network_is_a_net()
    ensures { (design : Network) (p : PlacePairs) (net : Network)
        → IsNet design → Pairs design p → IsAligned design p net → IsNet net }
{}

/// Each list in one of the two orders is one list in the other.
pub fn reordered_list_exists_and_is_unique()
    ensures in_design_order { (places x : List ℕ)
        → IsRearrangement (length places) places → length x ≡ length places
        → (u : List ℕ) × IsReordered places u x }
    ensures in_spec_order { (places u : List ℕ)
        → IsRearrangement (length places) places → length u ≡ length places
        → (x : List ℕ) × IsReordered places u x }
    ensures one_in_design_order { (places x u v : List ℕ)
        → IsRearrangement (length places) places → IsReordered places u x → IsReordered places v x
        → u ≡ v }
    ensures one_in_spec_order { (places u x y : List ℕ) → IsReordered places u x
        → IsReordered places u y → x ≡ y }
{}
