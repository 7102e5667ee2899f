ghost use Rattle.std.specs.Prelude.{◌≡◌, ℕ, List, length};
ghost use Rattle.net_defs.specs.Networks.{Network};
ghost use Rattle.net_defs.specs.Settling.{IsAcyclic};
ghost use Rattle.net_defs.specs.Evaluation.{Settles, SpecOut};

/// In an acyclic network the input bits determine the bits of all signals.
pub fn assignment_exists_and_is_unique()
    ensures exists { (net : Network) (x : List ℕ) → IsAcyclic net → length x ≡ length net.inputs
        → (a : List ℕ) × Settles net x a }
    ensures unique { (net : Network) (x a b : List ℕ) → IsAcyclic net → Settles net x a
        → Settles net x b → a ≡ b }
{}

/// In an acyclic network the input bits determine the output bits.
pub fn outputs_are_unique()
    ensures { (net : Network) (x y z : List ℕ) → IsAcyclic net → SpecOut net x y → SpecOut net x z
        → y ≡ z }
{}
