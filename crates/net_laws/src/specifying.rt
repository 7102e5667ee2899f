ghost use Rattle.std.specs.Prelude.{◌≡◌, ℕ, List, Result};
ghost use Rattle.blif_defs.specs.Values.{BlifValue, IsBlif};
ghost use Rattle.net_defs.specs.Networks.{Network};
ghost use Rattle.net_defs.specs.NetOf.{NetOf};
ghost use Rattle.net_defs.specs.Specifications.{SpecificationOf};
ghost use Rattle.net_defs.specs.declared.faults.NetError.{NetError};
ghost use Rattle.net_defs.specs.declared.specification.SpecError.{SpecError};

/// A design within the limits has one network or one first fault, and never both.
pub fn design_has_one_network_or_fault()
    ensures exists { (b : BlifValue) → (built : Result Network NetError) × NetOf b built }
    ensures unique { (b : BlifValue) (r s : Result Network NetError) → IsBlif b → NetOf b r
        → NetOf b s → r ≡ s }
{}

/// A text specifies one network or has one first fault, of the text or of the design that it
/// describes, and never both.
pub fn text_has_one_network_or_fault()
    ensures exists { (text : List ℕ) → (specified : Result Network SpecError)
        × SpecificationOf text specified }
    ensures unique { (text : List ℕ) (r s : Result Network SpecError)
        → SpecificationOf text r → SpecificationOf text s → r ≡ s }
{}
