ghost use Rattle.std.specs.Prelude.{◌≡◌, Result};
ghost use Rattle.net_defs.specs.Networks.{Network};
ghost use Rattle.net_defs.specs.Nets.{IsNet};
ghost use Rattle.net_defs.specs.Interfaces.{PlacePairs, IsPairing, InterfaceOf, Pairs};
ghost use Rattle.net_defs.specs.declared.interface.InterfaceError.{InterfaceError};

/// Two networks pair in one way, or have one first name without a partner.
pub fn interface_exists_and_is_unique()
    ensures exists { (spec design : Network) → (answer : Result PlacePairs InterfaceError)
        × InterfaceOf spec design answer }
    ensures unique { (spec design : Network) (a b : Result PlacePairs InterfaceError)
        → IsNet design → InterfaceOf spec design a → InterfaceOf spec design b → a ≡ b }
{}

/// In a pairing of two nets each input and each output of the design is the partner of one.
pub fn pairing_pairs_each_place()
    ensures { (spec design : Network) (p : PlacePairs) → IsNet spec → IsNet design
        → IsPairing spec design p → Pairs design p }
{}
