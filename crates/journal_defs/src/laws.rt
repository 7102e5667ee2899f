ghost use Rattle.std.specs.Prelude.{◌≡◌, ◌≢◌, ℕ, ◌+◌, ◌<◌, ◌≤◌, List, [], ◌∷◌, ◌++◌, length, take, Some};
ghost use Rattle.net_defs.specs.Networks.{Network};
ghost use Rattle.net_defs.specs.Settling.{IsAcyclic};
ghost use Rattle.net_defs.specs.Evaluation.{SpecOut};
ghost use Rattle.fabric_defs.specs.Bits.{AreBits};
ghost use Rattle.fabric_defs.specs.Geometries.{GeometryValue};
ghost use Rattle.fabric_defs.specs.Configurations.{ConfigValue};
ghost use Rattle.journal_defs.specs.Journals.{EntryValue, spec_at, config_at, agreement_at, config_in, spec_after, agreement_after};
ghost use Rattle.journal_defs.specs.Legality.{IsInstallable, CanFollow, Legal};
ghost use Rattle.journal_defs.specs.Replies.{GivesOut};

/// One more entry changes its own slot, and no other.
pub fn appended_entry_changes_its_slot_alone()
    ensures spec { (h : List EntryValue) (e : EntryValue)
        → spec_at (h ++ e ∷ []) e.slot ≡ spec_after (spec_at h e.slot) e.change }
    ensures config { (h : List EntryValue) (e : EntryValue)
        → config_at (h ++ e ∷ []) e.slot ≡ config_in e.change }
    ensures agreement { (h : List EntryValue) (e : EntryValue) → agreement_at (h ++ e ∷ []) e.slot
        ≡ agreement_after (agreement_at h e.slot) (length h + 1) e.change }
    ensures other_specs { (h : List EntryValue) (e : EntryValue) (slot : ℕ) → e.slot ≢ slot
        → spec_at (h ++ e ∷ []) slot ≡ spec_at h slot }
    ensures other_configs { (h : List EntryValue) (e : EntryValue) (slot : ℕ) → e.slot ≢ slot
        → config_at (h ++ e ∷ []) slot ≡ config_at h slot }
    ensures other_agreements { (h : List EntryValue) (e : EntryValue) (slot : ℕ) → e.slot ≢ slot
        → agreement_at (h ++ e ∷ []) slot ≡ agreement_at h slot }
{}

/// No entry is a legal journal, and a legal journal with one more entry that may follow is legal.
pub fn appended_journals_are_legal()
    ensures empty { (g : GeometryValue) (slots limit : ℕ) → Legal g slots limit [] }
    ensures appended { (g : GeometryValue) (slots limit : ℕ) (h : List EntryValue) (e : EntryValue)
        → Legal g slots limit h → length h < limit → e.slot < slots → CanFollow g h e
        → Legal g slots limit (h ++ e ∷ []) }
{}

/// Each beginning of a legal journal is legal.
pub fn prefixes_are_legal()
    ensures first { (g : GeometryValue) (slots limit n : ℕ) (h : List EntryValue)
        → Legal g slots limit h → Legal g slots limit (take n h) }
    ensures before { (g : GeometryValue) (slots limit : ℕ) (h later : List EntryValue)
        → Legal g slots limit (h ++ later) → Legal g slots limit h }
{}

/// What runs in a slot after a legal journal is equal to the agreed network of the slot.
pub fn running_configurations_are_equal()
    ensures { (g : GeometryValue) (slots limit slot : ℕ) (h : List EntryValue) (config : ConfigValue)
        → Legal g slots limit h → config_at h slot ≡ Some config
        → (net : Network) × IsInstallable g h slot net config }
{}

/// What a slot answers to a cycle after a legal journal are the outputs of its agreed network.
pub fn legal_outputs_are_agreed()
    ensures { (g : GeometryValue) (slots limit slot cell bit : ℕ) (h : List EntryValue)
        (x y : List ℕ) (net : Network)
        → Legal g slots limit h → GivesOut h slot x cell y bit
        → spec_at h slot ≡ Some net → IsAcyclic net → AreBits x → SpecOut net x y }
{}
