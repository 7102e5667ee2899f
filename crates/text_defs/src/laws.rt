ghost use Rattle.std.specs.Prelude.{◌≡◌, ℕ, ◌^◌, ◌<◌, ◌≤◌, ◌↔◌, List, Some};
ghost use Rattle.text_defs.specs.Numbers.{Spells, number_in, number_within, positive_within};

/// A text spells one number.
pub fn spelling_is_unique()
    ensures { (text : List ℕ) (m n : ℕ) → m < 2 ^ 64 → n < 2 ^ 64
        → Spells text m → Spells text n → m ≡ n }
{}

/// The number that is computed of a text is the one that it spells.
pub fn number_in_is_spelled()
    ensures { (text : List ℕ) (n : ℕ) → n < 2 ^ 64 → (number_in text ≡ Some n) ↔ Spells text n }
{}

/// The number up to a greatest one that is computed of a text is the one that it spells.
pub fn number_within_is_spelled()
    ensures { (max n : ℕ) (text : List ℕ) → max < 2 ^ 64
        → (number_within max text ≡ Some n) ↔ (Spells text n × (n ≤ max)) }
{}

/// The number from 1 to a greatest one that is computed of a text is the one that it spells.
pub fn positive_within_is_spelled()
    ensures { (max n : ℕ) (text : List ℕ) → max < 2 ^ 64
        → (positive_within max text ≡ Some n) ↔ (Spells text n × (1 ≤ n) × (n ≤ max)) }
{}
